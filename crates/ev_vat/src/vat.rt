//! A vat: it opens, takes turns, receives notes and notices cuts.

ghost use Rattle.std.specs.Prelude.{◌≡◌, ◌++◌, ◌∷◌, ℕ, List, [], Ok, Some, None, map, IfOk, OnOk};
ghost use Rattle.def_machine.specs.Arrive as machine;
ghost use Rattle.def_machine.specs.Eval.{opening, taking};
ghost use Rattle.def_machine.specs.Receive as theirs;
ghost use Rattle.def_machine.specs.Values.{Words, Local, Prom};
ghost use Rattle.ev_heap.specs.Contents.{nothing};
ghost use Rattle.ev_room.specs.Reading.{World, names, roots_from, texts_of, vat_of};
ghost use Rattle.ev_room.specs.Sound.{Grown, IsSound, Stays, are_there, is_there, problems};
ghost use Rattle.ev_refs.specs.References.{unsettled_of};
ghost use Rattle.ev_vat.specs.Rooted.{IsRooted, each_once, fresh, root_of};
ghost use Rattle.ev_room.specs.Acts as acts;
ghost use Rattle.ev_arrive.specs.Hearing.{Name, Sees, heard_by};
ghost use Rattle.ev_refs.specs.Reading.{message_by};
ghost use Rattle.ev_vat.specs.Vat.{ArrivalIs, ClosesSo, IsReady, MessageThere, StaysStopped, StepIs, TurnIs, UnlessMemory, closed_by, stop_in, stop_of, taken};
ghost use Rattle.law_evaluation.specs.Arrivals.Arrivals.{NoteFits, vat_in};

use crate::{Ended, new_interior, run_message, run_program};
use ev_arrive::arriving::arrive;
use ev_arrive::brought::Heard;
use ev_arrive::host::Host;
use ev_arrive::notice::notice;
use ev_arrive::receiving::{Sight, receive};
use ev_base::{ActId, Limits, Memory, PromId, Seq, Value, VatId, Word};
use ev_heap::Happened;
use ev_intro::GiftTable;
use ev_pass::{Interior, Stop};
use ev_refs::{Message, Refs};
use ev_room::Program;
use ev_room::room::{new_activation, tell};
use ev_settle::{finish, throw};
use std::alloc::Global;

/// The name of the vat's root, the first that it knows.
const ROOT: PromId = PromId(0);

/// Why a step of a vat came to no end. What the step did up to there stands, and is of no use any more.
#[derive(Clone, Copy)]
pub enum VatStop {
    /// The fuel did not suffice.
    Fuel,
    /// A node would have begun below the greatest depth.
    Deep,
    /// The second of these draws gives the word of the first.
    WordRepeated(u64, u64),
    /// The program has a noun that nothing binds, or a number that names no node of its kind.
    Astray,
    /// Memory ran out.
    Memory,
}

impl From<Memory> for VatStop {
    ghost use Rattle.std.specs.Prelude.{◌≡◌};
    ghost use Rattle.ev_vat.specs.declared.vat.VatStop.TheVariants.{Memory as NoMemory};

    ghost from_gives = { λ _ e. e ≡ NoMemory };

    fn from(_error: Memory) -> VatStop {
        VatStop::Memory
    }
}

/// The stop of a step in which references stop. A text that is missing goes astray: none is, where the heap has what the references hold.
#[tactic(auto, unfolding(crate::specs::Vat::stop_of))]
fn stop_of(stop: Stop) -> VatStop
    ensures { result ≡ stop_of stop }
{
    match stop {
        Stop::Fuel => VatStop::Fuel,
        Stop::Repeated(first, second) => VatStop::WordRepeated(first, second),
        Stop::Astray | Stop::Missing => VatStop::Astray,
        Stop::Memory => VatStop::Memory,
    }
}

/// How a step ends whose last act, on references, came to this.
#[tactic(auto, unfolding(crate::specs::Vat::closed_by))]
fn closed_by(outcome: Result<(), Stop>) -> Result<(), VatStop>
    ensures { result ≡ closed_by outcome }
{
    match outcome {
        Ok(()) => Ok(()),
        Err(stop) => Err(stop_of(stop)),
    }
}

/// A turn ends, by how its evaluation did.
#[tactic(auto, using(crate::proofs::Steps::closes_by))]
fn close(
    act: ActId,
    answer: Option<PromId>,
    ended: Ended,
    inside: &mut Interior,
) -> Result<(), VatStop>
    ensures { ClosesSo ended act answer result inside.old inside.new }
{
    match ended {
        Ended::Value(value) => closed_by(finish(inside, act, answer, &value)),
        Ended::Thrown(problem) => closed_by(throw(inside, act, answer, problem)),
        Ended::Fuel => Err(VatStop::Fuel),
        Ended::Deep => Err(VatStop::Deep),
        Ended::Repeated(first, second) => Err(VatStop::WordRepeated(first, second)),
        Ended::Astray => Err(VatStop::Astray),
    }
}

/// An activation begins that runs the code of this receiver.
#[tactic(auto, unfolding(ev_room::specs::Acts::new_activation))]
fn begin(receiver: Value, inside: &mut Interior) -> Result<ActId, Memory>
    ensures { IfOk result (λ act. acts.new_activation receiver inside.old ≡ (Ok act, inside.new)) }
{
    match new_activation(receiver, inside) {
        Ok(act) => Ok(act),
        Err(_) => Err(Memory),
    }
}

/// The opening turn evaluates the program, where these nouns are bound to the names behind the vat's root, and resolves that root.
fn open(program: &Program, nouns: &[Word], depth: u32, inside: &mut Interior) -> Result<(), VatStop>
    requires sound { IsSound inside.old }
    ensures step { (w : World) (rest : List Words) → texts_of w ≡ inside.new.heap.texts ++ rest → inside.old.words.key ≡ w.key
        → StepIs w result inside.new (opening (names w) program.now depth (Prom 0) (roots_from 1 nouns.now) (vat_of w inside.old)) }
    ensures grown { UnlessMemory result (Grown inside.old.heap inside.new.heap) }
    ensures stays { UnlessMemory result (Stays inside.old inside.new) }
    ensures sound { OnOk result (IsSound inside.new) }
{
    let act = begin(Value::Null, inside)?;
    let ended = run_program(program, act, nouns, depth, inside)?;
    close(act, Some(ROOT), ended, inside)
}

/// The line of a turn that takes a message.
fn tell_taken(act: ActId, message: &Message, inside: &mut Interior) -> Result<(), Memory>
    ensures { OnOk result (acts.tell (taken act message.now) inside.old ≡ (Ok tt, inside.new)) }
{
    let event = Happened::Take {
        activation: act,
        message: message.id,
        target: message.target,
        verb: message.verb.share()?,
        args: Seq::of(Vec::from_slice(inside.alloc, message.args.as_slice())?),
        answer: message.answer,
    };
    match tell(inside, event) {
        Ok(()) => Ok(()),
        Err(_) => Err(Memory),
    }
}

/// A turn takes a message, runs what its target does with it, and resolves its answer.
#[tactic(auto, using(crate::proofs::Steps::target_there, crate::proofs::Steps::args_there))]
fn take(
    program: &Program,
    depth: u32,
    message: &Message,
    inside: &mut Interior,
) -> Result<(), VatStop>
    requires sound { IsSound inside.old }
    requires message { MessageThere inside.old.heap message.now }
    ensures step { (w : World) (rest : List Words) → texts_of w ≡ inside.new.heap.texts ++ rest → inside.old.words.key ≡ w.key
        → StepIs w result inside.new (taking (names w) program.now depth (message_by (texts_of w) message.now) (vat_of w inside.old)) }
    ensures grown { UnlessMemory result (Grown inside.old.heap inside.new.heap) }
    ensures stays { UnlessMemory result (Stays inside.old inside.new) }
    ensures sound { OnOk result (IsSound inside.new) }
{
    let act = begin(message.target, inside)?;
    tell_taken(act, message, inside)?;
    let ended = run_message(
        program,
        act,
        message.target,
        &message.verb,
        message.args.as_slice(),
        depth,
        inside,
    )?;
    close(act, message.answer, ended, inside)
}

/// A note that comes in, as a step.
#[tactic(auto, using(crate::proofs::Arrivals::heard_grown, crate::proofs::Arrivals::heard_stays, crate::proofs::Arrivals::heard_sound))]
fn hear(from: VatId, sight: Sight, note: Heard, host: &mut Host) -> Result<(), VatStop>
    requires sound { IsSound host.old.inside }
    requires fits { NoteFits host.old.inside.heap note }
    ensures step { (w : World) (rest : List Words) → texts_of w ≡ host.new.inside.heap.texts ++ rest → host.old.inside.words.key ≡ w.key
        → (their : theirs.Sight Local) → Sees their host.old note sight → (n : Local) (x : Name) (c : ℕ)
        → ArrivalIs w result host.new (theirs.receive (names w) their from (heard_by (texts_of w) n x c from note) (vat_in w host.old)) }
    ensures grown { UnlessMemory result (Grown host.old.inside.heap host.new.inside.heap) }
    ensures stays { UnlessMemory result (Stays host.old.inside host.new.inside) }
    ensures sound { OnOk result (IsSound host.new.inside) }
{
    closed_by(receive(host, from, sight, note))
}

/// A note that arrives, as a step.
#[tactic(auto, using(crate::proofs::Arrivals::arrived_grown, crate::proofs::Arrivals::arrived_stays, crate::proofs::Arrivals::arrived_sound))]
fn come_in(from: VatId, note: Heard, host: &mut Host) -> Result<(), VatStop>
    requires sound { IsSound host.old.inside }
    requires fits { NoteFits host.old.inside.heap note }
    ensures step { (w : World) (rest : List Words) → texts_of w ≡ host.new.inside.heap.texts ++ rest → host.old.inside.words.key ≡ w.key → (n : Local) (x : Name) (c : ℕ)
        → ArrivalIs w result host.new (machine.arrive (names w) from (heard_by (texts_of w) n x c from note) (vat_in w host.old)) }
    ensures grown { UnlessMemory result (Grown host.old.inside.heap host.new.inside.heap) }
    ensures stays { UnlessMemory result (Stays host.old.inside host.new.inside) }
    ensures sound { OnOk result (IsSound host.new.inside) }
{
    closed_by(arrive(host, from, note))
}

/// A link that is noticed as cut, as a step.
#[tactic(auto, using(crate::proofs::Arrivals::noticed, crate::proofs::Arrivals::noticed_grown, crate::proofs::Arrivals::noticed_stays, crate::proofs::Arrivals::noticed_sound))]
fn notice_cut(peer: VatId, host: &mut Host) -> Result<(), VatStop>
    requires sound { IsSound host.old.inside }
    ensures step { (w : World) (rest : List Words) → texts_of w ≡ host.new.inside.heap.texts ++ rest → host.old.inside.words.key ≡ w.key
        → ArrivalIs w result host.new (machine.notice (names w) peer (vat_in w host.old)) }
    ensures grown { UnlessMemory result (Grown host.old.inside.heap host.new.inside.heap) }
    ensures stays { UnlessMemory result (Stays host.old.inside host.new.inside) }
    ensures sound { OnOk result (IsSound host.new.inside) }
{
    closed_by(notice(host, peer))
}

/// The first message of the queue is taken, if there is one.
#[tactic(auto, using(crate::proofs::Steps::front_there, crate::proofs::Steps::front_sound, crate::proofs::Steps::turn_takes, crate::proofs::Steps::turn_stops, crate::proofs::Steps::turn_idle))]
fn take_first(program: &Program, depth: u32, inside: &mut Interior) -> Result<bool, VatStop>
    requires sound { IsSound inside.old }
    ensures turn { (w : World) (rest : List Words) → texts_of w ≡ inside.new.heap.texts ++ rest → inside.old.words.key ≡ w.key
        → TurnIs w program.now depth result inside.old inside.new }
    ensures grown { UnlessMemory result (Grown inside.old.heap inside.new.heap) }
    ensures stays { UnlessMemory result (Stays inside.old inside.new) }
    ensures sound { OnOk result (IsSound inside.new) }
{
    match inside.refs.dequeue() {
        None => Ok(false),
        Some(message) => {
            take(program, depth, &message, inside)?;
            Ok(true)
        }
    }
}

/// Each of these is to be told of the vat's root, the one name that it knows.
#[tactic(auto, using(crate::proofs::Starts::root_there, crate::proofs::Starts::none_told))]
fn tell_root(known_by: &[VatId], refs: &mut Refs) -> Result<(), Memory>
    requires root { refs.old.known ≡ root_of refs.old.me [] ∷ [] }
    ensures { OnOk result (refs.new ≡ record refs.old { known = root_of refs.old.me (each_once known_by.now) ∷ [] }) }
{
    for vat in known_by {
        refs.tell(ROOT, *vat)?;
    }
    Ok(())
}

/// The roots of these vats come to be known, in order.
fn learn_roots(knows: &[VatId], refs: &mut Refs) -> Result<(), Memory>
    ensures { OnOk result (refs.new ≡ record refs.old { known = refs.old.known ++ map unsettled_of knows.now }) }
{
    for vat in knows {
        refs.learn(*vat)?;
    }
    Ok(())
}

/// A vat. After a stop each call that would take a step answers the same stop, and changes nothing.
pub struct Vat {
    pub(crate) host: Host,
    stopped: Option<VatStop>,
}

impl Drop for Vat {
    fn drop(self) {
        let Self {
            host: _host,
            stopped: _stopped,
        } = self;
    }
}

impl Vat {
    /// The vat at its start, with so much fuel: it knows its root, of which those that know the vat are to be told, and then the roots of
    /// those that it knows, in order. It draws words under that key.
    pub fn start(
        alloc: Global,
        me: VatId,
        knows: &[VatId],
        known_by: &[VatId],
        key: &[u8; 32],
        fuel: u32,
    ) -> Result<Vat, Memory>
        ensures rooted { IfOk result (λ vat. IsRooted me knows.now known_by.now key.now vat.host.inside) }
        ensures begins { IfOk result (λ vat. (w : World) → vat_in w vat.host ≡ record (fresh me fuel knows.now known_by.now) { outbox = w.before.outbox; happened = w.before.happened }) }
        ensures heap { IfOk result (λ vat. vat.host.inside.heap ≡ record nothing { texts = problems }) }
        ensures micro { IfOk result (λ vat. vat.host.inside.micro ≡ record { fuel = fuel; events = [] }) }
        ensures gifts { IfOk result (λ vat. vat.host.gifts ≡ []) }
        ensures sound { IfOk result (λ vat. IsSound vat.host.inside) }
        ensures stopped { IfOk result (λ vat. vat.stopped ≡ None) }
    {
        let mut inside = new_interior(alloc, me, key, fuel)?;
        inside.refs.learn(me)?;
        tell_root(known_by, &mut inside.refs)?;
        learn_roots(knows, &mut inside.refs)?;
        let gifts = GiftTable::new(alloc);
        Ok(Vat {
            host: Host { inside, gifts },
            stopped: None,
        })
    }

    /// Keeps the stop of a step, where it stopped.
    fn keep_stop<T>(&mut self, outcome: &Result<T, VatStop>)
        ensures { self.new ≡ record self.old { stopped = stop_in outcome.now } }
    {
        self.stopped = match outcome {
            Ok(_) => None,
            Err(stop) => Some(*stop),
        };
    }

    /// Its opening turn evaluates the program, and resolves the root to what that gives. The nouns are those of the vats that it knows, in
    /// order: each is bound finally to the root of its vat.
    ///
    /// No node begins below `limits.depth` levels.
    pub fn first_turn(
        &mut self,
        program: &Program,
        nouns: &[Word],
        limits: Limits,
    ) -> Result<(), VatStop>
        requires ready { IsReady self.old }
        ensures step { self.old.stopped ≡ None → (w : World) (rest : List Words) → texts_of w ≡ self.new.host.inside.heap.texts ++ rest → self.old.host.inside.words.key ≡ w.key
            → StepIs w result self.new.host.inside (opening (names w) program.now limits.depth (Prom 0) (roots_from 1 nouns.now) (vat_of w self.old.host.inside)) }
        ensures grown { self.old.stopped ≡ None → UnlessMemory result (Grown self.old.host.inside.heap self.new.host.inside.heap) }
        ensures stays { self.old.stopped ≡ None → UnlessMemory result (Stays self.old.host.inside self.new.host.inside) }
        ensures sound { OnOk result (IsSound self.new.host.inside) }
        ensures gifts { self.new.host.gifts ≡ self.old.host.gifts }
        ensures stopped { StaysStopped self.old result self.new }
        ensures kept { self.new.stopped ≡ stop_in result }
    {
        if let Some(stop) = self.stopped {
            return Err(stop);
        }
        let outcome = open(program, nouns, limits.depth, &mut self.host.inside);
        self.keep_stop(&outcome);
        outcome
    }

    /// A turn takes the first message of the queue; it answers false exactly where the queue is empty, and then nothing changes.
    ///
    /// No node begins below `limits.depth` levels.
    pub fn turn(&mut self, program: &Program, limits: Limits) -> Result<bool, VatStop>
        requires ready { IsReady self.old }
        ensures turn { self.old.stopped ≡ None → (w : World) (rest : List Words) → texts_of w ≡ self.new.host.inside.heap.texts ++ rest → self.old.host.inside.words.key ≡ w.key
            → TurnIs w program.now limits.depth result self.old.host.inside self.new.host.inside }
        ensures grown { self.old.stopped ≡ None → UnlessMemory result (Grown self.old.host.inside.heap self.new.host.inside.heap) }
        ensures stays { self.old.stopped ≡ None → UnlessMemory result (Stays self.old.host.inside self.new.host.inside) }
        ensures sound { OnOk result (IsSound self.new.host.inside) }
        ensures gifts { self.new.host.gifts ≡ self.old.host.gifts }
        ensures stopped { StaysStopped self.old result self.new }
        ensures kept { self.new.stopped ≡ stop_in result }
    {
        if let Some(stop) = self.stopped {
            return Err(stop);
        }
        let outcome = take_first(program, limits.depth, &mut self.host.inside);
        self.keep_stop(&outcome);
        outcome
    }

    /// A note of that vat comes in, in this vat's numbers, with what the vat's connections and names tell of it. The texts and lists that
    /// the note names are in the heap, and its lists are within the limits.
    ///
    /// What the machine does then is what the vat does, whatever it calls the names that come to be known.
    pub fn receive(&mut self, from: VatId, sight: Sight, note: Heard) -> Result<(), VatStop>
        requires ready { IsReady self.old }
        requires fits { self.old.stopped ≡ None → NoteFits self.old.host.inside.heap note }
        ensures step { self.old.stopped ≡ None → (w : World) (rest : List Words) → texts_of w ≡ self.new.host.inside.heap.texts ++ rest → self.old.host.inside.words.key ≡ w.key
            → (their : theirs.Sight Local) → Sees their self.old.host note sight → (n : Local) (x : Name) (c : ℕ)
            → ArrivalIs w result self.new.host (theirs.receive (names w) their from (heard_by (texts_of w) n x c from note) (vat_in w self.old.host)) }
        ensures grown { self.old.stopped ≡ None → UnlessMemory result (Grown self.old.host.inside.heap self.new.host.inside.heap) }
        ensures stays { self.old.stopped ≡ None → UnlessMemory result (Stays self.old.host.inside self.new.host.inside) }
        ensures sound { OnOk result (IsSound self.new.host.inside) }
        ensures stopped { StaysStopped self.old result self.new }
        ensures kept { self.new.stopped ≡ stop_in result }
    {
        if let Some(stop) = self.stopped {
            return Err(stop);
        }
        let outcome = hear(from, sight, note, &mut self.host);
        self.keep_stop(&outcome);
        outcome
    }

    /// A note of that vat arrives, in this vat's numbers, without a look at what it tells: so it is with a vat that keeps to the rules,
    /// which tells of nothing twice. The texts and lists that the note names are in the heap, and its lists are within the limits.
    ///
    /// What the machine does then is what the vat does, whatever it calls the names that come to be known.
    pub fn arrive(&mut self, from: VatId, note: Heard) -> Result<(), VatStop>
        requires ready { IsReady self.old }
        requires fits { self.old.stopped ≡ None → NoteFits self.old.host.inside.heap note }
        ensures step { self.old.stopped ≡ None → (w : World) (rest : List Words) → texts_of w ≡ self.new.host.inside.heap.texts ++ rest → self.old.host.inside.words.key ≡ w.key → (n : Local) (x : Name) (c : ℕ)
            → ArrivalIs w result self.new.host (machine.arrive (names w) from (heard_by (texts_of w) n x c from note) (vat_in w self.old.host)) }
        ensures grown { self.old.stopped ≡ None → UnlessMemory result (Grown self.old.host.inside.heap self.new.host.inside.heap) }
        ensures stays { self.old.stopped ≡ None → UnlessMemory result (Stays self.old.host.inside self.new.host.inside) }
        ensures sound { OnOk result (IsSound self.new.host.inside) }
        ensures stopped { StaysStopped self.old result self.new }
        ensures kept { self.new.stopped ≡ stop_in result }
    {
        if let Some(stop) = self.stopped {
            return Err(stop);
        }
        let outcome = come_in(from, note, &mut self.host);
        self.keep_stop(&outcome);
        outcome
    }

    /// The link with that vat is noticed as cut: the names of that host that did not settle break `partition`, and then the gifts that it
    /// was to open. A second notice changes nothing.
    pub fn notice(&mut self, peer: VatId) -> Result<(), VatStop>
        requires ready { IsReady self.old }
        ensures step { self.old.stopped ≡ None → (w : World) (rest : List Words) → texts_of w ≡ self.new.host.inside.heap.texts ++ rest → self.old.host.inside.words.key ≡ w.key
            → ArrivalIs w result self.new.host (machine.notice (names w) peer (vat_in w self.old.host)) }
        ensures grown { self.old.stopped ≡ None → UnlessMemory result (Grown self.old.host.inside.heap self.new.host.inside.heap) }
        ensures stays { self.old.stopped ≡ None → UnlessMemory result (Stays self.old.host.inside self.new.host.inside) }
        ensures sound { OnOk result (IsSound self.new.host.inside) }
        ensures stopped { StaysStopped self.old result self.new }
        ensures kept { self.new.stopped ≡ stop_in result }
    {
        if let Some(stop) = self.stopped {
            return Err(stop);
        }
        let outcome = notice_cut(peer, &mut self.host);
        self.keep_stop(&outcome);
        outcome
    }

    /// The stop that the vat answers from now on, or none: the stop of the step that stopped.
    pub fn stopped(&self) -> Option<VatStop>
        ensures { result ≡ self.now.stopped }
    {
        self.stopped
    }

    /// What the vat holds, and what its last step told.
    pub fn inside(&self) -> &Interior
        ensures { result.now ≡ self.now.host.inside }
    {
        &self.host.inside
    }
}
