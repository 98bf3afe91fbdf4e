//! A vat with its connections and the gifts that it learnt.

ghost use Rattle.std.specs.Prelude.{◌≡◌, ◌++◌, ℕ, List, None, IfErr, IfOk, OnOk, length, map, slice_get};
ghost use Rattle.def_run.specs.Names.{Names};
ghost use Rattle.def_run.specs.Vats.{Member as Theirs};
ghost use Rattle.def_machine.specs.Arrive as machine;
ghost use Rattle.def_machine.specs.Eval.{opening, taking};
ghost use Rattle.def_machine.specs.Values.{Prom};
ghost use Rattle.ev_room.specs.Reading.{roots_from};
ghost use Rattle.ev_vat.specs.Sending.{AreSent};
ghost use Rattle.ev_vat.specs.Standing.{IsFound, IsMember};
ghost use Rattle.ev_vat.specs.Starting.{rooted_member};
ghost use Rattle.ev_vat.specs.MemberSteps.{Steps, Turns, own};
ghost use Rattle.ev_pass.specs.Acts.{words_by};
ghost use Rattle.ev_pass.specs.Reading.{names_under};
ghost use Rattle.ev_vat.specs.Closing.{left_lines};
ghost use Rattle.ev_vat.specs.Vat.{IsReady};
ghost use Rattle.ev_vat.specs.declared.vat.VatStop.TheVariants.{Memory as NoMemory};
ghost use Rattle.ev_wire.specs.Putting.{all_written, put_all, table_for};

use crate::sending::{Sending, send_all};
use crate::starting::first_connections;
use crate::{Vat, VatStop};
use def_op::Desc;
use ev_base::{Limits, Memory, Value, VatId, Word};
use ev_event::History;
use ev_intro::Words;
use ev_room::Program;
use ev_step_lines::Table;
use ev_tables::Connection;
use ev_wire::LearntTable;
use std::alloc::Global;

/// A vat with what it has for its peers. After a call that answered an error it is of no use any more.
pub struct Member {
    pub vat: Vat,
    /// The gifts that it learnt as gifts.
    pub learnt: LearntTable,
    /// By the number of the peer; the vat's own is unused.
    pub connections: Vec<Connection>,
}

impl Drop for Member {
    fn drop(self) {
        let Self {
            vat: _vat,
            learnt: _learnt,
            connections: _connections,
        } = self;
    }
}

impl Member {
    /// The vat of a run of so many vats at its start, with so much fuel: as `Vat::start` has it, with a connection for each vat. Its root is
    /// exported to those that know it, and the roots that it knows are imported from their vats.
    pub fn start(
        alloc: Global,
        me: VatId,
        count: u8,
        knows: &[VatId],
        known_by: &[VatId],
        key: &[u8; 32],
        fuel: u32,
    ) -> Result<Member, Memory>
        ensures begins { IfOk result (λ c. (t : Names) → IsMember (rooted_member fuel me count knows.now known_by.now t) c) }
        ensures key { IfOk result (λ c. c.vat.host.inside.words.key ≡ key.now) }
        ensures ready { IfOk result (λ c. IsReady c.vat) }
    {
        let vat = Vat::start(alloc, me, knows, known_by, key, fuel)?;
        let connections = first_connections(alloc, me, count, knows, known_by)?;
        Ok(Member {
            vat,
            learnt: LearntTable::new(alloc),
            connections,
        })
    }

    /// The vat.
    pub fn vat(&self) -> &Vat
        ensures { result.now ≡ self.now.vat }
    {
        &self.vat
    }

    /// Adds the lines of what is left at the vat, by the table of its names, as `Vat::tell_left` does: the messages of the queue are taken
    /// off it.
    pub fn tell_left(&mut self, table: &Table, history: &mut History) -> Result<(), Memory>
        ensures { OnOk result (history.new ≡ history.old ++ left_lines table.now self.old.vat.host.inside.refs) }
    {
        self.vat.tell_left(table, history)
    }

    /// Readies the vat for its next step: what the last one told and put is forgotten, there is so much fuel, and words are drawn behind
    /// those that were drawn so far. The words that the vat had are given back for them.
    pub fn ready(&mut self, fuel: u32, words: &mut Words)
        ensures found { (m : Theirs) → words.old.key ≡ self.old.vat.host.inside.words.key → IsMember m self.old → IsFound fuel (words_by words.old.key words.old.count) m self.new }
        ensures words { words.new ≡ self.old.vat.host.inside.words }
        ensures kept { self.new.vat.host.inside.words ≡ words.old }
        ensures stopped { self.new.vat.stopped ≡ self.old.vat.stopped }
        ensures ready { IsReady self.old.vat → IsReady self.new.vat }
    {
        self.vat.ready(fuel, words);
    }

    /// The words of the run are given back for those that the vat had before, with the fuel that is left. What the step told and put is
    /// forgotten.
    pub fn give_back(&mut self, words: &mut Words) -> u32
        ensures fuel { result ≡ self.old.vat.host.inside.micro.fuel }
        ensures words { words.new ≡ self.old.vat.host.inside.words }
        ensures kept { self.new.vat.host.inside.words ≡ words.old }
        ensures member { (m : Theirs) → words.old.key ≡ self.old.vat.host.inside.words.key → IsMember m self.old → IsMember m self.new }
        ensures ready { IsReady self.old.vat → IsReady self.new.vat }
    {
        let fuel = self.vat.inside().micro.fuel;
        self.ready(0, words);
        fuel
    }

    /// How much that peer exported to the vat.
    pub fn imports(&self, peer: VatId) -> u64
        ensures { result ≡ length (table_for peer self.now.connections.items).imports }
    {
        match self.connections.get(peer.0 as usize) {
            Some(connection) => connection.next_import(),
            None => 0,
        }
    }

    /// How much the vat exported to that peer.
    pub fn exports(&self, peer: VatId) -> u64
        ensures { result ≡ length (table_for peer self.now.connections.items).exports }
    {
        match self.connections.get(peer.0 as usize) {
            Some(connection) => connection.next_export(),
            None => 0,
        }
    }

    /// What the vat exported to that peer at a position, if something.
    pub fn exported(&self, peer: VatId, position: u64) -> Option<Value>
        ensures { result ≡ slice_get (table_for peer self.now.connections.items).exports position }
    {
        match self.connections.get(peer.0 as usize) {
            Some(connection) => connection.entry(&Desc::YourExport(position)),
            None => None,
        }
    }

    /// Writes what the step at hand put: the frames to be sent, in order. After want of memory the connections are of no use any more.
    pub fn send(&mut self) -> Result<Vec<Sending>, VatStop>
        ensures sends { IfOk result (λ xs. AreSent (all_written self.old.vat.host.inside self.old.vat.host.inside.post self.old.connections.items) xs.items) }
        ensures connections { OnOk result (self.new.connections.items ≡ put_all self.old.vat.host.inside self.old.vat.host.inside.post self.old.connections.items) }
        ensures vat { self.new.vat ≡ self.old.vat }
        ensures learnt { self.new.learnt ≡ self.old.learnt }
        ensures fault { IfErr result (λ e. e ≡ NoMemory) }
    {
        send_all(self.vat.inside(), &mut self.connections)
    }

    /// The opening turn evaluates the program, and resolves the vat's root to what that gives. The nouns are those of the vats that it
    /// knows, in order: each is bound finally to the root of its vat. It answers the frames to be sent, one for each note that was put, in
    /// order.
    ///
    /// No node begins below `limits.depth` levels.
    pub fn first_turn(
        &mut self,
        program: &Program,
        nouns: &[Word],
        limits: Limits,
    ) -> Result<Vec<Sending>, VatStop>
        requires ready { IsReady self.old.vat }
        ensures step { (fuel : ℕ) (drawn : List ℕ) (m : Theirs) → IsFound fuel drawn m self.old
            → Steps fuel drawn m (own m) (λ xs. xs.items) result self.new (opening (names_under self.old.vat.host.inside.words.key) program.now limits.depth (Prom 0) (roots_from 1 nouns.now)) }
        ensures ready { IsReady self.new.vat }
        ensures key { self.old.vat.stopped ≡ None → OnOk result (self.new.vat.host.inside.words.key ≡ self.old.vat.host.inside.words.key) }
    {
        match self.vat.first_turn(program, nouns, limits) {
            Ok(()) => self.send(),
            Err(stop) => Err(stop),
        }
    }

    /// A turn takes the first message of the queue. It answers the frames to be sent, or none where the queue is empty, and then nothing
    /// changes.
    ///
    /// No node begins below `limits.depth` levels.
    pub fn turn(
        &mut self,
        program: &Program,
        limits: Limits,
    ) -> Result<Option<Vec<Sending>>, VatStop>
        requires ready { IsReady self.old.vat }
        ensures step { (fuel : ℕ) (drawn : List ℕ) (m : Theirs) → IsFound fuel drawn m self.old
            → Turns fuel drawn m (λ xs. xs.items) result self.old self.new (λ x. taking (names_under self.old.vat.host.inside.words.key) program.now limits.depth x) m.vat.queue }
        ensures ready { IsReady self.new.vat }
        ensures key { self.old.vat.stopped ≡ None → OnOk result (self.new.vat.host.inside.words.key ≡ self.old.vat.host.inside.words.key) }
    {
        match self.vat.turn(program, limits) {
            Ok(true) => match self.send() {
                Ok(sendings) => Ok(Some(sendings)),
                Err(stop) => Err(stop),
            },
            Ok(false) => Ok(None),
            Err(stop) => Err(stop),
        }
    }

    /// The link with that vat is noticed as cut. It answers the frames to be sent.
    pub fn notice(&mut self, peer: VatId) -> Result<Vec<Sending>, VatStop>
        requires ready { IsReady self.old.vat }
        ensures step { (fuel : ℕ) (drawn : List ℕ) (m : Theirs) → IsFound fuel drawn m self.old
            → Steps fuel drawn m (own m) (λ xs. xs.items) result self.new (machine.notice (names_under self.old.vat.host.inside.words.key) peer) }
        ensures ready { IsReady self.new.vat }
        ensures key { self.old.vat.stopped ≡ None → OnOk result (self.new.vat.host.inside.words.key ≡ self.old.vat.host.inside.words.key) }
    {
        match self.vat.notice(peer) {
            Ok(()) => self.send(),
            Err(stop) => Err(stop),
        }
    }
}
