//! Turns.

ghost use Rattle.std.specs.Prelude.{◌≡◌, ◌++◌, ◌∷◌, ℕ, List, [], true, map, reverse, IfOk, OnOk};
ghost use Rattle.def_machine.specs.Calls.{turn_value};
ghost use Rattle.def_machine.specs.Eval as theirs;
ghost use Rattle.ev_heap.specs.Contents.{nothing};
ghost use Rattle.ev_refs.specs.References.{no_references};
ghost use Rattle.ev_room.specs.Reading.{World, names, roots_from, texts_of, value_of, values_of, vat_of};
ghost use Rattle.ev_room.specs.Sound.{Grown, IsSound, Stays, are_there, cycle_id, is_there, partition_id, problems, too_heavy_id};
ghost use Rattle.ev_steps.specs.Steps.{alone, evaluator};
ghost use Rattle.ev_room.specs.Acts.{Gives};
ghost use Rattle.ev_vat.specs.Turn as machine;
ghost use Rattle.ev_vat.specs.Turn.{Ends, EndsAs, EndsBy, GivesThere, LeftBy, bonds_from, turn_of};

use ev_base::{ActId, Memory, NodeId, PromId, Seq, TextId, Value, VatId, Word};
use ev_heap::{Heap, Micro};
use ev_intro::Words;
use ev_nodes::{evaluate, take_message};
use ev_pass::{Interior, Post};
use ev_refs::Refs;
use ev_room::Program;
use ev_room::bindings::Nouns;
use ev_room::exit::Exit;
use ev_room::scope::{Binding, Bound, NO_GUARD, Scope};
use std::alloc::Global;

/// What evaluation throws, and what references make of a cut link and of names that lead back to themselves.
const PROBLEMS: [&str; 47] = [
    "integer overflow",
    "not int",
    "no method",
    "zero divisor",
    "negative power",
    "not char",
    "not boolean",
    "not String",
    "not List",
    "out of range",
    "bad argument",
    "not comparable",
    "too heavy",
    "not a text",
    "ejector is dead",
    "no match",
    "not a list",
    "not a guard",
    "not an auditor",
    "audition is dead",
    "not free",
    "not any",
    "not void",
    "not int",
    "not boolean",
    "not char",
    "not String",
    "not List",
    "not nullOk",
    "not near",
    "not DeepFrozen",
    "not nullOk:any",
    "not nullOk:void",
    "not nullOk:int",
    "not nullOk:boolean",
    "not nullOk:char",
    "not nullOk:String",
    "not nullOk:List",
    "not nullOk:nullOk",
    "not nullOk:near",
    "not nullOk:DeepFrozen",
    "partition",
    "cycle",
    "not settled",
    "bad message",
    "not resolved",
    "already resolved",
];

/// How a turn ended.
#[derive(Clone, Copy)]
pub enum Ended {
    /// With a value.
    Value(Value),
    /// With a problem.
    Thrown(TextId),
    /// The fuel did not suffice for a node that began.
    Fuel,
    /// A node would have begun below the greatest depth.
    Deep,
    /// The second of these draws gives the word of the first.
    Repeated(u64, u64),
    /// The program has a noun that nothing binds, or a number that names no node of its kind, or was left by an ejector
    /// whose escape it had left; or the target of the message is no value of this vat.
    Astray,
}

/// Keeps these texts, which have the next numbers.
fn make_texts(heap: &mut Heap, texts: &[&str]) -> Result<(), Memory>
    ensures { OnOk result (heap.new ≡ record heap.old { texts = heap.old.texts ++ map (λ text. text.now) texts.now }) }
{
    for text in texts {
        heap.make_text(text)?;
    }
    Ok(())
}

/// A heap that holds the texts of the problems that evaluation throws and those of references, and nothing else.
pub fn new_heap(alloc: Global) -> Result<Heap, Memory>
    ensures texts { IfOk result (λ heap. heap ≡ record nothing { texts = problems }) }
{
    let mut heap = Heap::new(alloc);
    make_texts(&mut heap, &PROBLEMS)?;
    Ok(heap)
}

/// The inside of a vat of that number which has done nothing and knows nothing, with so much fuel and the words under that key.
pub fn new_interior(
    alloc: Global,
    number: VatId,
    key: &[u8; 32],
    fuel: u32,
) -> Result<Interior, Memory>
    ensures heap { IfOk result (λ inside. inside.heap ≡ record nothing { texts = problems }) }
    ensures sound { IfOk result IsSound }
    ensures refs { IfOk result (λ inside. inside.refs ≡ no_references number partition_id cycle_id) }
    ensures micro { IfOk result (λ inside. inside.micro ≡ record { fuel = fuel; events = [] }) }
    ensures words { IfOk result (λ inside. inside.words ≡ record { key = key.now; count = 0 }) }
    ensures post { IfOk result (λ inside. inside.post ≡ []) }
    ensures heavy { IfOk result (λ inside. inside.too_heavy ≡ too_heavy_id) }
{
    Ok(Interior {
        alloc,
        heap: new_heap(alloc)?,
        refs: Refs::new(alloc, number, TextId(41), TextId(42)),
        micro: Micro::new(alloc, fuel),
        words: Words::new(alloc, key),
        post: Post::new(alloc),
        too_heavy: TextId(12),
    })
}

/// How a turn ended whose evaluation gave no value.
fn without_value(exit: Exit) -> Result<Ended, Memory>
    ensures { EndsBy exit result }
{
    match exit {
        Exit::Thrown(id) => Ok(Ended::Thrown(id)),
        Exit::Fuel => Ok(Ended::Fuel),
        Exit::Deep => Ok(Ended::Deep),
        Exit::Repeated(first, second) => Ok(Ended::Repeated(first, second)),
        Exit::Ejected(_, _) | Exit::Astray => Ok(Ended::Astray),
        Exit::Memory => Err(Memory),
    }
}

/// How a turn ended, by how its evaluation did.
fn ending(outcome: Result<Value, Exit>) -> Result<Ended, Memory>
    ensures { EndsAs outcome result }
{
    match outcome {
        Ok(value) => Ok(Ended::Value(value)),
        Err(exit) => without_value(exit),
    }
}

/// Nouns that are bound finally to the names that are known from number 1 on, in order. The first of them stands last, as the innermost.
#[tactic(auto, using(crate::proofs::Turns::bonds_on, crate::proofs::Turns::bonds_end))]
fn bonds(alloc: Global, nouns: &[Word]) -> Result<Seq<Binding>, Memory>
    ensures { IfOk result (λ bonds. bonds ≡ reverse (bonds_from 1 nouns.now)) }
{
    let mut bonds = Vec::new(alloc);
    for (index, noun) in nouns.iter().enumerate() {
        let root = Value::Prom(PromId(index as u64 + 1));
        bonds.push(Binding {
            noun: noun.share()?,
            bound: Bound::Fixed {
                value: root,
                guard: NO_GUARD,
            },
        })?;
    }
    bonds.reverse();
    Ok(Seq::of(bonds))
}

/// Evaluates a program in an activation, where these nouns are bound.
#[tactic(auto, using(ev_room::proofs::Exits::ends), unfolding(ev_steps::specs::Steps::opened_steps))]
fn evaluated(
    program: &Program,
    act: ActId,
    nouns: Seq<Binding>,
    depth: u32,
    inside: &mut Interior,
) -> Result<Value, Exit>
    ensures outcome { Gives result inside.new (alone (evaluator program.now depth) 0 (record { act = act; nouns = nouns }) inside.old) }
{
    let mut here = Scope {
        act,
        nouns: Nouns::of(nouns),
    };
    let value = evaluate(program, depth, NodeId(0), &mut here, inside)?;
    Ok(value)
}

/// Runs what an opening turn runs, in an activation that has begun: the program is evaluated, where each of these nouns is bound finally
/// to a name that is known, to number 1 and those behind it in order. The inside began with the texts of the
/// problems (`new_interior`), and only turns of this program have made what it holds. The turn's own lines are the caller's to tell.
///
/// What happens is added to what happened in the step at hand, and each node that begins spends a unit of fuel. No node begins below
/// so many levels. After a stop and after want of memory, the inside holds what was done up to there. Texts stand for those of a heap
/// that goes on growing, so that a value stands for one thing over all turns.
pub fn run_program(
    program: &Program,
    act: ActId,
    nouns: &[Word],
    depth: u32,
    inside: &mut Interior,
) -> Result<Ended, Memory>
    requires sound { IsSound inside.old }
    ensures turn { (w : World) (rest : List (List ℕ)) → texts_of w ≡ inside.new.heap.texts ++ rest → inside.old.words.key ≡ w.key
        → Ends w result inside.new (turn_of (machine.evaluated (names w) program.now depth (roots_from 1 nouns.now) act) (vat_of w inside.old)) }
    ensures grown { OnOk result (Grown inside.old.heap inside.new.heap) }
    ensures stays { OnOk result (Stays inside.old inside.new) }
    ensures left { IfOk result (λ ended. LeftBy ended inside.new) }
    ensures there { IfOk result (λ ended. GivesThere inside.new.heap ended) }
{
    let bound = bonds(inside.alloc, nouns)?;
    let outcome = evaluated(program, act, bound, depth, inside);
    ending(outcome)
}

/// Runs what a turn runs that takes a message, in an activation that has begun: the target is what the message's was followed to, and
/// it and the arguments stand in the heap. The rest is as of `run_program`.
pub fn run_message(
    program: &Program,
    act: ActId,
    target: Value,
    verb: &Word,
    args: &[Value],
    depth: u32,
    inside: &mut Interior,
) -> Result<Ended, Memory>
    requires sound { IsSound inside.old }
    requires target { is_there inside.old.heap target ≡ true }
    requires args { are_there inside.old.heap args.now ≡ true }
    ensures turn { (w : World) (rest : List (List ℕ)) → texts_of w ≡ inside.new.heap.texts ++ rest → inside.old.words.key ≡ w.key
        → Ends w result inside.new (turn_of (turn_value (names w) program.now (theirs.evaluator (names w) program.now depth) act (value_of w target) verb.now (values_of w args.now)) (vat_of w inside.old)) }
    ensures grown { OnOk result (Grown inside.old.heap inside.new.heap) }
    ensures stays { OnOk result (Stays inside.old inside.new) }
    ensures left { IfOk result (λ ended. LeftBy ended inside.new) }
    ensures there { IfOk result (λ ended. GivesThere inside.new.heap ended) }
{
    let outcome = take_message(program, depth, act, target, verb, args, inside);
    ending(outcome)
}
