//! The values that a note brings come to be here.

ghost use Rattle.std.specs.Prelude.{◌≡◌, All, true};
ghost use Rattle.std.specs.Bool.{OnTrue};
ghost use Rattle.ev_arrive.specs.Acts.{Gives, within};
ghost use Rattle.ev_arrive.specs.Bringing.{all_parts, part};
ghost use Rattle.ev_arrive.specs.Learning.{are_kept, is_kept, keep_list, learn, learn_each, learn_given, learn_list, learn_new, list_told, make_list, new_list};
ghost use Rattle.ev_heap.specs.Contents.{IsWeighable, is_light};
ghost use Rattle.ev_pass.specs.Acts as pass;

use crate::brought::Brought;
use crate::delivering::learn_gift;
use crate::host::{Host, come};
use ev_base::{ListId, Seq, Value, VatId};
use ev_heap::{Happened, Heap, ListFault};
use ev_pass::{Interior, Stop};

/// The most lists in each other that arrive.
const MOST_HEIGHT: u64 = 100;

/// Whether a heap has the text or the list that a value is.
fn is_kept(heap: &Heap, value: Value) -> bool
    ensures is { result ≡ is_kept heap.now value }
{
    match value {
        Value::Text(id) | Value::Broken(id) => id.0 < heap.text_count(),
        Value::List(id) => id.0 < heap.list_count(),
        _ => true,
    }
}

/// Whether a heap has the texts and lists that values are.
fn each_kept(heap: &Heap, values: &[Value]) -> bool
    ensures { result ≡ are_kept heap.now values.now }
{
    for value in values {
        if !is_kept(heap, *value) {
            return false;
        }
    }
    true
}

/// The same, so that the values may be weighed.
fn are_kept(heap: &Heap, values: &[Value]) -> bool
    ensures is { result ≡ are_kept heap.now values.now }
    ensures weighable { OnTrue result (All (IsWeighable heap.now) values.now) }
{
    each_kept(heap, values)
}

/// Keeps a list of these members, which is within the limits.
#[tactic(auto, unfolding(crate::specs::Learning::keep_list))]
fn add_list(inside: &mut Interior, members: &[Value]) -> Result<ListId, Stop>
    requires there { All (IsWeighable inside.old.heap) members.now }
    requires light { is_light inside.old.heap members.now ≡ true }
    ensures { pass.Gives result inside.new (keep_list members.now inside.old) }
{
    match inside.heap.make_list(members) {
        Ok(list) => Ok(list),
        Err(ListFault::TooHeavy) | Err(ListFault::Memory) => Err(Stop::Memory),
    }
}

/// Keeps a list of these members, if the heap has them and it is within the limits.
#[tactic(auto, using(crate::proofs::Kept::not_there, crate::proofs::Kept::too_heavy, crate::proofs::Kept::light))]
fn new_list(inside: &mut Interior, members: &[Value]) -> Result<ListId, Stop>
    ensures { pass.Gives result inside.new (new_list members.now inside.old) }
{
    if !are_kept(&inside.heap, members) {
        return Err(Stop::Missing);
    }
    if !inside.heap.fits(members) {
        return Err(Stop::Missing);
    }
    add_list(inside, members)
}

/// Tells that a list arrived.
#[tactic(auto, using(ev_pass::proofs::Ends::ends), unfolding(crate::specs::Learning::list_told, ev_pass::specs::Acts::opened_acts))]
fn list_told(inside: &mut Interior, members: Seq<Value>, list: ListId) -> Result<Value, Stop>
    ensures { pass.Gives result inside.new (list_told members list inside.old) }
{
    inside.tell(Happened::Arrived(list, members))?;
    Ok(Value::List(list))
}

/// A list comes in, which is told.
#[tactic(auto, using(ev_pass::proofs::Ends::ends), unfolding(crate::specs::Learning::make_list, ev_pass::specs::Acts::opened_acts))]
fn list_in(inside: &mut Interior, members: Seq<Value>) -> Result<Value, Stop>
    ensures { pass.Gives result inside.new (make_list members inside.old) }
{
    let list = new_list(inside, members.as_slice())?;
    list_told(inside, members, list)
}

/// The same where gifts are hosted.
#[tactic(auto, using(crate::proofs::Within::inside_gives), unfolding(crate::specs::Acts::within))]
fn make_list(host: &mut Host, members: Seq<Value>) -> Result<Value, Stop>
    ensures { Gives result host.new (within (make_list members) host.old) }
{
    list_in(&mut host.inside, members)
}

/// A name of that vat comes to be known.
#[tactic(auto, using(crate::proofs::Ends::ends), unfolding(crate::specs::Learning::learn_new, crate::specs::Acts::opened_acts))]
fn learn_new(host: &mut Host, vat: VatId) -> Result<Value, Stop>
    ensures { Gives result host.new (learn_new vat host.old) }
{
    let name = come(host, vat)?;
    Ok(Value::Prom(name))
}

/// A gift at that vat comes to be known, which the sender provides.
#[tactic(auto, using(crate::proofs::Ends::ends), unfolding(crate::specs::Learning::learn_given, crate::specs::Acts::opened_acts))]
fn learn_given(host: &mut Host, from: VatId, at: VatId, word: u128) -> Result<Value, Stop>
    ensures { Gives result host.new (learn_given from at word host.old) }
{
    let name = learn_gift(host, from, at, word)?;
    Ok(Value::Prom(name))
}

/// A value of a note comes to be here, with at most so many lists in each other.
#[cycle(learning)]
#[tactic(auto, unfolding(crate::specs::Learning::learn, crate::specs::Learning::learn_part, crate::specs::Acts::give))]
fn learn_in(host: &mut Host, depth: u64, from: VatId, brought: &Brought) -> Result<Value, Stop>
    ensures { Gives result host.new (learn depth from (part brought.now) host.old) }
{
    match brought {
        Brought::Plain(value) => Ok(*value),
        Brought::New(vat) => learn_new(host, *vat),
        Brought::Gift(at, word) => learn_given(host, from, *at, *word),
        Brought::List(members) => learn_list(host, depth, from, members.as_slice()),
    }
}

/// A list of a note comes to be here, behind its members.
#[cycle(learning)]
fn learn_list(host: &mut Host, depth: u64, from: VatId, members: &[Brought]) -> Result<Value, Stop>
    ensures { Gives result host.new (learn_list depth from (all_parts members.now) host.old) }
{
    if depth == 0 {
        return Err(Stop::Missing);
    }
    match learn_each(host, depth - 1, from, members) {
        Ok(values) => make_list(host, values),
        Err(stop) => Err(stop),
    }
}

/// Values of a note come to be here, from left to right.
#[cycle(learning)]
fn learn_each(
    host: &mut Host,
    depth: u64,
    from: VatId,
    members: &[Brought],
) -> Result<Seq<Value>, Stop>
    ensures { Gives result host.new (learn_each (learn depth from) (all_parts members.now) host.old) }
{
    let mut values = Seq::new(host.inside.alloc);
    for member in members {
        match learn_in(host, depth, from, member) {
            Ok(value) => values.push(value)?,
            Err(stop) => return Err(stop),
        }
    }
    Ok(values)
}

/// A value of a note from that vat comes to be here, inner parts first, from left to right: names come to be known, gifts of the sender
/// are asked for, and lists are kept. A list that is more than 100 high or above the weight of lists is a stop, and so is one with a text
/// that the heap does not have. After a stop what was done up to there stands.
pub fn learn(host: &mut Host, from: VatId, brought: &Brought) -> Result<Value, Stop>
    ensures { Gives result host.new (learn 100 from (part brought.now) host.old) }
{
    learn_in(host, MOST_HEIGHT, from, brought)
}

/// The same of several values, from left to right.
pub fn learn_all(host: &mut Host, from: VatId, brought: &[Brought]) -> Result<Seq<Value>, Stop>
    ensures { Gives result host.new (learn_each (learn 100 from) (all_parts brought.now) host.old) }
{
    learn_each(host, MOST_HEIGHT, from, brought)
}
