//! Whether an operation has a spelling. Only such a one is found again in its bytes by the vat that hears it.

ghost use Rattle.std.specs.Prelude.{◌≡◌, ◌<◌, ◌≤◌, ◌+◌, ◌^◌, ◌↔◌, IsTrue, length};
ghost use Rattle.def_op.specs.Frames.{AreDescs, IsDesc, IsOp, IsSubject, IsTarget, IsText, MembersFit, OutcomeFits, PlainFits, count, heights, weights};
ghost use Rattle.def_op.specs.Numbers.{is_primitive};
ghost use Rattle.def_op.specs.declared.op.Plain.TheVariants.{Int, Char};
ghost use Rattle.def_op.specs.Views.{all_described, described, operation, outcome};
ghost use Rattle.ev_vat.specs.Fitting.{Beside, MessageFits, OwnFits, Within, own_weight};

use def_op::{Desc, Op, Plain, Resolved};
use ev_base::{PrimId, Str, VatId};
use ev_op::limits::{HEIGHT, WEIGHT};

/// How many vats a run has at most.
const VATS: u8 = 16;

/// How many arguments a message has at most.
const ARGUMENTS: usize = 255;

fn vat_fits(vat: VatId) -> bool
    ensures { IsTrue result ↔ (vat < 16) }
{
    vat.0 < VATS
}

fn primitive_fits(primitive: PrimId) -> bool
    ensures { result ≡ is_primitive primitive }
{
    let number = primitive.0;
    number < 20 || (number >= 40 && number < 47) || number == 48 || number == 49
}

/// Each number of 64 bits has a spelling.
fn number_fits(number: u64) -> bool
    ensures { IsTrue result ↔ (number < 2 ^ 64) }
{
    let _number = number;
    true
}

/// Each swiss number has one.
fn swiss_fits(swiss: u128) -> bool
    ensures { IsTrue result ↔ (swiss < 2 ^ 128) }
{
    let _swiss = swiss;
    true
}

/// Each text has one.
fn text_fits(text: &Str) -> bool
    ensures { IsTrue result ↔ IsText text.now }
{
    let _text = text.as_str();
    true
}

/// Each number with a sign has one.
#[tactic(auto, unfolding(def_op::specs::Frames::PlainFits))]
fn integer_fits(integer: i128) -> bool
    ensures { IsTrue result ↔ PlainFits (Int integer) }
{
    let _integer = integer;
    true
}

/// Each character has one.
#[tactic(auto, unfolding(def_op::specs::Frames::PlainFits))]
fn character_fits(character: char) -> bool
    ensures { IsTrue result ↔ PlainFits (Char character) }
{
    let _character = character;
    true
}

#[tactic(auto, unfolding(def_op::specs::Frames::PlainFits))]
fn plain_fits(plain: &Plain) -> bool
    ensures { IsTrue result ↔ PlainFits plain.now }
{
    match plain {
        Plain::Null | Plain::Bool(_) => true,
        Plain::Int(integer) => integer_fits(*integer),
        Plain::Char(character) => character_fits(*character),
        Plain::Text(text) => text_fits(text),
        Plain::Prim(primitive) => primitive_fits(*primitive),
    }
}

/// Whether a description has one, but for the members of a list.
#[tactic(auto, unfolding(def_op::specs::Frames::DescFits, crate::specs::Fitting::OwnFits))]
fn own_fits(desc: &Desc) -> bool
    ensures { IsTrue result ↔ OwnFits (described desc.now) }
{
    match desc {
        Desc::Plain(plain) => plain_fits(plain),
        Desc::ListOf(_) => true,
        Desc::Broken(problem) => text_fits(problem),
        Desc::Third { host, swiss } => vat_fits(*host) && swiss_fits(*swiss),
        Desc::YourExport(number)
        | Desc::YourAnswer(number)
        | Desc::MyExport(number)
        | Desc::MyPromise(number)
        | Desc::MyAnswer(number) => number_fits(*number),
    }
}

/// A text weighs 1 and its bytes.
fn text_weight(text: &Str) -> usize
    ensures { result ≡ 1 + length text.now }
{
    1 + text.as_str().len()
}

/// What a description weighs without the members of a list.
#[tactic(auto, unfolding(def_op::specs::Frames::weight, crate::specs::Fitting::own_weight))]
fn own_weight(desc: &Desc) -> usize
    ensures { result ≡ own_weight (described desc.now) }
{
    match desc {
        Desc::Plain(Plain::Text(text)) => text_weight(text),
        Desc::Broken(problem) => text_weight(problem),
        _ => 1,
    }
}

/// What of a room for so much weight is left beside a description of at most this height. There is none where it has no spelling there.
/// It goes no deeper than the height, and not on once the room is used up.
#[cycle(fitting)]
fn room_beside(height: u32, room: usize, desc: &Desc) -> Option<usize>
    ensures { Beside height room (described desc.now) result }
{
    if !own_fits(desc) {
        return None;
    }
    let left = room.checked_sub(own_weight(desc))?;
    match desc {
        Desc::ListOf(members) => room_inside(height, left, members.as_slice()),
        _ => Some(left),
    }
}

/// The same beside the members of a list of at most this height.
#[cycle(fitting)]
fn room_inside(height: u32, room: usize, members: &[Desc]) -> Option<usize>
    ensures { Within (MembersFit (all_described members.now) × (heights (all_described members.now) < height)) (weights (all_described members.now)) room result }
{
    if height == 0 {
        return None;
    }
    let mut left = room;
    for member in members {
        left = room_beside(height - 1, left, member)?;
    }
    Some(left)
}

/// Whether a description round which no list stands has one.
fn is_desc(desc: &Desc) -> bool
    ensures { IsTrue result ↔ IsDesc (described desc.now) }
{
    match desc {
        Desc::ListOf(_) => room_beside(HEIGHT, WEIGHT, desc).is_some(),
        _ => own_fits(desc),
    }
}

fn are_descs(descs: &[Desc]) -> bool
    ensures { IsTrue result ↔ AreDescs (all_described descs.now) }
{
    for desc in descs {
        if !is_desc(desc) {
            return false;
        }
    }
    true
}

/// Whether it is an object or promise of the receiver.
#[tactic(auto, unfolding(def_op::specs::Frames::IsTarget))]
fn is_target(desc: &Desc) -> bool
    ensures { IsTrue result ↔ IsTarget (described desc.now) }
{
    match desc {
        Desc::YourExport(number) | Desc::YourAnswer(number) => number_fits(*number),
        _ => false,
    }
}

/// Whether it is a promise of the sender.
#[tactic(auto, unfolding(def_op::specs::Frames::IsSubject))]
fn is_subject(desc: &Desc) -> bool
    ensures { IsTrue result ↔ IsSubject (described desc.now) }
{
    match desc {
        Desc::MyPromise(number) | Desc::MyAnswer(number) => number_fits(*number),
        _ => false,
    }
}

#[tactic(auto, unfolding(def_op::specs::Frames::OutcomeFits))]
fn outcome_fits(to: &Resolved) -> bool
    ensures { IsTrue result ↔ OutcomeFits (outcome to.now) }
{
    match to {
        Resolved::To(desc) => is_desc(desc),
        Resolved::Elsewhere(host) => vat_fits(*host),
    }
}

/// Whether there are at most so many arguments as a message has.
#[tactic(auto, using(ev_op::proofs::InOrder::count_members))]
fn are_few(args: &[Desc]) -> bool
    ensures { IsTrue result ↔ (count (all_described args.now) ≤ 255) }
{
    args.len() <= ARGUMENTS
}

fn message_fits(target: &Desc, verb: &Str, args: &[Desc]) -> bool
    ensures { IsTrue result ↔ MessageFits (described target.now) verb.now (all_described args.now) }
{
    is_target(target) && text_fits(verb) && are_few(args) && are_descs(args)
}

/// Whether an operation has a spelling.
#[tactic(auto, unfolding(def_op::specs::Frames::IsOp))]
pub(crate) fn has_spelling(op: &Op) -> bool
    ensures { IsTrue result ↔ IsOp (operation op.now) }
{
    match op {
        Op::Deliver {
            question,
            target,
            verb,
            args,
        } => number_fits(*question) && message_fits(target, verb, args.as_slice()),
        Op::Resolve { subject, to } => is_subject(subject) && outcome_fits(to),
        Op::Provide { target, swiss } => is_target(target) && swiss_fits(*swiss),
        Op::Accept {
            question,
            provider,
            swiss,
        } => number_fits(*question) && vat_fits(*provider) && swiss_fits(*swiss),
        Op::Shorten { subject, swiss } => is_target(subject) && swiss_fits(*swiss),
        Op::DeliverOnly { target, verb, args } => message_fits(target, verb, args.as_slice()),
    }
}
