//! Descriptions and operations at the front of the bytes.

ghost use Rattle.std.specs.Prelude.{◌≡◌, ◌≤◌, ◌<◌, None, length, map, string_bytes, IfOk};
ghost use Rattle.def_op.specs.Views.{described, all_described, outcome, operation};
ghost use Rattle.ev_op.specs.Gives.{Gives};
ghost use Rattle.def_op.specs.Reading.{text_at, leaf_at, desc_at, list_at, members_at, member_at, free_at, target_at, subject_at, outcome_at, deliver_at, deliver_only_at, resolve_at, provide_at, accept_at, shorten_at, op_at};

use crate::fault::ReadError;
use crate::kind::{is_list, kind_of};
use crate::limits::{HEIGHT, free_room};
use crate::numbers::{
    character_of, few_of, primitive_of, signed_of, swiss_of, unsigned_of, vat_of,
};
use crate::text::text_of;
use def_op::{Desc, Kind, Op, Plain, Resolved};
use ev_base::{PrimId, Seq, Str, VatId};
use std::alloc::Global;

/// A text of at most so many bytes, in memory of its own.
fn own_text_of(alloc: Global, room: usize, bytes: &[u8]) -> Result<(String, &[u8]), ReadError>
    ensures exact { Gives (λ x. (string_bytes x.0, x.1.now)) result (text_at room bytes.now) }
    ensures within { IfOk result (λ x. length (string_bytes x.0) ≤ room) }
{
    let (text, rest) = text_of(room, bytes)?;
    Ok((String::from_str(alloc, text)?, rest))
}

/// An integer.
#[tactic(auto, unfolding(def_op::specs::Reading::leaf_at))]
fn integer_of(room: usize, bytes: &[u8]) -> Result<(Desc, usize, &[u8]), ReadError>
    ensures { Gives (λ x. record { value = described x.0; room = x.1; rest = x.2.now }) result (leaf_at Kind.Integer room bytes.now) }
{
    let (integer, rest) = signed_of(bytes)?;
    Ok((Desc::Plain(Plain::Int(integer)), room, rest))
}

/// A character.
#[tactic(auto, unfolding(def_op::specs::Reading::leaf_at))]
fn scalar_of(room: usize, bytes: &[u8]) -> Result<(Desc, usize, &[u8]), ReadError>
    ensures { Gives (λ x. record { value = described x.0; room = x.1; rest = x.2.now }) result (leaf_at Kind.Character room bytes.now) }
{
    let (character, rest) = character_of(bytes)?;
    Ok((Desc::Plain(Plain::Char(character)), room, rest))
}

/// A text. It weighs as much as it has bytes.
#[tactic(auto, unfolding(def_op::specs::Reading::leaf_at))]
fn plain_text_of(
    alloc: Global,
    room: usize,
    bytes: &[u8],
) -> Result<(Desc, usize, &[u8]), ReadError>
    ensures { Gives (λ x. record { value = described x.0; room = x.1; rest = x.2.now }) result (leaf_at Kind.Text room bytes.now) }
{
    let (text, rest) = own_text_of(alloc, room, bytes)?;
    let left = room - text.len();
    Ok((Desc::Plain(Plain::Text(Str::of(text))), left, rest))
}

/// A primitive object.
#[tactic(auto, unfolding(def_op::specs::Reading::leaf_at))]
fn plain_primitive_of(room: usize, bytes: &[u8]) -> Result<(Desc, usize, &[u8]), ReadError>
    ensures { Gives (λ x. record { value = described x.0; room = x.1; rest = x.2.now }) result (leaf_at Kind.Primitive room bytes.now) }
{
    let (primitive, rest) = primitive_of(bytes)?;
    Ok((Desc::Plain(Plain::Prim(PrimId(primitive))), room, rest))
}

/// A broken reference. It weighs as much as its problem has bytes.
#[tactic(auto, unfolding(def_op::specs::Reading::leaf_at))]
fn broken_of(alloc: Global, room: usize, bytes: &[u8]) -> Result<(Desc, usize, &[u8]), ReadError>
    ensures { Gives (λ x. record { value = described x.0; room = x.1; rest = x.2.now }) result (leaf_at Kind.Broken room bytes.now) }
{
    let (problem, rest) = own_text_of(alloc, room, bytes)?;
    let left = room - problem.len();
    Ok((Desc::Broken(Str::of(problem)), left, rest))
}

/// An export of the receiver.
#[tactic(auto, unfolding(def_op::specs::Reading::leaf_at))]
fn your_export_of(room: usize, bytes: &[u8]) -> Result<(Desc, usize, &[u8]), ReadError>
    ensures { Gives (λ x. record { value = described x.0; room = x.1; rest = x.2.now }) result (leaf_at Kind.YourExport room bytes.now) }
{
    let (position, rest) = unsigned_of(bytes)?;
    Ok((Desc::YourExport(position), room, rest))
}

/// An answer of the receiver.
#[tactic(auto, unfolding(def_op::specs::Reading::leaf_at))]
fn your_answer_of(room: usize, bytes: &[u8]) -> Result<(Desc, usize, &[u8]), ReadError>
    ensures { Gives (λ x. record { value = described x.0; room = x.1; rest = x.2.now }) result (leaf_at Kind.YourAnswer room bytes.now) }
{
    let (question, rest) = unsigned_of(bytes)?;
    Ok((Desc::YourAnswer(question), room, rest))
}

/// An export of the sender.
#[tactic(auto, unfolding(def_op::specs::Reading::leaf_at))]
fn my_export_of(room: usize, bytes: &[u8]) -> Result<(Desc, usize, &[u8]), ReadError>
    ensures { Gives (λ x. record { value = described x.0; room = x.1; rest = x.2.now }) result (leaf_at Kind.MyExport room bytes.now) }
{
    let (position, rest) = unsigned_of(bytes)?;
    Ok((Desc::MyExport(position), room, rest))
}

/// A promise of the sender.
#[tactic(auto, unfolding(def_op::specs::Reading::leaf_at))]
fn my_promise_of(room: usize, bytes: &[u8]) -> Result<(Desc, usize, &[u8]), ReadError>
    ensures { Gives (λ x. record { value = described x.0; room = x.1; rest = x.2.now }) result (leaf_at Kind.MyPromise room bytes.now) }
{
    let (position, rest) = unsigned_of(bytes)?;
    Ok((Desc::MyPromise(position), room, rest))
}

/// An object of a third vat.
#[tactic(auto, unfolding(def_op::specs::Reading::leaf_at))]
fn third_of(room: usize, bytes: &[u8]) -> Result<(Desc, usize, &[u8]), ReadError>
    ensures { Gives (λ x. record { value = described x.0; room = x.1; rest = x.2.now }) result (leaf_at Kind.Third room bytes.now) }
{
    let (host, rest) = vat_of(bytes)?;
    let (swiss, rest) = swiss_of(rest)?;
    let host = VatId(host);
    Ok((Desc::Third { host, swiss }, room, rest))
}

/// An answer of the sender.
#[tactic(auto, unfolding(def_op::specs::Reading::leaf_at))]
fn my_answer_of(room: usize, bytes: &[u8]) -> Result<(Desc, usize, &[u8]), ReadError>
    ensures { Gives (λ x. record { value = described x.0; room = x.1; rest = x.2.now }) result (leaf_at Kind.MyAnswer room bytes.now) }
{
    let (question, rest) = unsigned_of(bytes)?;
    Ok((Desc::MyAnswer(question), room, rest))
}

/// What is no list, behind its first byte.
#[tactic(auto, unfolding(def_op::specs::Reading::leaf_at))]
fn leaf_of(
    alloc: Global,
    kind: Kind,
    room: usize,
    bytes: &[u8],
) -> Result<(Desc, usize, &[u8]), ReadError>
    ensures { Gives (λ x. record { value = described x.0; room = x.1; rest = x.2.now }) result (leaf_at kind room bytes.now) }
{
    match kind {
        Kind::Null => Ok((Desc::Plain(Plain::Null), room, bytes)),
        Kind::False => Ok((Desc::Plain(Plain::Bool(false)), room, bytes)),
        Kind::True => Ok((Desc::Plain(Plain::Bool(true)), room, bytes)),
        Kind::Integer => integer_of(room, bytes),
        Kind::Character => scalar_of(room, bytes),
        Kind::Text => plain_text_of(alloc, room, bytes),
        Kind::List => Err(ReadError::Refused),
        Kind::Primitive => plain_primitive_of(room, bytes),
        Kind::Broken => broken_of(alloc, room, bytes),
        Kind::YourExport => your_export_of(room, bytes),
        Kind::YourAnswer => your_answer_of(room, bytes),
        Kind::MyExport => my_export_of(room, bytes),
        Kind::MyPromise => my_promise_of(room, bytes),
        Kind::Third => third_of(room, bytes),
        Kind::MyAnswer => my_answer_of(room, bytes),
    }
}

/// A description in which at most `height` lists stand in each other. The lists round it have room for so much weight;
/// what is left of it stands beside the description.
#[cycle(descriptions)]
#[tactic(auto, unfolding(def_op::specs::Reading::desc_at, def_op::specs::Reading::first_at))]
fn desc_of(
    alloc: Global,
    height: u32,
    room: usize,
    bytes: &[u8],
) -> Result<(Desc, usize, &[u8]), ReadError>
    ensures { Gives (λ x. record { value = described x.0; room = x.1; rest = x.2.now }) result (desc_at height room bytes.now) }
{
    if room == 0 {
        return Err(ReadError::Refused);
    }
    let (kind, rest) = kind_of(bytes)?;
    if !is_list(kind) {
        return leaf_of(alloc, kind, room - 1, rest);
    }
    if height == 0 {
        return Err(ReadError::Refused);
    }
    list_of(alloc, height - 1, room - 1, rest)
}

/// A list behind its first byte.
#[cycle(descriptions)]
#[tactic(auto, unfolding(def_op::specs::Reading::list_at))]
fn list_of(
    alloc: Global,
    height: u32,
    room: usize,
    bytes: &[u8],
) -> Result<(Desc, usize, &[u8]), ReadError>
    ensures { Gives (λ x. record { value = described x.0; room = x.1; rest = x.2.now }) result (list_at (desc_at height) room bytes.now) }
{
    let (count, rest) = unsigned_of(bytes)?;
    let (members, room, rest) = members_of(alloc, Some(height), count, room, rest)?;
    Ok((Desc::ListOf(members), room, rest))
}

/// So many descriptions, in a list or as arguments.
#[cycle(descriptions)]
fn members_of(
    alloc: Global,
    inside: Option<u32>,
    count: u64,
    room: usize,
    bytes: &[u8],
) -> Result<(Vec<Desc>, usize, &[u8]), ReadError>
    ensures { Gives (λ x. record { value = all_described x.0.items; room = x.1; rest = x.2.now }) result (members_at (member_at inside) count room bytes.now) }
{
    let mut members = Vec::new(alloc);
    let mut left = room;
    let mut rest = bytes;
    for _ in 0..count {
        let (member, room, after) = member_of(alloc, inside, left, rest)?;
        members.push(member)?;
        left = room;
        rest = after;
    }
    Ok((members, left, rest))
}

/// A member of a list in which at most so many lists stand in each other, or an argument.
#[cycle(descriptions)]
fn member_of(
    alloc: Global,
    inside: Option<u32>,
    room: usize,
    bytes: &[u8],
) -> Result<(Desc, usize, &[u8]), ReadError>
    ensures { Gives (λ x. record { value = described x.0; room = x.1; rest = x.2.now }) result (member_at inside room bytes.now) }
{
    match inside {
        None => free_of(alloc, room, bytes),
        Some(height) => desc_of(alloc, height, room, bytes),
    }
}

/// A description round which no list stands.
#[cycle(descriptions)]
#[tactic(auto, unfolding(def_op::specs::Reading::free_at))]
fn free_of(alloc: Global, room: usize, bytes: &[u8]) -> Result<(Desc, usize, &[u8]), ReadError>
    ensures { Gives (λ x. record { value = described x.0; room = x.1; rest = x.2.now }) result (free_at room bytes.now) }
{
    let (desc, _, rest) = desc_of(alloc, HEIGHT, free_room(bytes), bytes)?;
    Ok((desc, room, rest))
}

/// What an operation is about: an object or promise of the receiver.
#[tactic(auto, unfolding(def_op::specs::Reading::target_at, def_op::specs::Reading::target_behind))]
fn target_of(bytes: &[u8]) -> Result<(Desc, &[u8]), ReadError>
    ensures { Gives (λ x. (described x.0, x.1.now)) result (target_at bytes.now) }
{
    let (kind, rest) = kind_of(bytes)?;
    match kind {
        Kind::YourExport => {
            let (position, rest) = unsigned_of(rest)?;
            Ok((Desc::YourExport(position), rest))
        }
        Kind::YourAnswer => {
            let (question, rest) = unsigned_of(rest)?;
            Ok((Desc::YourAnswer(question), rest))
        }
        _ => Err(ReadError::Refused),
    }
}

/// What an operation tells of: a promise of the sender.
#[tactic(auto, unfolding(def_op::specs::Reading::subject_at, def_op::specs::Reading::subject_behind))]
fn subject_of(bytes: &[u8]) -> Result<(Desc, &[u8]), ReadError>
    ensures { Gives (λ x. (described x.0, x.1.now)) result (subject_at bytes.now) }
{
    let (kind, rest) = kind_of(bytes)?;
    match kind {
        Kind::MyPromise => {
            let (position, rest) = unsigned_of(rest)?;
            Ok((Desc::MyPromise(position), rest))
        }
        Kind::MyAnswer => {
            let (question, rest) = unsigned_of(rest)?;
            Ok((Desc::MyAnswer(question), rest))
        }
        _ => Err(ReadError::Refused),
    }
}

/// What a subject came to.
#[tactic(auto, unfolding(def_op::specs::Reading::outcome_at))]
fn outcome_of(alloc: Global, bytes: &[u8]) -> Result<(Resolved, &[u8]), ReadError>
    ensures { Gives (λ x. (outcome x.0, x.1.now)) result (outcome_at bytes.now) }
{
    let Some((first, rest)) = bytes.split_first() else {
        return Err(ReadError::Refused);
    };
    if *first == 15 {
        let (host, rest) = vat_of(rest)?;
        return Ok((Resolved::Elsewhere(VatId(host)), rest));
    }
    let (desc, _, rest) = free_of(alloc, 0, bytes)?;
    Ok((Resolved::To(desc), rest))
}

#[tactic(auto, unfolding(def_op::specs::Reading::deliver_at))]
fn deliver_of(alloc: Global, bytes: &[u8]) -> Result<(Op, &[u8]), ReadError>
    ensures { Gives (λ x. (operation x.0, x.1.now)) result (deliver_at bytes.now) }
{
    let (question, rest) = unsigned_of(bytes)?;
    let (target, rest) = target_of(rest)?;
    let (verb, rest) = own_text_of(alloc, rest.len(), rest)?;
    let (count, rest) = few_of(rest)?;
    let (args, _, rest) = members_of(alloc, None, count, 0, rest)?;
    let op = Op::Deliver {
        question,
        target,
        verb: Str::of(verb),
        args: Seq::of(args),
    };
    Ok((op, rest))
}

#[tactic(auto, unfolding(def_op::specs::Reading::deliver_only_at))]
fn deliver_only_of(alloc: Global, bytes: &[u8]) -> Result<(Op, &[u8]), ReadError>
    ensures { Gives (λ x. (operation x.0, x.1.now)) result (deliver_only_at bytes.now) }
{
    let (target, rest) = target_of(bytes)?;
    let (verb, rest) = own_text_of(alloc, rest.len(), rest)?;
    let (count, rest) = few_of(rest)?;
    let (args, _, rest) = members_of(alloc, None, count, 0, rest)?;
    let op = Op::DeliverOnly {
        target,
        verb: Str::of(verb),
        args: Seq::of(args),
    };
    Ok((op, rest))
}

#[tactic(auto, unfolding(def_op::specs::Reading::resolve_at))]
fn resolve_of(alloc: Global, bytes: &[u8]) -> Result<(Op, &[u8]), ReadError>
    ensures { Gives (λ x. (operation x.0, x.1.now)) result (resolve_at bytes.now) }
{
    let (subject, rest) = subject_of(bytes)?;
    let (to, rest) = outcome_of(alloc, rest)?;
    Ok((Op::Resolve { subject, to }, rest))
}

#[tactic(auto, unfolding(def_op::specs::Reading::provide_at))]
fn provide_of(bytes: &[u8]) -> Result<(Op, &[u8]), ReadError>
    ensures { Gives (λ x. (operation x.0, x.1.now)) result (provide_at bytes.now) }
{
    let (target, rest) = target_of(bytes)?;
    let (swiss, rest) = swiss_of(rest)?;
    Ok((Op::Provide { target, swiss }, rest))
}

#[tactic(auto, unfolding(def_op::specs::Reading::accept_at))]
fn accept_of(bytes: &[u8]) -> Result<(Op, &[u8]), ReadError>
    ensures { Gives (λ x. (operation x.0, x.1.now)) result (accept_at bytes.now) }
{
    let (question, rest) = unsigned_of(bytes)?;
    let (provider, rest) = vat_of(rest)?;
    let (swiss, rest) = swiss_of(rest)?;
    let provider = VatId(provider);
    Ok((
        Op::Accept {
            question,
            provider,
            swiss,
        },
        rest,
    ))
}

#[tactic(auto, unfolding(def_op::specs::Reading::shorten_at))]
fn shorten_of(bytes: &[u8]) -> Result<(Op, &[u8]), ReadError>
    ensures { Gives (λ x. (operation x.0, x.1.now)) result (shorten_at bytes.now) }
{
    let (subject, rest) = target_of(bytes)?;
    let (swiss, rest) = swiss_of(rest)?;
    Ok((Op::Shorten { subject, swiss }, rest))
}

/// The operation at the front of the bytes.
#[tactic(auto, unfolding(def_op::specs::Reading::op_at))]
pub(crate) fn op_of(alloc: Global, bytes: &[u8]) -> Result<(Op, &[u8]), ReadError>
    ensures { Gives (λ x. (operation x.0, x.1.now)) result (op_at bytes.now) }
{
    let Some((code, rest)) = bytes.split_first() else {
        return Err(ReadError::Refused);
    };
    match *code {
        1 => deliver_of(alloc, rest),
        2 => resolve_of(alloc, rest),
        3 => provide_of(rest),
        4 => accept_of(rest),
        5 => shorten_of(rest),
        6 => deliver_only_of(alloc, rest),
        _ => Err(ReadError::Refused),
    }
}
