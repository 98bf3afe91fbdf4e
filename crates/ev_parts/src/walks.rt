//! Descriptions and operations, item by item.

ghost use Rattle.std.specs.Prelude.{◌≡◌, ◌≢◌, ◌≤◌, ◌↔◌, ◌++◌, ℕ, List, [], length, Some, None, IfOk};
ghost use Rattle.def_op.specs.Frames.{Operation, IsOp, spelling};
ghost use Rattle.ev_parts.specs.Walks.{Walks};
ghost use Rattle.def_op.specs.Items.{walk_leaf, walk_list, walk_members, walk_desc, walk_free, walk_member, walk_named, is_target, is_subject, walk_swiss, walk_vat, walk_outcome, walk_message, walk_deliver, walk_resolve, walk_provide, walk_accept, walk_op, items_of};
ghost use Rattle.ev_parts.specs.Whole.{IsWhole, AreInOrder, place_of};

use crate::walking::{
    WalkError, note, walk_character, walk_code, walk_few, walk_integer, walk_number, walk_opening,
    walk_primitive, walk_subject, walk_swiss, walk_target, walk_text, walk_vat,
};
use def_op::{Kind, Part, Parts, Spot};
use ev_base::{Memory, Seq};
use ev_op::kind::is_list;
use ev_op::limits::{HEIGHT, free_room};
use std::alloc::Global;

/// What stands behind the first byte of a description that is no list.
#[tactic(auto, unfolding(def_op::specs::Items::walk_leaf))]
fn leaf<'a>(
    total: usize,
    kind: Kind,
    room: usize,
    bytes: &'a [u8],
    spots: &mut Vec<Spot>,
) -> Result<(usize, &'a [u8]), WalkError>
    ensures { Walks (λ x. record { room = x.0; rest = x.1.now }) result spots.new.items (walk_leaf total kind room spots.old.items bytes.now) }
{
    match kind {
        Kind::Null | Kind::False | Kind::True | Kind::List => Ok((room, bytes)),
        Kind::Integer => {
            let (_, rest) = walk_integer(total, bytes, spots)?;
            Ok((room, rest))
        }
        Kind::Character => {
            let (_, rest) = walk_character(total, bytes, spots)?;
            Ok((room, rest))
        }
        Kind::Text | Kind::Broken => {
            let (len, rest) = walk_text(total, room, bytes, spots)?;
            Ok((room.saturating_sub(len), rest))
        }
        Kind::Primitive => {
            let (_, rest) = walk_primitive(total, bytes, spots)?;
            Ok((room, rest))
        }
        Kind::Third => {
            let (_, rest) = walk_vat(total, bytes, spots)?;
            let (_, rest) = walk_swiss(total, rest, spots)?;
            Ok((room, rest))
        }
        Kind::YourExport | Kind::YourAnswer | Kind::MyExport | Kind::MyPromise | Kind::MyAnswer => {
            let (_, rest) = walk_number(total, bytes, spots)?;
            Ok((room, rest))
        }
    }
}

/// A description in which at most `height` lists stand in each other.
#[cycle(walks)]
#[tactic(auto, unfolding(def_op::specs::Items::walk_desc, def_op::specs::Items::walk_first))]
fn desc<'a>(
    total: usize,
    height: u32,
    room: usize,
    bytes: &'a [u8],
    spots: &mut Vec<Spot>,
) -> Result<(usize, &'a [u8]), WalkError>
    ensures { Walks (λ x. record { room = x.0; rest = x.1.now }) result spots.new.items (walk_desc total height room spots.old.items bytes.now) }
{
    let (kind, rest) = walk_opening(total, height, room, bytes, spots)?;
    let room = room.saturating_sub(1);
    if !is_list(kind) {
        let (left, rest) = leaf(total, kind, room, rest, spots)?;
        return Ok((left, rest));
    }
    if height == 0 {
        return Ok((room, rest));
    }
    list(total, height - 1, room, rest, spots)
}

/// A list behind its first byte.
#[cycle(walks)]
#[tactic(auto, unfolding(def_op::specs::Items::walk_list))]
fn list<'a>(
    total: usize,
    height: u32,
    room: usize,
    bytes: &'a [u8],
    spots: &mut Vec<Spot>,
) -> Result<(usize, &'a [u8]), WalkError>
    ensures { Walks (λ x. record { room = x.0; rest = x.1.now }) result spots.new.items (walk_list total (walk_desc total height) room spots.old.items bytes.now) }
{
    let (count, rest) = walk_number(total, bytes, spots)?;
    members(total, Some(height), count, room, rest, spots)
}

/// So many descriptions, in a list or as arguments.
#[cycle(walks)]
fn members<'a>(
    total: usize,
    inside: Option<u32>,
    count: u64,
    room: usize,
    bytes: &'a [u8],
    spots: &mut Vec<Spot>,
) -> Result<(usize, &'a [u8]), WalkError>
    ensures { Walks (λ x. record { room = x.0; rest = x.1.now }) result spots.new.items (walk_members (walk_member total inside) count room spots.old.items bytes.now) }
{
    let mut left = room;
    let mut rest = bytes;
    for _ in 0..count {
        let (room, after) = member(total, inside, left, rest, spots)?;
        left = room;
        rest = after;
    }
    Ok((left, rest))
}

#[cycle(walks)]
fn member<'a>(
    total: usize,
    inside: Option<u32>,
    room: usize,
    bytes: &'a [u8],
    spots: &mut Vec<Spot>,
) -> Result<(usize, &'a [u8]), WalkError>
    ensures { Walks (λ x. record { room = x.0; rest = x.1.now }) result spots.new.items (walk_member total inside room spots.old.items bytes.now) }
{
    match inside {
        None => free(total, room, bytes, spots),
        Some(height) => desc(total, height, room, bytes, spots),
    }
}

/// A description round which no list stands.
#[cycle(walks)]
#[tactic(auto, unfolding(def_op::specs::Items::walk_free))]
fn free<'a>(
    total: usize,
    room: usize,
    bytes: &'a [u8],
    spots: &mut Vec<Spot>,
) -> Result<(usize, &'a [u8]), WalkError>
    ensures { Walks (λ x. record { room = x.0; rest = x.1.now }) result spots.new.items (walk_free total room spots.old.items bytes.now) }
{
    let (_, rest) = desc(total, HEIGHT, free_room(bytes), bytes, spots)?;
    Ok((room, rest))
}

#[tactic(auto, unfolding(def_op::specs::Items::walk_named))]
fn target<'a>(total: usize, bytes: &'a [u8], spots: &mut Vec<Spot>) -> Result<&'a [u8], WalkError>
    ensures { Walks (λ x. x.now) result spots.new.items (walk_named is_target total spots.old.items bytes.now) }
{
    let (_, rest) = walk_target(total, bytes, spots)?;
    let (_, rest) = walk_number(total, rest, spots)?;
    Ok(rest)
}

#[tactic(auto, unfolding(def_op::specs::Items::walk_named))]
fn subject<'a>(total: usize, bytes: &'a [u8], spots: &mut Vec<Spot>) -> Result<&'a [u8], WalkError>
    ensures { Walks (λ x. x.now) result spots.new.items (walk_named is_subject total spots.old.items bytes.now) }
{
    let (_, rest) = walk_subject(total, bytes, spots)?;
    let (_, rest) = walk_number(total, rest, spots)?;
    Ok(rest)
}

fn swiss<'a>(total: usize, bytes: &'a [u8], spots: &mut Vec<Spot>) -> Result<&'a [u8], WalkError>
    ensures { Walks (λ x. x.now) result spots.new.items (walk_swiss total spots.old.items bytes.now) }
{
    let (_, rest) = walk_swiss(total, bytes, spots)?;
    Ok(rest)
}

fn vat<'a>(total: usize, bytes: &'a [u8], spots: &mut Vec<Spot>) -> Result<&'a [u8], WalkError>
    ensures { Walks (λ x. x.now) result spots.new.items (walk_vat total spots.old.items bytes.now) }
{
    let (_, rest) = walk_vat(total, bytes, spots)?;
    Ok(rest)
}

/// What a subject came to.
#[tactic(auto, unfolding(def_op::specs::Items::walk_outcome))]
fn outcome<'a>(total: usize, bytes: &'a [u8], spots: &mut Vec<Spot>) -> Result<&'a [u8], WalkError>
    ensures { Walks (λ x. x.now) result spots.new.items (walk_outcome total spots.old.items bytes.now) }
{
    if let Some((first, rest)) = bytes.split_first() {
        if *first == 15 {
            note(total, bytes, spots, Part::Code(15))?;
            return vat(total, rest, spots);
        }
    }
    let (_, rest) = free(total, 0, bytes, spots)?;
    Ok(rest)
}

#[tactic(auto, unfolding(def_op::specs::Items::walk_message))]
fn message<'a>(total: usize, bytes: &'a [u8], spots: &mut Vec<Spot>) -> Result<&'a [u8], WalkError>
    ensures { Walks (λ x. x.now) result spots.new.items (walk_message total spots.old.items bytes.now) }
{
    let rest = target(total, bytes, spots)?;
    let (_, rest) = walk_text(total, rest.len(), rest, spots)?;
    let (count, rest) = walk_few(total, rest, spots)?;
    let (_, rest) = members(total, None, count, 0, rest, spots)?;
    Ok(rest)
}

#[tactic(auto, unfolding(def_op::specs::Items::walk_deliver))]
fn deliver<'a>(total: usize, bytes: &'a [u8], spots: &mut Vec<Spot>) -> Result<&'a [u8], WalkError>
    ensures { Walks (λ x. x.now) result spots.new.items (walk_deliver total spots.old.items bytes.now) }
{
    let (_, rest) = walk_number(total, bytes, spots)?;
    message(total, rest, spots)
}

#[tactic(auto, unfolding(def_op::specs::Items::walk_resolve))]
fn resolve<'a>(total: usize, bytes: &'a [u8], spots: &mut Vec<Spot>) -> Result<&'a [u8], WalkError>
    ensures { Walks (λ x. x.now) result spots.new.items (walk_resolve total spots.old.items bytes.now) }
{
    let rest = subject(total, bytes, spots)?;
    outcome(total, rest, spots)
}

#[tactic(auto, unfolding(def_op::specs::Items::walk_provide))]
fn provide<'a>(total: usize, bytes: &'a [u8], spots: &mut Vec<Spot>) -> Result<&'a [u8], WalkError>
    ensures { Walks (λ x. x.now) result spots.new.items (walk_provide total spots.old.items bytes.now) }
{
    let rest = target(total, bytes, spots)?;
    swiss(total, rest, spots)
}

#[tactic(auto, unfolding(def_op::specs::Items::walk_accept))]
fn accept<'a>(total: usize, bytes: &'a [u8], spots: &mut Vec<Spot>) -> Result<&'a [u8], WalkError>
    ensures { Walks (λ x. x.now) result spots.new.items (walk_accept total spots.old.items bytes.now) }
{
    let (_, rest) = walk_number(total, bytes, spots)?;
    let rest = vat(total, rest, spots)?;
    swiss(total, rest, spots)
}

/// The operation at the front of the bytes.
#[tactic(auto, unfolding(def_op::specs::Items::walk_op))]
fn operation<'a>(
    total: usize,
    bytes: &'a [u8],
    spots: &mut Vec<Spot>,
) -> Result<&'a [u8], WalkError>
    ensures { Walks (λ x. x.now) result spots.new.items (walk_op total spots.old.items bytes.now) }
{
    let (code, rest) = walk_code(total, bytes, spots)?;
    match code {
        1 => deliver(total, rest, spots),
        2 => resolve(total, rest, spots),
        4 => accept(total, rest, spots),
        6 => message(total, rest, spots),
        _ => provide(total, rest, spots),
    }
}

/// The items of the bytes that are allowed, from left to right, and the offset of the first that is not: the end cuts
/// it short, its kind is not allowed there, it passes the limits of a list round it, or the operation is over before it.
/// It takes no more time and memory than the bytes ask for, whatever counts stand in them.
pub fn parts(alloc: Global, bytes: &[u8]) -> Result<Parts, Memory>
    ensures items { IfOk result (λ parts. parts ≡ items_of bytes.now) }
    // There is no stop exactly where the bytes are the whole spelling of an operation.
    ensures whole { IfOk result (λ parts. (parts.stop ≡ None) ↔ IsWhole bytes.now) }
    // Where an operation begins the bytes and others follow it, the stop is behind it.
    ensures behind { (op : Operation) (rest : List ℕ) → IsOp op → bytes.now ≡ spelling op ++ rest → rest ≢ []
        → IfOk result (λ parts. parts.stop ≡ Some (length (spelling op))) }
    // The offsets of the items go up, and lie before the stop, or before the end where there is none.
    ensures order { IfOk result (λ parts. AreInOrder parts.spots (place_of parts (length bytes.now)) × (place_of parts (length bytes.now) ≤ length bytes.now)) }
{
    items(alloc, bytes)
}

fn items(alloc: Global, bytes: &[u8]) -> Result<Parts, Memory>
    ensures { IfOk result (λ parts. parts ≡ items_of bytes.now) }
{
    let mut spots = Vec::new(alloc);
    match operation(bytes.len(), bytes, &mut spots) {
        Ok([]) => Ok(Parts {
            spots: Seq::of(spots),
            stop: None,
        }),
        Ok(rest) => Ok(Parts {
            spots: Seq::of(spots),
            stop: Some(bytes.len().saturating_sub(rest.len()) as u64),
        }),
        Err(WalkError::Stopped(place)) => Ok(Parts {
            spots: Seq::of(spots),
            stop: Some(place),
        }),
        Err(WalkError::Memory) => Err(Memory),
    }
}
