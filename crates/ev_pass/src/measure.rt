//! What a value weighs that is to pass, and whether it is within the limits.

ghost use Rattle.std.specs.Prelude.{◌≡◌};
ghost use Rattle.ev_refs.specs.Leading.{lists_in, members_at};
ghost use Rattle.ev_pass.specs.Measuring.{own_weight, room_after, room_in, rooms, take_room, weighed, weighed_data, weighed_end, weighed_list};

use crate::interior::{Interior, Stop};
use ev_base::{ListId, Value};
use ev_heap::Heap;

/// The greatest weight of a list.
const MOST_WEIGHT: u64 = 65536;

/// The greatest height of a list.
const MOST_HEIGHT: u64 = 100;

/// What the broken value `too heavy` weighs.
const WEIGHT_OF_TOO_HEAVY: u64 = 10;

/// Why there is no room for a value.
#[derive(Clone, Copy)]
pub enum Misfit {
    /// It would be heavier or higher than the limits.
    TooHeavy,
    /// It has a text that the heap does not have.
    Missing,
}

/// What passes, and its weight.
#[derive(Clone, Copy)]
pub struct Weighed {
    pub weight: u64,
    pub value: Value,
}

/// The members of a list of the heap, or none where it is not there.
pub(crate) fn members_in(heap: &Heap, list: ListId) -> &[Value]
    ensures { result.now ≡ members_at (lists_in heap.now) list }
{
    if list.0 < heap.list_count() {
        heap.members(list)
    } else {
        &[]
    }
}

/// The weight of what is no list: 1 and its bytes for a text or a broken reference, and else 1. There is none where the heap does
/// not have the text.
fn own_weight(heap: &Heap, value: &Value) -> Option<u64>
    ensures { result ≡ own_weight heap.now value.now }
{
    match *value {
        Value::Text(id) | Value::Broken(id) => match heap.find_text(id) {
            Some(text) => Some(text.len() as u64 + 1),
            None => None,
        },
        _ => Some(1),
    }
}

/// The room that is left behind so much.
#[tactic(auto, unfolding(crate::specs::Measuring::take_room))]
fn take_room(weight: Option<u64>, room: u64) -> Result<u64, Misfit>
    ensures { result ≡ take_room weight room }
{
    match weight {
        None => Err(Misfit::Missing),
        Some(weight) => {
            if weight <= room {
                Ok(room - weight)
            } else {
                Err(Misfit::TooHeavy)
            }
        }
    }
}

impl Interior {
    /// The room that is left behind a value, each part of it followed, in which at most so many lists stand in each other.
    #[cycle(measuring)]
    #[tactic(auto, unfolding(crate::specs::Measuring::opened_measuring))]
    fn room_after(&self, depth: u64, value: Value, room: u64) -> Result<u64, Misfit>
        ensures { result ≡ room_after depth self.now.refs self.now.heap value room }
    {
        match self.refs.deref(value) {
            Value::List(list) => self.room_in(depth, list, room),
            end => take_room(own_weight(&self.heap, &end), room),
        }
    }

    /// The room that is left behind a list.
    #[cycle(measuring)]
    #[tactic(auto, unfolding(crate::specs::Measuring::opened_measuring))]
    fn room_in(&self, depth: u64, list: ListId, room: u64) -> Result<u64, Misfit>
        ensures { result ≡ room_in depth self.now.refs self.now.heap list room }
    {
        if room == 0 || depth == 0 {
            return Err(Misfit::TooHeavy);
        }
        self.room_behind(depth - 1, members_in(&self.heap, list), room - 1)
    }

    /// The room that is left behind all of these.
    #[cycle(measuring)]
    #[tactic(auto, unfolding(crate::specs::Measuring::opened_measuring))]
    fn room_behind(&self, depth: u64, members: &[Value], room: u64) -> Result<u64, Misfit>
        ensures { result ≡ rooms (λ v left. room_after depth self.now.refs self.now.heap v left) members.now room }
    {
        let mut left = room;
        for member in members {
            match self.room_after(depth, *member, left) {
                Ok(rest) => left = rest,
                Err(misfit) => return Err(misfit),
            }
        }
        Ok(left)
    }

    /// A list, by the room that it leaves.
    #[tactic(auto, unfolding(crate::specs::Measuring::weighed_list))]
    fn weighed_list(&self, list: ListId, left: Result<u64, Misfit>) -> Result<Weighed, Stop>
        ensures { result ≡ weighed_list self.now list left }
    {
        match left {
            Ok(left) => Ok(Weighed {
                weight: MOST_WEIGHT.saturating_sub(left),
                value: Value::List(list),
            }),
            Err(Misfit::TooHeavy) => Ok(Weighed {
                weight: WEIGHT_OF_TOO_HEAVY,
                value: Value::Broken(self.too_heavy),
            }),
            Err(Misfit::Missing) => Err(Stop::Missing),
        }
    }

    /// What is no list, by its weight.
    #[tactic(auto, unfolding(crate::specs::Measuring::weighed_data))]
    fn weighed_data(value: &Value, weight: Option<u64>) -> Result<Weighed, Stop>
        ensures { result ≡ weighed_data value.now weight }
    {
        match weight {
            Some(weight) => Ok(Weighed {
                weight,
                value: *value,
            }),
            None => Err(Stop::Missing),
        }
    }

    /// What passes for a followed value, and its weight.
    #[tactic(auto, unfolding(crate::specs::Measuring::weighed_end))]
    fn weighed_end(&self, end: Value) -> Result<Weighed, Stop>
        ensures { result ≡ weighed_end self.now end }
    {
        match end {
            Value::List(list) => {
                let left = self.room_after(MOST_HEIGHT, end, MOST_WEIGHT);
                self.weighed_list(list, left)
            }
            _ => Interior::weighed_data(&end, own_weight(&self.heap, &end)),
        }
    }

    /// What passes for a value, and its weight: what it is followed to, or broken `too heavy` for a list that weighs more than
    /// 65,536 or is more than 100 high, its members followed. It stops as soon as the limits are met.
    #[tactic(auto, unfolding(crate::specs::Measuring::weighed))]
    pub(crate) fn weighed(&self, value: Value) -> Result<Weighed, Stop>
        ensures { result ≡ weighed self.now value }
    {
        self.weighed_end(self.refs.deref(value))
    }
}
