//! Positions of the peer: those that are there, and new ones.

ghost use Rattle.std.specs.Prelude.{◌≡◌, ◌++◌, ◌==◌, ℕ, suc, length, slice_get, IfOk};
ghost use Rattle.def_hostile.specs.Judge.{passes_where, position_passes, same_kind};
ghost use Rattle.ev_tables.specs.Standing.{is_object, local_of};
ghost use Rattle.ev_judge.specs.Views.{counts, seen};

use crate::look::{Look, Receiver};
use def_op::Desc;
use ev_base::{Memory, Value};
use ev_tables::Connection;

/// Whether the vat knows what stands at a position as an object.
#[tactic(auto, unfolding(ev_tables::specs::Standing::local_of, ev_tables::specs::Standing::is_object))]
fn is_object(value: Value) -> bool
    ensures { result ≡ is_object (local_of value) }
{
    match value {
        Value::Obj(_) | Value::Far(_, _) => true,
        _ => false,
    }
}

/// What stands at a position since an earlier frame.
fn imported(connection: &Connection, position: u64) -> Option<Value>
    ensures { result ≡ slice_get connection.now.imports position }
{
    connection.entry(&Desc::MyExport(position))
}

/// Whether a position is that of an object, where it is there or new in this frame.
fn kind_at(connection: &Connection, new: &[bool], position: u64) -> Option<bool>
    ensures { result ≡ slice_get ((counts connection.now).imports ++ new.now) position }
{
    match imported(connection, position) {
        Some(value) => Some(is_object(value)),
        None => new_kind(new, position.saturating_sub(connection.next_import())),
    }
}

fn new_kind(new: &[bool], place: u64) -> Option<bool>
    ensures { result ≡ slice_get new.now place }
{
    match new.get(place as usize) {
        Some(object) => Some(*object),
        None => None,
    }
}

/// Whether a position is the next one, behind the new ones of the frame.
fn is_next(connection: &Connection, new: &[bool], position: u64) -> bool
    ensures { result ≡ (position == length ((counts connection.now).imports ++ new.now)) }
{
    let first = connection.next_import();
    position >= first && position - first == new.len() as u64
}

#[tactic(auto, unfolding(def_hostile::specs::Judge::same_kind))]
fn same_kind(receiver: &Receiver, connection: &Connection, known: bool, object: bool) -> bool
    ensures { result ≡ same_kind receiver.now.vats receiver.now.me connection.now.peer (counts connection.now) known object }
{
    if known { object } else { !object }
}

/// Whether a position of this kind passes: one that is there is of that kind, and another is the next.
#[tactic(auto, unfolding(def_hostile::specs::Judge::position_passes, def_hostile::specs::Judge::passes_where, def_hostile::specs::Judge::onward))]
pub(crate) fn position_passes(
    receiver: &Receiver,
    connection: &Connection,
    index: usize,
    object: bool,
    position: u64,
    look: &mut Look,
) -> Result<bool, Memory>
    ensures { IfOk result (λ b. position_passes receiver.now.vats receiver.now.me connection.now.peer (counts connection.now) object position (seen index look.old) (slice_get ((counts connection.now).imports ++ look.old.gathered.items) position) ≡ passes_where b (seen (suc index) look.new)) }
{
    look.code = None;
    match kind_at(connection, look.gathered.as_slice(), position) {
        Some(known) => Ok(same_kind(receiver, connection, known, object)),
        None => {
            let passes = is_next(connection, look.gathered.as_slice(), position);
            look.gathered.push(object)?;
            Ok(passes)
        }
    }
}
