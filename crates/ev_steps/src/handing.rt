//! Ejectors as they are handed on.

ghost use Rattle.std.specs.Prelude.{◌≡◌};
ghost use Rattle.ev_steps.specs.Steps.{handed};

use ev_base::Value;
use ev_room::room::Room;

/// An ejector as it is handed on: null where it is followed to that.
#[tactic(auto, unfolding(crate::specs::Steps::handed))]
pub fn handed(room: &Room, ejector: Value) -> Value
    ensures { result ≡ handed room.now ejector }
{
    let held = ejector;
    match room.refs.deref(ejector) {
        Value::Null => Value::Null,
        _ => held,
    }
}
