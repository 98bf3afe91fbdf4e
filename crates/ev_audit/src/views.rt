//! What an auditor may know of the names of an object at its making.

ghost use Rattle.std.specs.Prelude.{◌≡◌, IfOk, option_map};
ghost use Rattle.ev_audit.specs.Views.{free_held};

use crate::auditions::bound_of;
use ev_base::{Memory, Word};
use ev_heap::{Capture, FreeName};
use std::alloc::Global;

/// A free name of an object that is being made, by the object's own name and by what the scope of the object expression binds
/// the name to. The names of a view are these, in order of first use.
pub fn free_name(
    alloc: Global,
    own: Option<&str>,
    noun: &str,
    capture: Option<Capture>,
) -> Result<FreeName, Memory>
    ensures { IfOk result (λ name. name ≡ free_held (option_map (λ x. x.now) own.entry) noun.now capture) }
{
    let bound = bound_of(own, noun, capture);
    let noun = Word::copy_of(alloc, noun)?;
    Ok(FreeName { noun, bound })
}
