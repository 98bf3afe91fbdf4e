//! Frames go out on the ways.

ghost use Rattle.std.specs.Prelude.{◌≡◌, OnOk};
ghost use Rattle.ev_world.specs.Pushing.{all_pushed};

use ev_base::{Memory, VatId};
use ev_resident::Outgoing;
use ev_ways::Ways;

/// Puts these frames of a vat on its ways, in order.
#[tactic(auto, using(crate::proofs::Pushes::one_pushed, crate::proofs::Pushes::none_pushed))]
pub(crate) fn push_out(ways: &mut Ways, from: VatId, outgoing: Vec<Outgoing>) -> Result<(), Memory>
    ensures { OnOk result (ways.new ≡ all_pushed from outgoing.items ways.old) }
{
    for out in outgoing {
        let Outgoing { to, frame } = out;
        ways.push(from, to, frame)?;
    }
    Ok(())
}
