//! The frames that a step puts.

ghost use Rattle.std.specs.Prelude.{◌≡◌, IfOk, map};
ghost use Rattle.ev_pass.specs.Notes.{sent};
ghost use Rattle.ev_resident.specs.Framing.{all_outgoing, outgoing_by};

use crate::{Noting, frame_of};
use ev_base::{Memory, VatId};
use ev_pass::post::Put;
use ev_vat::Sending;
use ev_ways::Frame;
use std::alloc::Global;

/// A frame to be pushed on the way to that vat.
#[derive(Drop)]
pub struct Outgoing {
    pub to: VatId,
    pub frame: Frame,
}

/// The frame of what was put, in the bytes that were sent.
fn outgoing_of(noting: &Noting<'_>, put: &Put, sending: Sending) -> Result<Outgoing, Memory>
    ensures { IfOk result (λ x. x ≡ outgoing_by noting.now (sent put.now) sending) }
{
    let Sending { to, bytes } = sending;
    Ok(Outgoing {
        to,
        frame: frame_of(noting, to, &put.note, bytes)?,
    })
}

/// The frames of what was put, in order, each in the bytes that were sent for it. One too many of these is answered as want of memory.
pub fn all_outgoing(
    alloc: Global,
    noting: &Noting<'_>,
    puts: &[Put],
    sendings: Vec<Sending>,
) -> Result<Vec<Outgoing>, Memory>
    ensures { IfOk result (λ xs. xs.items ≡ all_outgoing noting.now sendings.items (map sent puts.now)) }
{
    let mut out = Vec::new(alloc);
    let mut index = 0;
    for sending in sendings {
        let Some(put) = puts.get(index) else {
            return Err(Memory);
        };
        out.push(outgoing_of(noting, put, sending)?)?;
        index += 1;
    }
    Ok(out)
}
