//! What a step puts, as frames of bytes.

ghost use Rattle.std.specs.Prelude.{◌≡◌, IfErr, IfOk, OnOk, map};
ghost use Rattle.def_op.specs.Frames.{IsOp};
ghost use Rattle.def_op.specs.Views.{operation};
ghost use Rattle.ev_vat.specs.Sending.{AreSent, packed, sending_of};
ghost use Rattle.ev_pass.specs.Notes.{sent};
ghost use Rattle.ev_vat.specs.declared.vat.VatStop.TheVariants.{Memory as NoMemory};
ghost use Rattle.ev_wire.specs.Putting.{addressed, all_written, put_all};

use crate::VatStop;
use crate::fitting::has_spelling;
use ev_base::{Memory, Seq, VatId};
use ev_op::encode;
use ev_pass::Interior;
use ev_tables::Connection;
use ev_wire::{Outgoing, write_all};
use std::alloc::Global;

/// A frame, and the vat that it is for.
#[derive(Drop)]
pub struct Sending {
    pub to: VatId,
    pub bytes: Seq<u8>,
}

/// The frame of an operation.
fn pack(alloc: Global, outgoing: &Outgoing) -> Result<Sending, Memory>
    ensures frame { IfOk result (λ x. sending_of x ≡ packed (addressed outgoing.now)) }
    ensures fits { OnOk result (IsOp (operation outgoing.now.op)) }
{
    // No run puts a note that has none: messages have few arguments, and lists that pass are within their limits.
    if !has_spelling(&outgoing.op) {
        return Err(Memory);
    }
    Ok(Sending {
        to: outgoing.to,
        bytes: encode(alloc, &outgoing.op)?,
    })
}

/// The frames of operations, in order.
fn pack_all(alloc: Global, outgoing: &[Outgoing]) -> Result<Vec<Sending>, Memory>
    ensures { IfOk result (λ xs. AreSent (map addressed outgoing.now) xs.items) }
{
    let mut out = Vec::new(alloc);
    for one in outgoing {
        out.push(pack(alloc, one)?)?;
    }
    Ok(out)
}

/// Writes the notes that a step put, in order, each on the connection for its peer: frames of operations that have a spelling. A note for a vat without an open connection is
/// answered as want of memory; after it the connections are of no use any more.
pub fn send_all(
    inside: &Interior,
    connections: &mut Vec<Connection>,
) -> Result<Vec<Sending>, VatStop>
    ensures sends { IfOk result (λ xs. AreSent (all_written inside.now inside.now.post connections.old.items) xs.items) }
    ensures connections { OnOk result (connections.new.items ≡ put_all inside.now inside.now.post connections.old.items) }
    ensures fault { IfErr result (λ e. e ≡ NoMemory) }
{
    match write_all(inside, connections, inside.post.puts()) {
        Ok(outgoing) => Ok(pack_all(inside.alloc, outgoing.as_slice())?),
        Err(_fault) => Err(VatStop::Memory),
    }
}
