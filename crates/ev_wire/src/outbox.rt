//! All the notes of a step, each for its peer.

ghost use Rattle.std.specs.Prelude.{◌≡◌, IfOk, OnOk, map};
ghost use Rattle.def_op.specs.Views.{operation};
ghost use Rattle.ev_pass.specs.Notes.{sent};
ghost use Rattle.ev_wire.specs.Putting.{addressed, all_written, put_all, put_one, table_for};
ghost use Rattle.ev_wire.specs.Writing.{written};

use crate::writing::{WriteFault, write};
use def_op::Op;
use ev_base::VatId;
use ev_pass::Interior;
use ev_pass::post::Put;
use ev_tables::Connection;

/// The operation of a note, and the vat that it is for.
pub struct Outgoing {
    pub to: VatId,
    pub op: Op,
}

impl Drop for Outgoing {
    fn drop(self) {
        let Self { to: _, op: _op } = self;
    }
}

/// Writes a note for its peer, whose connection stands at the vat's number.
#[tactic(auto, unfolding(crate::specs::Putting::put_one))]
pub fn write_put(
    inside: &Interior,
    connections: &mut Vec<Connection>,
    put: &Put,
) -> Result<Op, WriteFault>
    ensures op { IfOk result (λ op. operation op ≡ written inside.now (sent put.now).note (table_for (sent put.now).to connections.old.items)) }
    ensures ok { OnOk result (connections.new.items ≡ put_one inside.now (sent put.now) connections.old.items) }
{
    match connections.get_mut(put.to.0 as usize) {
        Some(connection) => write(inside, connection, &put.note),
        None => Err(WriteFault::Closed),
    }
}

/// Writes the notes of a step, in order, each for its peer, whose connection stands at the vat's number.
pub fn write_all(
    inside: &Interior,
    connections: &mut Vec<Connection>,
    puts: &[Put],
) -> Result<Vec<Outgoing>, WriteFault>
    ensures written { IfOk result (λ out. map addressed out.items ≡ all_written inside.now (map sent puts.now) connections.old.items) }
    ensures ok { OnOk result (connections.new.items ≡ put_all inside.now (map sent puts.now) connections.old.items) }
{
    let mut out = Vec::new(inside.alloc);
    for put in puts {
        let op = write_put(inside, connections, put)?;
        if let Err(full) = out.push(Outgoing { to: put.to, op }) {
            drop(full);
            return Err(WriteFault::Memory);
        }
    }
    Ok(out)
}
