//! Notes as operations.

ghost use Rattle.std.specs.Prelude.{◌≡◌, ◌↔◌, IfOk, IsErrOf, IsTrue, OnOk};
ghost use Rattle.def_op.specs.Views.{operation};
ghost use Rattle.ev_pass.specs.Notes.{noted};
ghost use Rattle.ev_wire.specs.Writing.{asked_of, asking, put_on, written};
ghost use Rattle.ev_wire.specs.declared.writing.WriteFault.TheVariants as fault;

use crate::describing::describe_note;
use crate::numbering::number_note;
use def_op::Op;
use ev_base::{Memory, PromId};
use ev_pass::{Interior, Note};
use ev_tables::Connection;

/// Why a note was not written.
#[derive(Clone, Copy, PartialEq, Eq)]
pub enum WriteFault {
    /// The connection is closed.
    Closed,
    Memory,
}

impl From<Memory> for WriteFault {
    ghost use Rattle.std.specs.Prelude.{◌≡◌};
    ghost use Rattle.ev_wire.specs.declared.writing.WriteFault.TheVariants.{Memory as NoMemory};

    ghost from_gives = { λ _ e. e ≡ NoMemory };

    fn from(_error: Memory) -> WriteFault {
        WriteFault::Memory
    }
}

/// What a note asks the peer for.
#[tactic(auto, unfolding(crate::specs::Writing::asked_of))]
fn asked_of(note: &Note) -> Option<PromId>
    ensures { result ≡ asked_of (noted note.now) }
{
    match note {
        Note::Deliver { answer, .. } => *answer,
        Note::Ask(_, _, name) => Some(*name),
        Note::Open(_, _) | Note::Settled(_, _) | Note::Elsewhere(_, _) | Note::Shorten(_, _, _) =>
            None,
    }
}

/// Asks the next question, where something is asked for. The connection is open.
#[tactic(auto, unfolding(crate::specs::Writing::asking))]
fn ask(connection: &mut Connection, asked: Option<PromId>) -> Result<(), Memory>
    ensures { OnOk result (connection.new ≡ asking asked connection.old) }
{
    match asked {
        Some(promise) => match connection.ask(promise) {
            Ok(_question) => Ok(()),
            Err(_fault) => Err(Memory),
        },
        None => Ok(()),
    }
}

/// What is written of a note, on an open connection.
#[tactic(auto, unfolding(crate::specs::Writing::written, crate::specs::Writing::put_on))]
fn write_open(inside: &Interior, connection: &mut Connection, note: &Note) -> Result<Op, Memory>
    ensures op { IfOk result (λ op. operation op ≡ written inside.now (noted note.now) connection.old) }
    ensures ok { OnOk result (connection.new ≡ put_on inside.now (noted note.now) connection.old) }
{
    number_note(connection, inside, note)?;
    let op = describe_note(inside, connection, note)?;
    match ask(connection, asked_of(note)) {
        Ok(()) => Ok(op),
        Err(memory) => {
            drop(op);
            Err(memory)
        }
    }
}

/// Writes a note for the peer of a connection: the operation that says it by the numbers of the two vats. Things of this vat that it
/// tells first come to have positions, and where it asks for something that has the next number of a question. A closed connection takes
/// nothing.
/// After want of memory some of what the note tells may have its position, and no question was asked.
pub fn write(inside: &Interior, connection: &mut Connection, note: &Note) -> Result<Op, WriteFault>
    ensures op { IfOk result (λ op. operation op ≡ written inside.now (noted note.now) connection.old) }
    ensures ok { OnOk result (connection.new ≡ put_on inside.now (noted note.now) connection.old) }
    ensures closed { IsErrOf result fault.Closed ↔ IsTrue connection.old.is_closed }
{
    if connection.is_closed() {
        return Err(WriteFault::Closed);
    }
    Ok(write_open(inside, connection, note)?)
}
