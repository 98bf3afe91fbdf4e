//! The frame of a note that a step put.

ghost use Rattle.std.specs.Prelude.{◌≡◌, IfOk};
ghost use Rattle.ev_resident.specs.Notes.{asks_of, frame_by, message_of};
ghost use Rattle.ev_pass.specs.Notes.{noted};

use crate::{Noting, shown_note};
use ev_base::{Memory, Msg, Seq, VatId};
use ev_pass::note::Note;
use ev_step_lines::Teller;
use ev_ways::Frame;

/// The message that a note brings, if one.
fn message_of(teller: &Teller<'_>, note: &Note) -> Option<Msg>
    ensures { result ≡ message_of teller.now.naming (noted note.now) }
{
    match note {
        Note::Deliver { message, .. } => Some(teller.table.message(*message)),
        _ => None,
    }
}

/// Whether a note brings a message that asks for an answer.
fn asks_of(note: &Note) -> bool
    ensures { result ≡ asks_of (noted note.now) }
{
    match note {
        Note::Deliver { answer, .. } => answer.is_some(),
        _ => false,
    }
}

/// The frame of a note to that vat, which has these bytes.
pub fn frame_of(
    noting: &Noting<'_>,
    to: VatId,
    note: &Note,
    bytes: Seq<u8>,
) -> Result<Frame, Memory>
    ensures { IfOk result (λ frame. frame ≡ frame_by noting.now to (noted note.now) bytes) }
{
    Ok(Frame {
        bytes,
        note: shown_note(noting, to, note)?,
        message: message_of(noting.teller, note),
        asks: asks_of(note),
    })
}
