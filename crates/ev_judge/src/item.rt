//! Whether an item of a frame passes.

ghost use Rattle.std.specs.Prelude.{◌≡◌, ◌==◌, ℕ, suc, IfOk};
ghost use Rattle.def_hostile.specs.Judge.{asks, code_passes, is_bad_target, is_elsewhere, is_name_code, item_passes, number_passes, numbered_by, passes_where, vat_passes};
ghost use Rattle.ev_judge.specs.Views.{counts, seen};

use crate::look::{Look, Receiver};
use crate::position::position_passes;
use def_op::Part;
use ev_base::{Memory, VatId};
use ev_tables::Connection;

/// Whether a number at this item is that of a question.
#[tactic(auto, unfolding(def_hostile::specs::Judge::asks))]
fn asks(receiver: &Receiver, connection: &Connection, index: usize, look: &Look) -> bool
    ensures { result ≡ asks receiver.now.vats receiver.now.me connection.now.peer (counts connection.now) (seen index look.now) }
{
    index == 1 && (look.op == 1 || look.op == 4)
}

/// Whether a number passes that stands behind the first byte of a description, or elsewhere.
#[tactic(auto, unfolding(def_hostile::specs::Judge::numbered_by, def_hostile::specs::Judge::passes_where, def_hostile::specs::Judge::onward))]
fn numbered_by(
    receiver: &Receiver,
    connection: &Connection,
    index: usize,
    number: u64,
    look: &mut Look,
) -> Result<bool, Memory>
    ensures { IfOk result (λ b. numbered_by receiver.now.vats receiver.now.me connection.now.peer (counts connection.now) number look.old.code (seen index look.old) ≡ passes_where b (seen (suc index) look.new)) }
{
    match look.code {
        Some(11) => position_passes(receiver, connection, index, true, number, look),
        Some(12) => position_passes(receiver, connection, index, false, number, look),
        Some(9) => {
            look.code = None;
            Ok(number < connection.next_export())
        }
        Some(10) => {
            look.code = None;
            Ok(number < connection.next_answer())
        }
        Some(14) => {
            look.code = None;
            Ok(number < connection.next_question())
        }
        _ => {
            look.code = None;
            Ok(true)
        }
    }
}

/// Whether a number passes: a question is the next one, and any other passes by what stands in front.
#[tactic(auto, unfolding(def_hostile::specs::Judge::number_passes, def_hostile::specs::Judge::passes_where, def_hostile::specs::Judge::onward))]
fn number_passes(
    receiver: &Receiver,
    connection: &Connection,
    index: usize,
    number: u64,
    look: &mut Look,
) -> Result<bool, Memory>
    ensures { IfOk result (λ b. number_passes receiver.now.vats receiver.now.me connection.now.peer (counts connection.now) number (seen index look.old) ≡ passes_where b (seen (suc index) look.new)) }
{
    if asks(receiver, connection, index, look) {
        look.code = None;
        return Ok(number == connection.next_answer());
    }
    numbered_by(receiver, connection, index, number, look)
}

/// Whether a byte that stands in front of a vat says that the vat is where a name settled to.
#[tactic(auto, unfolding(def_hostile::specs::Judge::is_elsewhere))]
fn is_elsewhere(receiver: &Receiver, connection: &Connection, code: Option<u8>) -> bool
    ensures { result ≡ is_elsewhere receiver.now.vats receiver.now.me connection.now.peer (counts connection.now) code }
{
    match code {
        Some(byte) => byte == 15,
        None => false,
    }
}

fn is_vat(vat: u8, id: VatId) -> bool
    ensures { result ≡ (vat == id) }
{
    vat == id.0
}

/// Whether a vat passes: it is there, it is not the sender, and it is not the receiver unless a name settled to it.
#[tactic(auto, unfolding(def_hostile::specs::Judge::vat_passes, def_hostile::specs::Judge::passes_where, def_hostile::specs::Judge::onward))]
fn vat_passes(
    receiver: &Receiver,
    connection: &Connection,
    index: usize,
    vat: u8,
    look: &mut Look,
) -> bool
    ensures { vat_passes receiver.now.vats receiver.now.me connection.now.peer (counts connection.now) vat (seen index look.old) ≡ passes_where result (seen (suc index) look.new) }
{
    let passes = vat < receiver.vats
        && !is_vat(vat, connection.peer())
        && (is_elsewhere(receiver, connection, look.code) || !is_vat(vat, receiver.me));
    look.code = None;
    passes
}

#[tactic(auto, unfolding(def_hostile::specs::Judge::is_name_code))]
fn is_name_code(byte: u8) -> bool
    ensures { result ≡ is_name_code byte }
{
    byte == 9 || byte == 10 || byte == 12 || byte == 13 || byte == 14
}

/// Whether a first byte is that of a name of the connection where a promise is told to have settled to it.
#[tactic(auto, unfolding(def_hostile::specs::Judge::is_bad_target))]
fn is_bad_target(
    receiver: &Receiver,
    connection: &Connection,
    index: usize,
    byte: u8,
    look: &Look,
) -> bool
    ensures { result ≡ is_bad_target receiver.now.vats receiver.now.me connection.now.peer (counts connection.now) byte (seen index look.now) }
{
    index == 3 && look.op == 2 && is_name_code(byte)
}

/// Whether the byte of the operation or the first byte of a description passes.
#[tactic(auto, unfolding(def_hostile::specs::Judge::code_passes, def_hostile::specs::Judge::begins, def_hostile::specs::Judge::passes_where, def_hostile::specs::Judge::onward))]
fn code_passes(
    receiver: &Receiver,
    connection: &Connection,
    index: usize,
    byte: u8,
    look: &mut Look,
) -> bool
    ensures { code_passes receiver.now.vats receiver.now.me connection.now.peer (counts connection.now) byte (seen index look.old) ≡ passes_where result (seen (suc index) look.new) }
{
    if index == 0 {
        look.op = byte;
        return true;
    }
    let passes = !is_bad_target(receiver, connection, index, byte, look);
    look.code = Some(byte);
    passes
}

/// Whether an item passes that has so many in front of it, and what is known behind it.
#[tactic(auto, unfolding(def_hostile::specs::Judge::item_passes, def_hostile::specs::Judge::passes_where, def_hostile::specs::Judge::onward))]
pub(crate) fn item_passes(
    receiver: &Receiver,
    connection: &Connection,
    index: usize,
    part: Part,
    look: &mut Look,
) -> Result<bool, Memory>
    ensures { IfOk result (λ b. item_passes receiver.now.vats receiver.now.me connection.now.peer (counts connection.now) part (seen index look.old) ≡ passes_where b (seen (suc index) look.new)) }
{
    match part {
        Part::Code(byte) => Ok(code_passes(receiver, connection, index, byte, look)),
        Part::Number(number) => number_passes(receiver, connection, index, number, look),
        Part::Vat(vat) => Ok(vat_passes(receiver, connection, index, vat, look)),
        Part::Swiss(_) | Part::Other => {
            look.code = None;
            Ok(true)
        }
    }
}
