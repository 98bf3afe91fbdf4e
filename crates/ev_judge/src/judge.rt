//! Whether the bytes of a frame are lawful.

ghost use Rattle.std.specs.Prelude.{◌≡◌, IfOk};
ghost use Rattle.def_hostile.specs.Judge.{first_look, judged, lawful_if, verdict, verdict_by};
ghost use Rattle.def_op.specs.Items.{items_of};
ghost use Rattle.def_op.specs.Reading.{op_at};
ghost use Rattle.ev_judge.specs.Views.{counts, judged_view, verdict_view};

use crate::item::item_passes;
use crate::look::{Look, Receiver};
use def_op::{Op, Spot};
use ev_base::{Memory, Seq, VatId};
use ev_op::decode;
use ev_parts::parts;
use ev_tables::Connection;
use std::alloc::Global;

/// Whether a frame is lawful.
#[derive(Drop)]
pub enum Verdict {
    /// The operation that it says, and of each position that is new in it, in order, whether it is an object.
    Lawful(Op, Seq<bool>),
    /// The offset of the first item that no vat may send.
    Malformed(u64),
}

/// What comes of the items of a frame.
#[derive(Drop)]
enum Judged {
    /// The new positions.
    Fine(Seq<bool>),
    /// The offset of the first that does not pass.
    Faulty(u64),
}

/// Judges the items of a frame, from left to right.
fn judge_items(
    alloc: Global,
    receiver: &Receiver,
    connection: &Connection,
    spots: &[Spot],
) -> Result<Judged, Memory>
    ensures { IfOk result (λ j. judged_view j ≡ judged receiver.now.vats receiver.now.me connection.now.peer (counts connection.now) spots.now first_look) }
{
    let mut look = Look {
        op: 0,
        code: None,
        gathered: Vec::new(alloc),
    };
    for (index, spot) in spots.iter().enumerate() {
        if !item_passes(receiver, connection, index, spot.part, &mut look)? {
            return Ok(Judged::Faulty(spot.at));
        }
    }
    let Look {
        op: _,
        code: _,
        gathered,
    } = look;
    Ok(Judged::Fine(Seq::of(gathered)))
}

/// The operation of bytes that have no fault.
#[tactic(auto, unfolding(def_hostile::specs::Judge::lawful_if))]
fn lawful_if(alloc: Global, new: Seq<bool>, bytes: &[u8]) -> Result<Verdict, Memory>
    ensures { IfOk result (λ v. verdict_view v ≡ lawful_if new (op_at bytes.now)) }
{
    match decode(alloc, bytes)? {
        Some((op, _len)) => Ok(Verdict::Lawful(op, new)),
        None => Ok(Verdict::Malformed(0)),
    }
}

/// The verdict on bytes whose items, up to where those stop, come to that.
#[tactic(auto, unfolding(def_hostile::specs::Judge::verdict_by))]
fn verdict_by(
    alloc: Global,
    bytes: &[u8],
    stop: Option<u64>,
    judged: Judged,
) -> Result<Verdict, Memory>
    ensures { IfOk result (λ v. verdict_view v ≡ verdict_by bytes.now stop (judged_view judged)) }
{
    match (judged, stop) {
        (Judged::Faulty(place), _) => Ok(Verdict::Malformed(place)),
        (Judged::Fine(_new), Some(place)) => Ok(Verdict::Malformed(place)),
        (Judged::Fine(new), None) => lawful_if(alloc, new, bytes),
    }
}

/// Judges the bytes of a frame that the peer of a connection sent to this vat, where the vats are numbered from 0 and
/// there are so many. They are lawful exactly where they are one whole operation that `decode` of `ev_op` finds, and in which
/// - each export and answer of this vat, and each question of it, is there; each position of the peer that is there
///   is of the kind that the frame says, and each other is the next one, counting those that are new in the frame;
/// - the number of a question is the next one;
/// - each vat is there, and is neither of the two, but that a name of the peer may have settled to this vat;
/// - no promise is told to have settled to what has a name between the two, other than to an object of the peer.
/// Otherwise the verdict has the offset of the first byte or number, from left to right, by which that fails.
/// It takes no more time and memory than the bytes ask for, whatever counts stand in them, and looks up each number in constant time.
#[tactic(auto, unfolding(def_hostile::specs::Judge::verdict))]
pub fn judge_frame(
    alloc: Global,
    connection: &Connection,
    me: VatId,
    vats: u8,
    bytes: &[u8],
) -> Result<Verdict, Memory>
    ensures { IfOk result (λ v. verdict_view v ≡ verdict vats me connection.now.peer (counts connection.now) bytes.now) }
{
    let parts = parts(alloc, bytes)?;
    let receiver = Receiver { vats, me };
    let judged = judge_items(alloc, &receiver, connection, parts.spots.as_slice())?;
    verdict_by(alloc, bytes, parts.stop, judged)
}
