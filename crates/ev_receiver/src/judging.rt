//! A frame that comes in is judged, whoever sent it.

ghost use Rattle.std.specs.Prelude.{◌≡◌, IfOk};
ghost use Rattle.def_hostile.specs.Arrivals.{counts_in};
ghost use Rattle.def_hostile.specs.Judge.{verdict};
ghost use Rattle.ev_judge.specs.Views.{verdict_view};
ghost use Rattle.ev_tables.specs.Standing.{connection_of};

use ev_base::Memory;
use ev_judge::{Verdict, judge_frame};
use ev_pass::Interior;
use ev_tables::Connection;

/// The verdict on a frame that the peer of a connection sent to this vat, of so many, as the run in numbers has it. Nothing changes.
#[tactic(auto, using(crate::proofs::Heard::judged_same))]
pub fn judge(
    inside: &Interior,
    connection: &Connection,
    vats: u8,
    frame: &[u8],
) -> Result<Verdict, Memory>
    ensures { IfOk result (λ v. verdict_view v ≡ verdict vats inside.now.refs.me connection.now.peer (counts_in (connection_of connection.now)) frame.now) }
{
    judge_frame(inside.alloc, connection, inside.refs.me(), vats, frame)
}
