//! A frame of a peer is judged.

ghost use Rattle.std.specs.Prelude.{◌≡◌, IfOk};
ghost use Rattle.def_hostile.specs.Arrivals.{counts_in};
ghost use Rattle.def_hostile.specs.Judge.{verdict};
ghost use Rattle.def_run.specs.Vats.{Member as Theirs, connection_for};
ghost use Rattle.ev_judge.specs.Views.{verdict_view};
ghost use Rattle.ev_tables.specs.Standing.{connection_of};
ghost use Rattle.ev_vat.specs.Standing.{IsMember};
ghost use Rattle.ev_wire.specs.Putting.{table_for};

use ev_base::{Memory, VatId};
use ev_judge::Verdict;
use ev_vat::Member;

/// The verdict on a frame of that vat by the connection that stands for it. A vat without one is answered as want of memory.
fn judged_on(member: &Member, from: VatId, vats: u8, frame: &[u8]) -> Result<Verdict, Memory>
    ensures { IfOk result (λ v. verdict_view v ≡ verdict vats member.now.vat.host.inside.refs.me (table_for from member.now.connections.items).peer (counts_in (connection_of (table_for from member.now.connections.items))) frame.now) }
{
    match member.connections.get(from.0 as usize) {
        Some(connection) => ev_receiver::judge(member.vat.inside(), connection, vats, frame),
        None => Err(Memory),
    }
}

/// The verdict on a frame of that vat, in a run of so many vats: by what the vat has in numbers for it, and by nothing else. Nothing changes.
/// A vat without a connection is answered as want of memory.
#[tactic(auto, using(crate::proofs::Judged::judged))]
pub fn judge(member: &Member, from: VatId, vats: u8, frame: &[u8]) -> Result<Verdict, Memory>
    ensures { (m : Theirs) → IsMember m member.now → IfOk result (λ v. verdict_view v ≡ verdict vats m.vat.number from (counts_in (connection_for from m)) frame.now) }
{
    judged_on(member, from, vats, frame)
}
