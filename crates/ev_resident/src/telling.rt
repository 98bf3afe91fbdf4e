//! What a step did is told.

ghost use Rattle.std.specs.Prelude.{◌≡◌, ℕ, List, IfOk, OnOk, map};
ghost use Rattle.def_run.specs.Names.{Names};
ghost use Rattle.def_run.specs.Names.{Told as TheirTold};
ghost use Rattle.def_run.specs.Numbers.{Vats, frames_of, link_of};
ghost use Rattle.def_machine.specs.State as machine;
ghost use Rattle.def_machine.specs.Values.{Local, Name};
ghost use Rattle.def_run.specs.Connections.{Connection};
ghost use Rattle.ev_vat.specs.Sending.{AreOps, sending_of, spelled};
ghost use Rattle.ev_resident.specs.Names.{carried_mails};
ghost use Rattle.ev_resident.specs.Printing.{TellsCuts};
ghost use Rattle.ev_resident.specs.NamesStanding.{Says, mails_of};
ghost use Rattle.ev_resident.specs.OutcomeStanding.{IsAfter, NamesStand, ObjectsStand};
ghost use Rattle.ev_resident.specs.Telling.{IsTold};
ghost use Rattle.ev_room.specs.Reading.{World};

use crate::outgoing::{Outgoing, all_outgoing};
use crate::{Noting, Told, VatNames, name_step, tell_lines};
use ev_arrive::Host;
use ev_base::{Memory, Msg};
use ev_step_lines::Teller;
use ev_step_text::Account;
use ev_vat::Sending;
use std::alloc::Global;

/// What a step did that left the vat so is told: the names of its numbers, its lines where those links are cut, and the frames of what it
/// put, in the bytes that were sent. A note brought that message, if one, and told those numbers.
pub fn tell_step(
    alloc: Global,
    host: &Host,
    names: &mut VatNames,
    cut: &[bool],
    carried: Option<Msg>,
    told: Told,
    sendings: Vec<Sending>,
    account: &mut Account,
) -> Result<Vec<Outgoing>, Memory>
    ensures told { (v : World) (w : Vats) (u : ℕ) (t : Names) (s last : machine.Vat Local) (cs : List (Connection Local)) (messages : List Name) (brought : List TheirTold)
        → IsAfter v host.now s → NamesStand s.drawn u last t names.old → ObjectsStand w.members u names.old.naming.objects
        → mails_of (carried_mails carried) ≡ messages → Says host.now.inside.words told brought → TellsCuts u (map link_of w.ways) cut.now
        → ((f : Local → Name) → map sending_of sendings.items ≡ map spelled (frames_of s f s.outbox cs)) → ((f : Local → Name) → AreOps (frames_of s f s.outbox cs))
        → IfOk result (λ ys. IsTold w u t s last cs messages brought account.old account.new ys.items names.new) }
    ensures objects { OnOk result (names.new.naming.objects ≡ names.old.naming.objects) }
{
    name_step(host, names, carried, told)?;
    tell_lines(alloc, host, names, cut, account)?;
    let teller = Teller {
        alloc,
        heap: &host.inside.heap,
        table: names.table(),
        cut,
    };
    let noting = Noting {
        teller: &teller,
        words: &host.inside.words,
    };
    let outgoing = all_outgoing(alloc, &noting, host.inside.post.puts(), sendings)?;
    Ok(outgoing)
}
