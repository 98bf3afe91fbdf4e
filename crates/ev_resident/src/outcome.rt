//! The names and the lines of a step.

ghost use Rattle.std.specs.Prelude.{◌≡◌, ℕ, List, OnOk, map};
ghost use Rattle.def_run.specs.Names.{Names, names_after};
ghost use Rattle.def_run.specs.Names.{Told as TheirTold};
ghost use Rattle.def_run.specs.Numbers.{Way, lines_of, link_of, name_at_vat};
ghost use Rattle.def_run.specs.Vats.{Member};
ghost use Rattle.def_machine.specs.State as machine;
ghost use Rattle.def_machine.specs.Values.{Local, Name};
ghost use Rattle.def_run.specs.Text.{shown_events};
ghost use Rattle.ev_resident.specs.Names.{carried_mails};
ghost use Rattle.ev_resident.specs.Printing.{TellsCuts};
ghost use Rattle.ev_resident.specs.NamesStanding.{Says, mails_of};
ghost use Rattle.ev_resident.specs.OutcomeStanding.{IsAfter, NamesStand, ObjectsStand};
ghost use Rattle.ev_room.specs.Reading.{World};
ghost use Rattle.ev_step_text.specs.Accounts.{More};

use crate::{Told, VatNames};
use ev_arrive::Host;
use ev_base::{Memory, Msg};
use ev_step_lines::Teller;
use ev_step_text::Account;
use std::alloc::Global;

/// The names of a vat after a step that left it so. A note brought that message, if one, and told those numbers before.
pub fn name_step(
    host: &Host,
    names: &mut VatNames,
    carried: Option<Msg>,
    told: Told,
) -> Result<(), Memory>
    ensures names { (w : World) (s last : machine.Vat Local) (u : ℕ) (t : Names) (messages : List Name) (brought : List TheirTold)
        → IsAfter w host.now s → NamesStand s.drawn u last t names.old → mails_of (carried_mails carried) ≡ messages → Says host.now.inside.words told brought
        → OnOk result (NamesStand s.drawn u s (names_after u t last messages brought s) names.new) }
    ensures objects { OnOk result (names.new.naming.objects ≡ names.old.naming.objects) }
{
    names.after_step(host, &host.inside.words, carried, told)?;
    Ok(())
}

/// Tells the lines of a step, behind the step's own, by the names after it and where those links are cut.
pub fn tell_lines(
    alloc: Global,
    host: &Host,
    names: &VatNames,
    cut: &[bool],
    account: &mut Account,
) -> Result<(), Memory>
    ensures { (w : World) (s : machine.Vat Local) (u : ℕ) (t : Names) (ms : List Member) (ways : List Way)
        → IsAfter w host.now s → NamesStand s.drawn u s t names.now → ObjectsStand ms u names.now.naming.objects → TellsCuts u (map link_of ways) cut.now
        → OnOk result (More account.old account.new (shown_events s.drawn (lines_of ways u (name_at_vat ms u t) s.happened))) }
{
    let teller = Teller {
        alloc,
        heap: &host.inside.heap,
        table: names.table(),
        cut,
    };
    account.tell(&teller, &host.inside.micro.events)?;
    Ok(())
}
