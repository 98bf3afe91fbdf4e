//! What is left at the end of a run.

ghost use Rattle.std.specs.Prelude.{◌≡◌, ◌++◌, ◌∷◌, ℕ, List, [], IfOk, OnOk, string_bytes};
ghost use Rattle.def_event.specs.Lines.{render};
ghost use Rattle.def_event.specs.declared.event.Event.{Event as Told};
ghost use Rattle.def_event.specs.declared.event.Event.TheVariants as line;
ghost use Rattle.def_run.specs.Numbers.{Vats, close};
ghost use Rattle.def_run.specs.Text.{shown_events, vat_names};
ghost use Rattle.def_run.specs.World.{Script as TheirScript};
ghost use Rattle.ev_step_text.specs.Accounts.{IsAccount};
ghost use Rattle.ev_ways.specs.Telling.{left_rows};
ghost use Rattle.ev_world.specs.Closing.{all_left, left_of};
ghost use Rattle.ev_world.specs.Standing.{Comes, IsWorld, told_so};

use crate::world::World;
use def_event::Event;
use ev_base::{Memory, Seq, Str};
use ev_event::History;
use ev_resident::Resident;
use ev_step_text::account::add_text;
use ev_step_text::{Account, Form};
use ev_ways::Ways;
use std::alloc::Global;

/// Adds the lines of what is left at a vat, which is let go in one call.
fn tell_resident(resident: Resident, history: &mut History) -> Result<(), Memory>
    ensures { OnOk result (history.new ≡ history.old ++ left_of resident) }
{
    let mut resident = resident;
    let told = resident.member.tell_left(resident.names.table(), history);
    drop(resident);
    told
}

/// Adds the lines of what is left at each of these vats, in order.
#[tactic(auto, using(crate::proofs::Remains::one_told, crate::proofs::Remains::none_told))]
fn tell_residents(residents: Vec<Resident>, history: &mut History) -> Result<(), Memory>
    ensures { OnOk result (history.new ≡ history.old ++ all_left residents.items) }
{
    for resident in residents {
        tell_resident(resident, history)?;
    }
    Ok(())
}

/// These lines, those of what is left at these vats and on these ways, and the last one.
fn told_to_end(
    alloc: Global,
    residents: Vec<Resident>,
    ways: Ways,
    mut history: History,
) -> Result<History, Memory>
    ensures { IfOk result (λ lines. lines ≡ ((history ++ all_left residents.items) ++ left_rows 0 ways) ++ line.End ∷ []) }
{
    tell_residents(residents, &mut history)?;
    ways.tell_left(alloc, &mut history)?;
    history.push(Event::End)?;
    Ok(history)
}

/// A text, and behind it the lines of what is left at these vats and on these ways, and the last one.
fn text_to_end(
    alloc: Global,
    names: &Seq<Str>,
    residents: Vec<Resident>,
    ways: Ways,
    mut text: String,
) -> Result<String, Memory>
    ensures { IfOk result (λ whole. (es : List Told) → string_bytes text ≡ render names.now es → string_bytes whole ≡ render names.now (((es ++ all_left residents.items) ++ left_rows 0 ways) ++ line.End ∷ [])) }
{
    let left = told_to_end(alloc, residents, ways, History::new(alloc))?;
    add_text(alloc, names, &left, &mut text)?;
    Ok(text)
}

/// The same of an account.
fn account_to_end(
    alloc: Global,
    residents: Vec<Resident>,
    ways: Ways,
    account: Account,
) -> Result<Account, Memory>
    ensures { IfOk result (λ whole. (names : List (List ℕ)) (es : List Told) → IsAccount names account es → IsAccount names whole (((es ++ all_left residents.items) ++ left_rows 0 ways) ++ line.End ∷ [])) }
{
    let Account { names, form } = account;
    let form = match form {
        Form::Events(history) => Form::Events(told_to_end(alloc, residents, ways, history)?),
        Form::Text(text) => Form::Text(text_to_end(alloc, &names, residents, ways, text)?),
    };
    Ok(Account { names, form })
}

impl World {
    /// What is told of the whole run, once what is left at its end is told: at each vat, then on the ways between them.
    pub(crate) fn close(self, alloc: Global) -> Result<Account, Memory>
        ensures { (S : TheirScript) (w : Vats) → IsWorld S w self → IfOk result (λ account. Comes (λ (y : Vats). IsAccount (vat_names S) account (told_so self.wire (shown_events y.drawn y.history))) (close S w)) }
    {
        let World {
            residents,
            ways,
            history,
            ..
        } = self;
        account_to_end(alloc, residents, ways, history)
    }
}
