//! Lines with one value or one list, as what happened and the small lines that tell it both have them.

ghost use Rattle.std.specs.Prelude.{◌≡◌, ◌++◌, ◌∷◌, [], OnOk};
ghost use Rattle.def_event.specs.declared.event.Event.TheVariants as line_as;
ghost use Rattle.def_event.specs.declared.shown.Shown as shown_as;
ghost use Rattle.ev_step_lines.specs.Lines.{all_held, problem_at, shown_held};

use crate::shown::{problem, shown, shown_all};
use crate::teller::Teller;
use def_event::{Event, Shown};
use ev_base::{ActId, ListId, Memory, Seq, SlotId, Value};
use ev_event::History;

/// Adds the line of an answer.
pub(crate) fn push_back(
    teller: &Teller<'_>,
    activation: ActId,
    value: Value,
    history: &mut History,
) -> Result<(), Memory>
    ensures { OnOk result (history.new ≡ history.old ++ line_as.Back activation (shown_held teller.now value) ∷ []) }
{
    let value = shown(teller, value)?;
    history.push(Event::Back(activation.0, value))
}

/// Adds the line of a problem that was thrown.
pub(crate) fn push_thrown(
    teller: &Teller<'_>,
    activation: ActId,
    value: Value,
    history: &mut History,
) -> Result<(), Memory>
    ensures { OnOk result (history.new ≡ history.old ++ line_as.Thrown activation (shown_as.Text (problem_at teller.now value)) ∷ []) }
{
    let problem = problem(teller, value)?;
    history.push(Event::Thrown(activation.0, Shown::Text(problem)))
}

/// Adds the line of a slot that was made.
pub(crate) fn push_slot(
    teller: &Teller<'_>,
    activation: ActId,
    slot: SlotId,
    value: Value,
    history: &mut History,
) -> Result<(), Memory>
    ensures { OnOk result (history.new ≡ history.old ++ line_as.Slot activation (teller.now.naming.vat, slot) (shown_held teller.now value) ∷ []) }
{
    let value = shown(teller, value)?;
    history.push(Event::Slot(activation.0, (teller.vat(), slot.0), value))
}

/// Adds the line of a slot that was read.
pub(crate) fn push_read(
    teller: &Teller<'_>,
    activation: ActId,
    slot: SlotId,
    value: Value,
    history: &mut History,
) -> Result<(), Memory>
    ensures { OnOk result (history.new ≡ history.old ++ line_as.Read activation (teller.now.naming.vat, slot) (shown_held teller.now value) ∷ []) }
{
    let value = shown(teller, value)?;
    history.push(Event::Read(activation.0, (teller.vat(), slot.0), value))
}

/// Adds the line of a slot that was written.
pub(crate) fn push_wrote(
    teller: &Teller<'_>,
    activation: ActId,
    slot: SlotId,
    value: Value,
    history: &mut History,
) -> Result<(), Memory>
    ensures { OnOk result (history.new ≡ history.old ++ line_as.Wrote activation (teller.now.naming.vat, slot) (shown_held teller.now value) ∷ []) }
{
    let value = shown(teller, value)?;
    history.push(Event::Wrote(activation.0, (teller.vat(), slot.0), value))
}

/// The line of a list that was made.
pub(crate) fn list_line(
    teller: &Teller<'_>,
    activation: ActId,
    list: ListId,
    members: Seq<Shown>,
) -> Event
    ensures { result ≡ line_as.List activation (teller.now.naming.vat, list) members }
{
    Event::List(activation.0, (teller.vat(), list.0), members)
}

/// Adds the line of a list that was made.
pub(crate) fn push_list(
    teller: &Teller<'_>,
    activation: ActId,
    list: ListId,
    values: &[Value],
    history: &mut History,
) -> Result<(), Memory>
    ensures { OnOk result (history.new ≡ history.old ++ line_as.List activation (teller.now.naming.vat, list) (all_held teller.now values.now) ∷ []) }
{
    let members = shown_all(teller, values)?;
    history.push(list_line(teller, activation, list, members))
}
