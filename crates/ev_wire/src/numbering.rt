//! Numbers for what a note tells.

ghost use Rattle.std.specs.Prelude.{◌≡◌, OnOk};
ghost use Rattle.ev_pass.specs.Notes.{all_parcels, noted, parcel};
ghost use Rattle.ev_base.specs.declared.values.Value.TheVariants as value;
ghost use Rattle.ev_wire.specs.Writing.{is_mine, is_ours, numbered_note, numbered_parcel, numbered_parcels, numbered_value, value_of};

use ev_base::{Memory, PromId, Value};
use ev_pass::{Interior, Note, Passed, Reference};
use ev_refs::{Place, Refs};
use ev_tables::{Connection, number};

/// Whether this vat tells of a promise.
#[tactic(auto, unfolding(crate::specs::Writing::is_mine))]
fn is_mine(refs: &Refs, name: PromId) -> bool
    ensures { result ≡ is_mine refs.now name }
{
    match refs.place(Value::Prom(name)) {
        Place::Mine(_) => true,
        Place::Near | Place::FarPromise(_, _) | Place::FarObject(_, _) | Place::Gone(_) => false,
    }
}

/// Whether this vat hosts what a value refers to.
#[tactic(auto, unfolding(ev_tables::specs::Standing::is_own, ev_tables::specs::Standing::local_of))]
pub(crate) fn is_ours(refs: &Refs, value: &Value) -> bool
    ensures { result ≡ is_ours refs.now value.now }
{
    match value {
        Value::Obj(_) => true,
        Value::Prom(name) => is_mine(refs, *name),
        _ => false,
    }
}

/// What a note is about, as a value.
pub(crate) fn value_of(reference: Reference) -> Value
    ensures { result ≡ value_of reference }
{
    match reference {
        Reference::Object(object) => Value::Obj(object),
        Reference::Promise(name) => Value::Prom(name),
        Reference::Far(vat, position) => Value::Far(vat, position),
    }
}

/// Gives a value a number for the peer where this vat hosts it and it has none. The connection is open.
#[tactic(auto, unfolding(crate::specs::Writing::numbered_value))]
fn number_value(connection: &mut Connection, inside: &Interior, value: &Value) -> Result<(), Memory>
    ensures { OnOk result (connection.new ≡ numbered_value inside.now.refs value.now connection.old) }
{
    let own = is_ours(&inside.refs, value);
    match number(connection, value, own) {
        Ok(()) => Ok(()),
        Err(_fault) => Err(Memory),
    }
}

/// The same of all that is in what passes.
#[cycle(numbering)]
#[tactic(auto, unfolding(crate::specs::Writing::numbered_parcel))]
fn number_passed(
    connection: &mut Connection,
    inside: &Interior,
    passed: &Passed,
) -> Result<(), Memory>
    ensures { OnOk result (connection.new ≡ numbered_parcel inside.now.refs (parcel passed.now) connection.old) }
{
    match passed {
        Passed::Plain(value) => number_value(connection, inside, value),
        Passed::Gift(_, _) => Ok(()),
        Passed::List(members) => number_all(connection, inside, members.as_slice()),
    }
}

/// The same of several values that pass, from left to right.
#[cycle(numbering)]
fn number_all(
    connection: &mut Connection,
    inside: &Interior,
    passed: &[Passed],
) -> Result<(), Memory>
    ensures { OnOk result (connection.new ≡ numbered_parcels inside.now.refs (all_parcels passed.now) connection.old) }
{
    for part in passed {
        number_passed(connection, inside, part)?;
    }
    Ok(())
}

/// The same of what a message is sent on, and of its arguments.
fn number_message(
    connection: &mut Connection,
    inside: &Interior,
    target: Reference,
    args: &[Passed],
) -> Result<(), Memory>
    ensures { OnOk result (connection.new ≡ numbered_parcels inside.now.refs (all_parcels args.now) (numbered_value inside.now.refs (value_of target) connection.old)) }
{
    number_value(connection, inside, &value_of(target))?;
    number_all(connection, inside, args)
}

/// The same of a name and what it settled to.
fn number_settled(
    connection: &mut Connection,
    inside: &Interior,
    name: PromId,
    passed: &Passed,
) -> Result<(), Memory>
    ensures { OnOk result (connection.new ≡ numbered_parcel inside.now.refs (parcel passed.now) (numbered_value inside.now.refs (value.Prom name) connection.old)) }
{
    number_value(connection, inside, &Value::Prom(name))?;
    number_passed(connection, inside, passed)
}

/// Gives each thing of this vat that a note tells a number for the peer, where it has none. The connection is open.
#[tactic(auto, unfolding(crate::specs::Writing::numbered_note))]
pub(crate) fn number_note(
    connection: &mut Connection,
    inside: &Interior,
    note: &Note,
) -> Result<(), Memory>
    ensures { OnOk result (connection.new ≡ numbered_note inside.now.refs (noted note.now) connection.old) }
{
    match note {
        Note::Deliver {
            message: _,
            answer: _,
            target,
            verb: _,
            args,
        } => number_message(connection, inside, *target, args.as_slice()),
        Note::Open(_, reference) => number_value(connection, inside, &value_of(*reference)),
        Note::Ask(_, _, _) => Ok(()),
        Note::Settled(name, passed) => number_settled(connection, inside, *name, passed),
        Note::Elsewhere(name, _) | Note::Shorten(name, _, _) => {
            number_value(connection, inside, &Value::Prom(*name))
        }
    }
}
