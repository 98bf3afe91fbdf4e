//! What an operation names by the numbers of the vat that hears it.

ghost use Rattle.std.specs.Prelude.{◌≡◌, ◌++◌, All, IfOk, OnOk};
ghost use Rattle.def_op.specs.Views.{all_described, described, operation, outcome};
ghost use Rattle.ev_judge.specs.Named.{WasGiven, found, named, named_all, named_in, named_outcome};
ghost use Rattle.ev_tables.specs.Table.{entry};

use def_op::{Desc, Op, Resolved};
use ev_base::{Memory, Seq, Value};
use ev_tables::Connection;
use std::alloc::Global;

/// What stands under the number of a description, where it is there.
fn note_entry(connection: &Connection, desc: &Desc, values: &mut Vec<Value>) -> Result<(), Memory>
    ensures { OnOk result (values.new.items ≡ values.old.items ++ found (entry (described desc.now) connection.now)) }
{
    if let Some(value) = connection.entry(desc) {
        values.push(value)?;
    }
    Ok(())
}

#[cycle(listing)]
#[tactic(auto, unfolding(crate::specs::Named::named_in))]
fn note_in(connection: &Connection, desc: &Desc, values: &mut Vec<Value>) -> Result<(), Memory>
    ensures { OnOk result (values.new.items ≡ values.old.items ++ named_in connection.now (described desc.now)) }
{
    match desc {
        Desc::YourExport(_) | Desc::YourAnswer(_) => note_entry(connection, desc, values),
        Desc::ListOf(members) => note_all(connection, members.as_slice(), values),
        Desc::Plain(_)
        | Desc::Broken(_)
        | Desc::MyExport(_)
        | Desc::MyPromise(_)
        | Desc::Third { .. }
        | Desc::MyAnswer(_) => Ok(()),
    }
}

/// The same of descriptions, from left to right.
#[cycle(listing)]
fn note_all(connection: &Connection, descs: &[Desc], values: &mut Vec<Value>) -> Result<(), Memory>
    ensures { OnOk result (values.new.items ≡ values.old.items ++ named_all connection.now (all_described descs.now)) }
{
    for desc in descs {
        note_in(connection, desc, values)?;
    }
    Ok(())
}

#[tactic(auto, unfolding(crate::specs::Named::named_outcome))]
fn note_outcome(
    connection: &Connection,
    to: &Resolved,
    values: &mut Vec<Value>,
) -> Result<(), Memory>
    ensures { OnOk result (values.new.items ≡ values.old.items ++ named_outcome connection.now (outcome to.now)) }
{
    match to {
        Resolved::To(desc) => note_in(connection, desc, values),
        Resolved::Elsewhere(_) => Ok(()),
    }
}

#[tactic(auto, unfolding(crate::specs::Named::named))]
fn note_op(connection: &Connection, op: &Op, values: &mut Vec<Value>) -> Result<(), Memory>
    ensures { OnOk result (values.new.items ≡ values.old.items ++ named connection.now (operation op.now)) }
{
    match op {
        Op::Deliver { target, args, .. } | Op::DeliverOnly { target, args, .. } => {
            note_in(connection, target, values)?;
            note_all(connection, args.as_slice(), values)
        }
        Op::Resolve { subject, to } => {
            note_in(connection, subject, values)?;
            note_outcome(connection, to, values)
        }
        Op::Provide { target, .. } => note_in(connection, target, values),
        Op::Accept { .. } => Ok(()),
        Op::Shorten { subject, .. } => note_in(connection, subject, values),
    }
}

/// The values of this vat that an operation of the peer names by its exports and by answers of the peer's questions, from
/// left to right, the target or subject first. A number that is not there names nothing; in an operation that `judge_frame`
/// finds lawful each is there. The lists in the operation are at most so high as `decode` of `ev_op` lets them be.
pub fn named(alloc: Global, connection: &Connection, op: &Op) -> Result<Seq<Value>, Memory>
    ensures exact { IfOk result (λ values. values ≡ named connection.now (operation op.now)) }
    // This vat exported each on the connection, or answered with it.
    ensures given { IfOk result (λ values. All (WasGiven connection.now) values) }
{
    let mut values = Vec::new(alloc);
    note_op(connection, op, &mut values)?;
    Ok(Seq::of(values))
}
