//! Numbers for what a vat tells a peer.

ghost use Rattle.std.specs.Prelude.{◌≡◌, None, is_some, IfErr, OnErr, OnOk};
ghost use Rattle.def_op.specs.Views.{described};
ghost use Rattle.ev_tables.specs.Numbering.{described_by, described_in, numbered};
ghost use Rattle.ev_tables.specs.Table.{IsExportFault, name_of};

use crate::{Connection, TableFault};
use def_op::Desc;
use ev_base::Value;

/// Gives a value a number for the peer where it has none and this vat hosts it: the next position. A refusal changes
/// nothing.
#[tactic(auto, unfolding(crate::specs::Numbering::numbered))]
pub fn number(connection: &mut Connection, value: &Value, own: bool) -> Result<(), TableFault>
    ensures ok { OnOk result (connection.new ≡ numbered own value.now connection.old) }
    ensures err { OnErr result (connection.new ≡ connection.old) }
    ensures fault { IfErr result (λ e. IsExportFault connection.old e) }
{
    if !own || is_numbered(connection, *value) {
        return Ok(());
    }
    match connection.export(*value) {
        Ok(_position) => Ok(()),
        Err(fault) => Err(fault),
    }
}

/// Whether a value has a number. It takes no memory.
pub fn is_numbered(connection: &Connection, value: Value) -> bool
    ensures { result ≡ is_some (name_of value connection.now.names) }
{
    match connection.describe(value) {
        Some(_desc) => true,
        None => false,
    }
}

/// How this vat describes a value to the peer: by the number that came first. What has no number is described as what
/// comes next: the answer of the peer's next question where this vat hosts it, and else the peer's next export. It takes
/// no memory.
#[tactic(auto, unfolding(crate::specs::Numbering::described_in, crate::specs::Numbering::described_by))]
pub fn describe(connection: &Connection, value: Value, own: bool) -> Desc
    ensures { described result ≡ described_in own value connection.now }
{
    match connection.describe(value) {
        Some(desc) => desc,
        None => next_desc(connection, own),
    }
}

/// The description of what has no number.
#[tactic(auto, unfolding(crate::specs::Numbering::described_by))]
fn next_desc(connection: &Connection, own: bool) -> Desc
    ensures { described result ≡ described_by own connection.now None }
{
    if own {
        return Desc::MyAnswer(connection.next_answer());
    }
    Desc::YourExport(connection.next_import())
}
