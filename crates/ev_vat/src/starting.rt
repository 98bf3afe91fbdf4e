//! What a vat has for its peers at the start of a run.

ghost use Rattle.std.specs.Prelude.{◌≡◌, IfOk, OnOk};
ghost use Rattle.def_machine.specs.State.{is_in};
ghost use Rattle.ev_base.specs.declared.values.Value.TheVariants as held;
ghost use Rattle.ev_vat.specs.Starting.{first_table, first_tables, imported_if, root_in};
ghost use Rattle.ev_tables.specs.Table.{exported, imported};

use ev_base::{Memory, PromId, Value, VatId};
use ev_tables::Connection;
use std::alloc::Global;

/// The name of the vat's root, the first that it knows.
const ROOT: PromId = PromId(0);

/// Whether a vat is among these.
#[tactic(auto, unfolding(def_machine::specs::State::is_in))]
fn is_among(vat: VatId, vats: &[VatId]) -> bool
    ensures { result ≡ is_in vat vats.now }
{
    for other in vats {
        if vat == *other {
            return true;
        }
    }
    false
}

/// The number of the root of a vat, where the vat knows these, in order, behind its own root.
fn root_of(vat: VatId, knows: &[VatId]) -> Option<PromId>
    ensures { result ≡ root_in 1 vat knows.now }
{
    for index in 0..knows.len() {
        if knows[index] == vat {
            return Some(PromId(index as u64 + 1));
        }
    }
    None
}

/// The vat's root is exported on a connection on which nothing passed.
fn export_root(connection: &mut Connection) -> Result<(), Memory>
    ensures { OnOk result (connection.new ≡ exported (held.Prom 0) connection.old) }
{
    match connection.export(Value::Prom(ROOT)) {
        Ok(_position) => Ok(()),
        Err(_fault) => Err(Memory),
    }
}

/// The peer's root is imported at the next position, if the vat knows it.
fn import_root(connection: &mut Connection, root: Option<PromId>) -> Result<(), Memory>
    ensures { OnOk result (connection.new ≡ imported_if root connection.old) }
{
    match root {
        Some(name) => {
            let position = connection.next_import();
            match connection.import(position, Value::Prom(name)) {
                Ok(()) => Ok(()),
                Err(_fault) => Err(Memory),
            }
        }
        None => Ok(()),
    }
}

/// What a vat has for another: its root is exported to those that know it, and the roots that it knows are imported.
fn first_connection(
    alloc: Global,
    me: VatId,
    peer: VatId,
    knows: &[VatId],
    known_by: &[VatId],
) -> Result<Connection, Memory>
    ensures { IfOk result (λ t. t ≡ first_table me peer knows.now known_by.now) }
{
    let mut connection = Connection::new(alloc, peer);
    if me != peer {
        if is_among(peer, known_by) {
            export_root(&mut connection)?;
        }
        import_root(&mut connection, root_of(peer, knows))?;
    }
    Ok(connection)
}

/// What a vat has for each of so many, by number. For itself it has an unused one.
pub fn first_connections(
    alloc: Global,
    me: VatId,
    count: u8,
    knows: &[VatId],
    known_by: &[VatId],
) -> Result<Vec<Connection>, Memory>
    ensures { IfOk result (λ ts. ts.items ≡ first_tables me 0 count knows.now known_by.now) }
{
    let mut connections = Vec::new(alloc);
    for peer in 0..count {
        connections.push(first_connection(alloc, me, VatId(peer), knows, known_by)?)?;
    }
    Ok(connections)
}
