//! What a frame brought is taken in.

ghost use Rattle.std.specs.Prelude.{◌≡◌, ◌++◌, OnOk};
ghost use Rattle.ev_wire.specs.Learnt.{put_all};
ghost use Rattle.ev_wire.specs.Taking.{imported_all};
ghost use Rattle.ev_tables.specs.Table.{imported};

use crate::learnt::LearntTable;
use crate::news::News;
use ev_base::{Memory, Value};
use ev_tables::Connection;

/// A value is imported at the next position of an open connection.
fn import_next(connection: &mut Connection, value: &Value) -> Result<(), Memory>
    ensures { OnOk result (connection.new ≡ imported value.now connection.old) }
{
    let position = connection.next_import();
    match connection.import(position, *value) {
        Ok(()) => Ok(()),
        Err(_fault) => Err(Memory),
    }
}

/// Values are imported at the next positions of an open connection.
fn import_all(connection: &mut Connection, values: &[Value]) -> Result<(), Memory>
    ensures { OnOk result (connection.new ≡ imported_all values.now connection.old) }
{
    for value in values {
        import_next(connection, value)?;
    }
    Ok(())
}

/// Takes in what a frame of the peer of an open connection brought, once its note was received: what came to stand at the next positions,
/// and the gifts that were learnt. A note that does nothing brings nothing, and is not taken in. A closed connection is answered as want
/// of memory. After want of memory some of it is taken in.
pub fn take_in(
    connection: &mut Connection,
    learnt: &mut LearntTable,
    news: &News,
) -> Result<(), Memory>
    ensures imports { OnOk result (connection.new ≡ imported_all news.now.imports connection.old) }
    ensures gifts { OnOk result (learnt.new ≡ put_all news.now.gifts learnt.old) }
{
    import_all(connection, news.imports.as_slice())?;
    learnt.learn_all(&news.gifts)?;
    Ok(())
}
