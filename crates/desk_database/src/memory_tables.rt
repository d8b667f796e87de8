ghost use Rattle.std.specs.Prelude.{◌≡◌};
ghost use Rattle.sqlite_store.specs.Catalog.{wanted_of};
ghost use Rattle.desk_database.specs.MemoryTables.{desk_table, device_table};

use sqlite_trees::schema::Object;
use sqlite_trees::store::Shape;

/// What `sqlite_schema` says of the table of devices, byte for byte.
pub const DEVICE_TABLE: &str = "CREATE TABLE device (place INTEGER PRIMARY KEY, \
    name TEXT NOT NULL, key BLOB NOT NULL, moves INTEGER NOT NULL, gone TEXT, \
    count INTEGER NOT NULL, outstanding INTEGER, number INTEGER, answer TEXT) STRICT";

/// What it says of the table of the desk.
pub const DESK_TABLE: &str = "CREATE TABLE desk (place INTEGER PRIMARY KEY, \
    name TEXT NOT NULL, version INTEGER NOT NULL) STRICT";

/// The first object of a memory's file.
pub fn device_table() -> Object<'static>
    ensures { wanted_of result ≡ device_table }
{
    Object {
        shape: Shape::Table,
        kind: "table",
        name: "device",
        table: "device",
        reals: 0,
        sql: Some(DEVICE_TABLE),
    }
}

/// The second.
pub fn desk_table() -> Object<'static>
    ensures { wanted_of result ≡ desk_table }
{
    Object {
        shape: Shape::Table,
        kind: "table",
        name: "desk",
        table: "desk",
        reals: 0,
        sql: Some(DESK_TABLE),
    }
}
