//! Whether a store has nothing in it yet.

ghost use Rattle.std.specs.Prelude.{◌≡◌, ◌↔◌, IsTrue};
ghost use Rattle.sqlite.specs.Held.{state};
ghost use Rattle.office_tables.specs.Schema.{no_schema};

use sqlite::{Alter, Connection};

/// Whether the store has no table, no index and no view.
pub fn is_blank<S: Alter>(conn: &Connection<S>) -> bool
    ensures { IsTrue result ↔ ((state S.Store conn.now).now.schema ≡ no_schema) }
{
    let schema = conn.schema();
    schema.tables.is_empty() && schema.indexes.is_empty() && schema.views.is_empty()
}
