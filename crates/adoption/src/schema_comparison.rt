//! Whether two schemas are the same.

ghost use Rattle.std.specs.Prelude.{◌≡◌, ◌↔◌, IsTrue};
ghost use Rattle.std.specs.List.{AllByRecursion};
ghost use Rattle.adoption.specs.PlainSchemas.{HaveSameRows, HaveSameRules, IsPlainTable, no_stamps};

use sqlite_items::Items;
use sqlite_schema::schema::{Column, Index, Reference, Schema, Stamps, Table};
use sqlite_value::keys::Order;
use sqlite_value::value::{Bytes, Value};

/// A part of a schema that can be compared with a plain one, which has none of the expressions and values that our
/// tables do not use.
pub(crate) trait Same {
    ghost use Rattle.std.specs.Prelude.{◌≡◌, ◌↔◌, IsTrue};

    ghost is_plain: { Self → Type 0 };

    /// Whether they are the same.
    fn is_same(&self, plain: &Self) -> bool
        requires plain { is_plain plain.now }
        ensures same { IsTrue result ↔ (self.now ≡ plain.now) };
}

impl Same for usize {
    ghost use Rattle.std.specs.Prelude.{⊤};

    ghost is_plain = { λ _. ⊤ };

    fn is_same(&self, plain: &usize) -> bool {
        *self == *plain
    }
}

impl Same for Bytes {
    ghost use Rattle.std.specs.Prelude.{⊤};

    ghost is_plain = { λ _. ⊤ };

    fn is_same(&self, plain: &Bytes) -> bool {
        self.as_slice() == plain.as_slice()
    }
}

impl Same for Order {
    ghost use Rattle.std.specs.Prelude.{⊤};

    ghost is_plain = { λ _. ⊤ };

    fn is_same(&self, plain: &Order) -> bool {
        self.digits == plain.digits
    }
}

/// Whether they are the same, one by one.
fn are_same<T: Same>(these: &[T], plain: &[T]) -> bool
    requires plain { AllByRecursion T.is_plain plain.now }
    ensures same { IsTrue result ↔ (these.now ≡ plain.now) }
{
    if these.len() != plain.len() {
        return false;
    }
    for at in 0..plain.len() {
        if !these[at].is_same(&plain[at]) {
            return false;
        }
    }
    true
}

impl<T: Same> Same for Items<T> {
    ghost use Rattle.std.specs.List.{AllByRecursion};

    ghost is_plain = { AllByRecursion T.is_plain };

    fn is_same(&self, plain: &Items<T>) -> bool {
        are_same(self.as_slice(), plain.as_slice())
    }
}

impl Same for Column {
    ghost use Rattle.adoption.specs.PlainSchemas.{IsPlainColumn};

    ghost is_plain = { IsPlainColumn };

    fn is_same(&self, plain: &Column) -> bool {
        self.name.is_same(&plain.name)
            && self.kind == plain.kind
            && self.is_strict == plain.is_strict
            && self.not_null == plain.not_null
            && matches!(self.default, Value::Null)
            && self.collation == plain.collation
    }
}

impl Same for Reference {
    ghost use Rattle.std.specs.Prelude.{⊤};

    ghost is_plain = { λ _. ⊤ };

    fn is_same(&self, plain: &Reference) -> bool {
        self.columns.is_same(&plain.columns)
            && self.parent.is_same(&plain.parent)
            && self.parent_columns.is_same(&plain.parent_columns)
            && self.on_delete == plain.on_delete
            && self.on_update == plain.on_update
            && self.is_deferred == plain.is_deferred
    }
}

impl Same for Index {
    ghost use Rattle.std.specs.Prelude.{⊤};

    ghost is_plain = { λ _. ⊤ };

    fn is_same(&self, plain: &Index) -> bool {
        self.name.is_same(&plain.name)
            && self.tree == plain.tree
            && self.table == plain.table
            && self.columns.is_same(&plain.columns)
            && self.order.is_same(&plain.order)
            && self.is_unique == plain.is_unique
    }
}

impl Same for Table {
    ghost use Rattle.std.specs.Prelude.{◌≡◌};
    ghost use Rattle.adoption.specs.PlainSchemas.{IsPlainTable};

    ghost is_plain = { IsPlainTable };

    fn is_same(&self, plain: &Table) -> bool {
        has_same_rows(self, plain) && has_same_rules(self, plain)
    }
}

/// Whether their names, trees, columns and keys are the same.
fn has_same_rows(table: &Table, plain: &Table) -> bool
    requires plain { IsPlainTable plain.now }
    ensures same { IsTrue result ↔ HaveSameRows table.now plain.now }
{
    table.name.is_same(&plain.name)
        && table.tree == plain.tree
        && table.columns.is_same(&plain.columns)
        && table.key == plain.key
        && table.primary.is_same(&plain.primary)
        && table.uniques.is_same(&plain.uniques)
        && table.orders.is_same(&plain.orders)
}

/// Whether their rules are the same.
fn has_same_rules(table: &Table, plain: &Table) -> bool
    requires plain { IsPlainTable plain.now }
    ensures same { IsTrue result ↔ HaveSameRules table.now plain.now }
{
    table.checks.roots.is_empty()
        && table.references.is_same(&plain.references)
        && table.computed.is_same(&plain.computed)
        && has_no_stamps(&table.stamps)
        && table.is_counted == plain.is_counted
}

/// Whether no default reads the time.
fn has_no_stamps(stamps: &Stamps) -> bool
    ensures none { IsTrue result ↔ (stamps.now ≡ no_stamps) }
{
    stamps.places.is_empty() && stamps.terms.roots.is_empty() && stamps.formats.is_empty()
}

impl Same for Schema {
    ghost use Rattle.adoption.specs.PlainSchemas.{IsPlainSchema};

    ghost is_plain = { IsPlainSchema };

    fn is_same(&self, plain: &Schema) -> bool {
        self.tables.is_same(&plain.tables)
            && self.indexes.is_same(&plain.indexes)
            && self.views.is_empty()
    }
}
