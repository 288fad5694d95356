//! Decoding cells of doubtful origin.

ghost use Rattle.std.specs.Prelude.{◌≡◌};
ghost use Rattle.sqlite.specs.Order.{column};
ghost use Rattle.sqlite.specs.Value.{owned};
ghost use Rattle.office_tables.specs.Cells.{number_in as number_said, whole_in as whole_said, or_null_in};

use isad_core::Number;
use office_tables::number_at;
use sqlite::Row;
use sqlite::types::ValueRef;

/// The cell in the column at this place, counted from 0, or null past the last column.
pub fn cell(row: &Row, at: usize) -> ValueRef<'_>
    ensures { owned result ≡ column row.now at }
{
    match row.get_ref(at) {
        Ok(value) => value,
        Err(_) => ValueRef::Null,
    }
}

/// The value as a whole number from 0 on, or none if it is not one.
pub fn number_in(value: ValueRef<'_>) -> Option<u64>
    ensures { result ≡ number_said (owned value.entry) }
{
    match value {
        ValueRef::Int(n) if n >= 0 => Some(n as u64),
        _ => None,
    }
}

/// The number in the column at this place, counted from 0: a whole number from 0 on. None if anything else is there, or
/// no column.
pub fn number_of(row: &Row, at: usize) -> Option<Number>
    ensures { result ≡ number_said (column row.now at) }
{
    number_at(row, at).ok()
}

/// The value as a whole number, or none if it is not one.
pub fn whole_in(value: ValueRef<'_>) -> Option<i64>
    ensures { result ≡ whole_said (owned value.entry) }
{
    match value {
        ValueRef::Int(n) => Some(n),
        _ => None,
    }
}

/// The value as null (`Some(None)`) or as a whole number from 0 on, or none if it is neither.
pub fn number_or_null_in(value: ValueRef<'_>) -> Option<Option<u64>>
    ensures { result ≡ or_null_in number_said (owned value.entry) }
{
    match value {
        ValueRef::Null => Some(None),
        ValueRef::Int(n) if n >= 0 => Some(Some(n as u64)),
        _ => None,
    }
}

/// What is in the column at this place, counted from 0: null (`Some(None)`), also past the last column, or a whole
/// number from 0 on. None if it is neither.
pub(crate) fn number_or_null_of(row: &Row, at: usize) -> Option<Option<Number>>
    ensures { result ≡ or_null_in number_said (column row.now at) }
{
    match cell(row, at) {
        ValueRef::Null => Some(None),
        ValueRef::Int(_) => Some(Some(number_of(row, at)?)),
        _ => None,
    }
}
