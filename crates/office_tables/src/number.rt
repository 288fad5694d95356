//! Numbers in rows, and as parameters of statements.

ghost use Rattle.std.specs.Prelude.{◌≡◌, ◌+◌, ◌<◌, ◌≤◌, ◌^◌, ℕ, Option, pos, length, option_map, IfOk, IfErr, IsOk};
ghost use Rattle.sqlite.specs.Value.{owned};
ghost use Rattle.sqlite.specs.Order.{column};
ghost use Rattle.sqlite.specs.Values.{or_null};
ghost use Rattle.sqlite.specs.declared.types.Value.TheVariants.{Int};

use crate::fault::StoreFault;
use isad_core::Number;
use sqlite::Row;
use sqlite::types::ValueRef;

/// The number that is greater than this one by `further`. Fails, with `StoreFault::Schema`, if that is 2^63 or greater,
/// and only then.
pub fn number_after(number: Number, further: u64) -> Result<Number, StoreFault>
    ensures same { IfOk result (λ next. next ≡ number + further) }
    ensures great { IfErr result (λ _. 2 ^ 63 ≤ number + further) }
    ensures fair { IfErr result (λ e. e ≡ StoreFault.Schema) }
{
    match number.plus(further) {
        Some(next) => Ok(next),
        None => Err(StoreFault::Schema),
    }
}

/// The number as a parameter of a statement.
pub fn cell<'a>(number: Number) -> ValueRef<'a>
    ensures { owned result ≡ Int (pos number) }
{
    ValueRef::Int(number.get() as i64)
}

/// The number as a parameter of a statement, or NULL for none.
pub fn cell_or_null<'a>(number: Option<Number>) -> ValueRef<'a>
    ensures { owned result ≡ or_null Int (option_map pos number) }
{
    match number {
        Some(number) => cell(number),
        None => ValueRef::Null,
    }
}

/// The number in the column at this place; places count from 0. Fails with `StoreFault::Schema` if there is no such
/// column, or anything else in it than a whole number from 0 on.
pub fn number_at(row: &Row, at: usize) -> Result<Number, StoreFault>
    ensures value { IfOk result (λ n. column row.now at ≡ Int (pos n)) }
    ensures known { (n : ℕ) → at < length row.now → column row.now at ≡ Int (pos n) → IsOk result }
    ensures fair { IfErr result (λ e. e ≡ StoreFault.Schema) }
{
    let ValueRef::Int(n) = row.get_ref(at)? else {
        return Err(StoreFault::Schema);
    };
    if n < 0 {
        return Err(StoreFault::Schema);
    }
    match Number::of(n as u64) {
        Some(number) => Ok(number),
        None => Err(StoreFault::Schema),
    }
}

/// The number in the column at this place, or none if NULL is in it; places count from 0. Fails with
/// `StoreFault::Schema` if there is no such column, or anything else in it than NULL or a whole number from 0 on.
pub fn number_or_null_at(row: &Row, at: usize) -> Result<Option<Number>, StoreFault>
    ensures value { IfOk result (λ n. column row.now at ≡ or_null Int (option_map pos n)) }
    ensures known { (n : Option ℕ) → at < length row.now → column row.now at ≡ or_null Int (option_map pos n)
        → IsOk result }
    ensures fair { IfErr result (λ e. e ≡ StoreFault.Schema) }
{
    if let ValueRef::Null = row.get_ref(at)? {
        return Ok(None);
    }
    Ok(Some(number_at(row, at)?))
}
