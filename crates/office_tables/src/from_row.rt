//! Rows that a query returns, read one by one.

ghost use Rattle.std.specs.Prelude.{◌≡◌, ◌≢◌, ◌<◌, ◌^◌, ℕ, pos, List, [], ◌∷◌, map, slice_index_or, IfOk, IfErr};
ghost use Rattle.std.specs.List.{AllByRecursion};
ghost use Rattle.sqlite.specs.declared.types.Value.TheVariants.{Int};

use crate::fault::StoreFault;
use crate::number::{number_at, number_or_null_at};
use isad_core::{BoxKey, Number, Text};
use sqlite::Row;
use std::alloc::Global;
use tree_core::Link;

/// A record that can be read from a row of a query.
pub trait FromRow {
    ghost use Rattle.sqlite.specs.Order.{Row};

    /// The cells that represent it.
    ghost cells: { Self → Row };

    /// The record is legible: if a row has its cells, reading it fails only for want of memory. A type that does not
    /// define this promises nothing about faults but that none is `Disk`.
    ghost is_legible: { Self → Type 0 } = { λ _. ⊥ };

    /// Reads a row. If the row has the cells of a record, the result is that record, and if that is legible, the only
    /// fault is `Memory`. No fault is `Disk`.
    fn read(row: &Row) -> Result<Self, StoreFault>
    where
        Self: Sized,
        ensures value { (x : Self) → row.now ≡ cells x → IfOk result (λ y. y ≡ x) }
        ensures faults { (x : Self) → row.now ≡ cells x → is_legible x → IfErr result (λ e. e ≡ StoreFault.Memory) }
        ensures fair { IfErr result (λ e. e ≢ StoreFault.Disk) };
}

impl FromRow for u64 {
    ghost use Rattle.std.specs.Prelude.{pos, [], ◌∷◌, ⊤};
    ghost use Rattle.sqlite.specs.declared.types.Value.TheVariants.{Int};

    ghost cells = { λ n. Int (pos n) ∷ [] };

    ghost is_legible = { λ _. ⊤ };

    fn read(row: &Row) -> Result<u64, StoreFault> {
        Ok(row.get(0)?)
    }
}

impl FromRow for Option<u64> {
    ghost use Rattle.std.specs.Prelude.{pos, [], ◌∷◌, option_map, ⊤};
    ghost use Rattle.sqlite.specs.Values.{or_null};
    ghost use Rattle.sqlite.specs.declared.types.Value.TheVariants.{Int};

    ghost cells = { λ n. or_null Int (option_map pos n) ∷ [] };

    ghost is_legible = { λ _. ⊤ };

    fn read(row: &Row) -> Result<Option<u64>, StoreFault> {
        Ok(row.get(0)?)
    }
}

impl FromRow for Number {
    ghost use Rattle.std.specs.Prelude.{pos, [], ◌∷◌, ⊤};
    ghost use Rattle.sqlite.specs.declared.types.Value.TheVariants.{Int};

    ghost cells = { λ n. Int (pos n) ∷ [] };

    ghost is_legible = { λ _. ⊤ };

    fn read(row: &Row) -> Result<Number, StoreFault> {
        number_at(row, 0)
    }
}

impl FromRow for Option<Number> {
    ghost use Rattle.std.specs.Prelude.{pos, [], ◌∷◌, option_map, ⊤};
    ghost use Rattle.sqlite.specs.Values.{or_null};
    ghost use Rattle.sqlite.specs.declared.types.Value.TheVariants.{Int};

    ghost cells = { λ n. or_null Int (option_map pos n) ∷ [] };

    ghost is_legible = { λ _. ⊤ };

    fn read(row: &Row) -> Result<Option<Number>, StoreFault> {
        number_or_null_at(row, 0)
    }
}

impl FromRow for Text {
    ghost use Rattle.std.specs.Prelude.{[], ◌∷◌, IsUtf8};
    ghost use Rattle.sqlite.specs.declared.types.Value.TheVariants.{Text as words_cell};

    ghost cells = { λ t. words_cell t ∷ [] };

    ghost is_legible = { λ t. IsUtf8 t };

    fn read(row: &Row) -> Result<Text, StoreFault> {
        Ok(Text(row.get(0)?))
    }
}

impl FromRow for BoxKey {
    ghost use Rattle.std.specs.Prelude.{[], ◌∷◌};
    ghost use Rattle.isad_core.specs.LegibleValues.{IsLegibleBox};
    ghost use Rattle.sqlite.specs.declared.types.Value.TheVariants.{Text as words_cell};

    ghost cells = { λ b. words_cell b.name ∷ words_cell b.location ∷ words_cell b.kind ∷ [] };

    ghost is_legible = { IsLegibleBox };

    fn read(row: &Row) -> Result<BoxKey, StoreFault> {
        Ok(BoxKey {
            name: Text(row.get(0)?),
            location: Text(row.get(1)?),
            kind: Text(row.get(2)?),
        })
    }
}

impl FromRow for Link {
    ghost use Rattle.std.specs.Prelude.{pos, [], ◌∷◌, option_map, ◌<◌, ◌^◌};
    ghost use Rattle.sqlite.specs.Values.{or_null};
    ghost use Rattle.sqlite.specs.declared.types.Value.TheVariants.{Int};

    ghost cells = { λ l. Int (pos l.id) ∷ or_null Int (option_map pos l.parent) ∷ Int (pos l.ord) ∷ [] };

    ghost is_legible = { λ l. l.ord < 2 ^ 32 };

    fn read(row: &Row) -> Result<Link, StoreFault> {
        Ok(Link {
            id: number_at(row, 0)?,
            parent: number_or_null_at(row, 1)?,
            ord: row.get(2)?,
        })
    }
}

/// Reads all rows that a query returned, in their order. If each has the cells of a legible record, the only fault is
/// `Memory`. No fault is `Disk`.
pub fn read_all<T: FromRow + Drop>(alloc: Global, rows: &[Row]) -> Result<Vec<T>, StoreFault>
    ensures value { (xs : List T) → rows.now ≡ map T.cells xs → IfOk result (λ all. all.items ≡ xs) }
    ensures faults { (xs : List T) → rows.now ≡ map T.cells xs → AllByRecursion T.is_legible xs
        → IfErr result (λ e. e ≡ StoreFault.Memory) }
    ensures fair { IfErr result (λ e. e ≢ StoreFault.Disk) }
{
    let mut all = Vec::new(alloc);
    for row in rows {
        all.push(T::read(row)?)?;
    }
    Ok(all)
}

/// The number in the first row, or 0 if there is no row. Each row must have one cell, with a number from 0 on. If all
/// these numbers are below 2^32, the only fault is `Memory`. No fault is `Disk`.
pub fn first_or_zero(rows: &[Row]) -> Result<u32, StoreFault>
    ensures value { (xs : List ℕ) → rows.now ≡ map (λ n. Int (pos n) ∷ []) xs
        → IfOk result (λ n. n ≡ slice_index_or xs 0 0) }
    ensures faults { (xs : List ℕ) → rows.now ≡ map (λ n. Int (pos n) ∷ []) xs → AllByRecursion (λ n. n < 2 ^ 32) xs
        → IfErr result (λ e. e ≡ StoreFault.Memory) }
    ensures fair { IfErr result (λ e. e ≢ StoreFault.Disk) }
{
    match rows.first() {
        Some(row) => Ok(row.get(0)?),
        None => Ok(0),
    }
}
