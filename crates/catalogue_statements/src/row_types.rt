//! The rows of the catalogue's tables, as queries return them.

ghost use Rattle.std.specs.Prelude.{◌≡◌, pos, [], ◌∷◌, true, IfSome, IfOk, IfErr, IsOk};
ghost use Rattle.isad_core.specs.Days.{is_day_number};
ghost use Rattle.sqlite.specs.declared.types.Value.TheVariants.{Int};

use crate::office::OfficeRow;
use isad_core::{Day, Number, Text};
use office_tables::from_row::FromRow;
use office_tables::{StoreFault, number_at};
use sqlite::Row;

/// Whether a unit is a draft, and the number of the first day on which its closure no longer holds, counted from
/// 1970-01-01, which is 0; none if it has no closure.
#[derive(Clone, Copy)]
pub struct Status {
    pub draft: bool,
    pub until: Option<i32>,
}

impl FromRow for Status {
    ghost use Rattle.std.specs.Prelude.{[], ◌∷◌, IfSome};
    ghost use Rattle.std.specs.Int.{w32};
    ghost use Rattle.std.proofs.Common.{SFits};
    ghost use Rattle.office_tables.specs.Flags.{flag};
    ghost use Rattle.sqlite.specs.Values.{or_null};
    ghost use Rattle.sqlite.specs.declared.types.Value.TheVariants.{Int};

    ghost cells = { λ s. Int (flag s.draft) ∷ or_null Int s.until ∷ [] };

    ghost is_legible = { λ s. IfSome s.until (SFits w32) };

    fn read(row: &Row) -> Result<Status, StoreFault> {
        Ok(Status {
            draft: row.get(0)?,
            until: row.get(1)?,
        })
    }
}

/// A unit's level, whether it is a draft, and the first day on which its closure no longer holds, or none if it has no
/// closure.
#[derive(Drop)]
pub struct Standing {
    pub level: Text,
    pub draft: bool,
    pub until: Option<Day>,
}

/// The day with this number, or none if there is no number. Fails with `StoreFault::Schema` if no day of the calendar
/// has it.
fn day_of(number: Option<i32>) -> Result<Option<Day>, StoreFault>
    ensures value { IfOk result (λ day. day ≡ number) }
    ensures days { IfSome number (λ n. is_day_number n ≡ true) → IsOk result }
    ensures fair { IfErr result (λ e. e ≡ StoreFault.Schema) }
{
    let Some(number) = number else {
        return Ok(None);
    };
    match Day::from_number(number) {
        Some(day) => Ok(Some(day)),
        None => Err(StoreFault::Schema),
    }
}

impl FromRow for Standing {
    ghost use Rattle.std.specs.Prelude.{[], ◌∷◌, ◌≡◌, true, IfSome, IsUtf8};
    ghost use Rattle.isad_core.specs.Days.{is_day_number};
    ghost use Rattle.office_tables.specs.Flags.{flag};
    ghost use Rattle.sqlite.specs.Values.{or_null};
    ghost use Rattle.sqlite.specs.declared.types.Value.TheVariants.{Int, Text as words_cell};

    ghost cells = { λ s. words_cell s.level ∷ Int (flag s.draft) ∷ or_null Int s.until ∷ [] };

    ghost is_legible = { λ s. IsUtf8 s.level × IfSome s.until (λ day. is_day_number day ≡ true) };

    fn read(row: &Row) -> Result<Standing, StoreFault> {
        Ok(Standing {
            level: Text(row.get(0)?),
            draft: row.get(1)?,
            until: day_of(row.get(2)?)?,
        })
    }
}

/// A text of a unit, with the number of its element: 1 to 26, without 4.
#[derive(Drop)]
pub struct Element {
    pub k: u64,
    pub value: Text,
}

impl FromRow for Element {
    ghost use Rattle.std.specs.Prelude.{pos, [], ◌∷◌, IsUtf8};
    ghost use Rattle.sqlite.specs.declared.types.Value.TheVariants.{Int, Text as words_cell};

    ghost cells = { λ e. Int (pos e.k) ∷ words_cell e.value ∷ [] };

    ghost is_legible = { λ e. IsUtf8 e.value };

    fn read(row: &Row) -> Result<Element, StoreFault> {
        Ok(Element {
            k: row.get(0)?,
            value: Text(row.get(1)?),
        })
    }
}

/// A container of a unit: its number, and its place in the unit's order, from 1.
#[derive(Clone, Copy)]
pub struct Housing {
    pub ord: Number,
    pub container: Number,
}

impl FromRow for Housing {
    ghost use Rattle.std.specs.Prelude.{pos, [], ◌∷◌, ⊤};
    ghost use Rattle.sqlite.specs.declared.types.Value.TheVariants.{Int};

    ghost cells = { λ h. Int (pos h.ord) ∷ Int (pos h.container) ∷ [] };

    ghost is_legible = { λ _. ⊤ };

    fn read(row: &Row) -> Result<Housing, StoreFault> {
        Ok(Housing {
            ord: number_at(row, 0)?,
            container: number_at(row, 1)?,
        })
    }
}

impl FromRow for OfficeRow {
    ghost use Rattle.catalogue_statements.specs.Settings.{AreLegibleSettings};
    ghost use Rattle.catalogue_statements.specs.Rows.{settings_of_row};

    ghost cells = { settings_of_row };

    ghost is_legible = { AreLegibleSettings };

    fn read(row: &Row) -> Result<OfficeRow, StoreFault> {
        let number: i32 = row.get(6)?;
        let Some(day) = Day::from_number(number) else {
            return Err(StoreFault::Schema);
        };
        Ok(OfficeRow {
            country: Text(row.get(0)?),
            repo: Text(row.get(1)?),
            seats: row.get(2)?,
            daily: row.get(3)?,
            hands: row.get(4)?,
            run_size: row.get(5)?,
            day,
            next_unit: number_at(row, 7)?,
        })
    }
}
