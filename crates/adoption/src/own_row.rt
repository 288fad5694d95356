//! The office's own row.

ghost use Rattle.std.specs.Prelude.{◌≡◌, false, true, Some};
ghost use Rattle.std.specs.List.{list_all};
ghost use Rattle.std.specs.Option.{option_map_or};
ghost use Rattle.sqlite.specs.Effect.{IsDatabase};
ghost use Rattle.sqlite.specs.Value.{owned};
ghost use Rattle.isad_core.specs.Words.{is_between};
ghost use Rattle.office_core.specs.Soundness.{is_country as is_country_code, is_repository as is_repository_code};
ghost use Rattle.office_tables.specs.Cells.{text_in};
ghost use Rattle.office_tables.specs.Schema.{schema};
ghost use Rattle.adoption.specs.Judgments.{Judges, ◌tells◌};
ghost use Rattle.adoption.specs.OwnRows.{are_good_numbers, are_good_texts, numbers_in_row, office_numbers};
ghost use Rattle.adoption.specs.OwnRows.{own_from as own_of_numbers, own_judged, own_row_of};
ghost use Rattle.adoption.specs.OrderedTables.{StandInOrder};

use catalogue_store::Places;
use desk_core::Limits;
use isad_core::{Day, is_day, limits};
use office_tables::{Gathering, StoreFault, Tables, gather};
use row_decoding::{cell, number_in, whole_in};
use sqlite::types::ValueRef;
use sqlite::{Alter, Row};

/// What the checks of the other tables need from the office's own row.
#[derive(Clone, Copy, Debug)]
pub(crate) struct OwnRow {
    pub(crate) limits: Limits,
    pub(crate) today: Day,
    pub(crate) next_unit: u64,
}

/// The numbers in the row, as they are read.
#[derive(Clone, Copy, Debug)]
pub(crate) struct Numbers {
    version: u64,
    seats: u64,
    daily: u64,
    hands: u64,
    run_size: u64,
    day: i64,
    next_unit: u64,
}

/// Reads the numbers, if each can be read and the row's own number is 1.
fn numbers_in(row: &Row) -> Option<Numbers>
    ensures { result ≡ numbers_in_row row.now }
{
    let one = number_in(cell(row, 0))?;
    if one != 1 {
        return None;
    }
    Some(Numbers {
        version: number_in(cell(row, 1))?,
        seats: number_in(cell(row, 2))?,
        daily: number_in(cell(row, 3))?,
        hands: number_in(cell(row, 4))?,
        run_size: number_in(cell(row, 5))?,
        day: whole_in(cell(row, 6))?,
        next_unit: number_in(cell(row, 7))?,
    })
}

/// Whether a number is between 1 and `most`.
fn is_up_to(most: u64, number: u64) -> bool
    ensures { result ≡ is_between 1 most number }
{
    1 <= number && number <= most
}

/// Whether an office of this version may have these numbers.
fn are_good(version: u64, numbers: &Numbers) -> bool
    ensures { result ≡ are_good_numbers version numbers.now }
{
    numbers.version == version
        && is_up_to(limits::MOST_SEATS, numbers.seats)
        && is_up_to(limits::MOST_DAILY, numbers.daily)
        && is_up_to(limits::MOST_HANDS, numbers.hands)
        && is_up_to(limits::MOST_RUN_SIZE, numbers.run_size)
        && is_day(numbers.day)
        && is_up_to(limits::MOST_UNIT_NUMBERS + 1, numbers.next_unit)
}

/// Whether the code is two capital letters.
fn is_country(code: &str) -> bool
    ensures { result ≡ is_country_code code.now }
{
    code.len() == 2 && code.bytes().all(|b| b >= b'A' && b <= b'Z')
}

/// Whether all bytes are visible ASCII: neither spaces nor control characters.
fn are_seen(code: &str) -> bool
    ensures { result ≡ list_all (is_between 33 126) code.now }
{
    code.bytes().all(|b| b >= b'!' && b <= b'~')
}

/// Whether the code is 1 to 32 visible ASCII bytes.
fn is_repository(code: &str) -> bool
    ensures { result ≡ is_repository_code code.now }
{
    is_up_to(32, code.len() as u64) && are_seen(code)
}

/// Whether it is a text, in UTF-8, of two capital letters.
fn is_country_text(value: ValueRef<'_>) -> bool
    ensures { result ≡ option_map_or is_country_code (text_in (owned value.entry)) false }
{
    match value {
        ValueRef::Text(bytes) => match std::str::from_utf8(bytes) {
            Ok(text) => is_country(text),
            Err(_) => false,
        },
        _ => false,
    }
}

/// Whether it is a text, in UTF-8, of 1 to 32 visible ASCII bytes.
fn is_repository_text(value: ValueRef<'_>) -> bool
    ensures { result ≡ option_map_or is_repository_code (text_in (owned value.entry)) false }
{
    match value {
        ValueRef::Text(bytes) => match std::str::from_utf8(bytes) {
            Ok(text) => is_repository(text),
            Err(_) => false,
        },
        _ => false,
    }
}

/// Whether the row has the texts of an office.
fn has_good_texts(row: &Row) -> bool
    ensures { result ≡ are_good_texts row.now }
{
    is_country_text(cell(row, 8)) && is_repository_text(cell(row, 9))
}

/// The office's own row with these numbers, which an office may have.
fn own_from(version: u64, numbers: &Numbers) -> Option<OwnRow>
    requires good { are_good_numbers version numbers.now ≡ true }
    ensures { result ≡ Some (own_of_numbers numbers.now) }
{
    let today = Day::from_number(numbers.day as i32)?;
    Some(OwnRow {
        limits: Limits {
            seats: numbers.seats as u32,
            daily: numbers.daily as u32,
            hands: numbers.hands as u32,
            run: numbers.run_size as u32,
        },
        today,
        next_unit: numbers.next_unit,
    })
}

/// The numbers in the row, if it has the texts of an office.
fn told_in(row: &Row) -> Option<Numbers>
    ensures { result ≡ office_numbers row.now }
{
    let numbers = numbers_in(row)?;
    if !has_good_texts(row) {
        return None;
    }
    Some(numbers)
}

/// The rows of the office taken so far: how many, and the numbers in the last one.
#[derive(Drop)]
struct OwnRows {
    count: u64,
    told: Option<Numbers>,
}

impl Gathering for OwnRows {
    ghost use Rattle.adoption.specs.OwnRows.{AreOwnRows};

    ghost holds = { λ rows all. AreOwnRows rows all.count all.told };

    fn take(&mut self, row: &Row) -> Result<(), StoreFault> {
        if self.count >= u64::MAX {
            return Err(StoreFault::Memory);
        }
        self.count += 1;
        self.told = told_in(row);
        Ok(())
    }
}

/// Reads the office's own row. If the rows of the tables stand in order, returns none exactly if that row cannot be
/// read or no office of this version has such a row. If the call succeeds, even with none, the tables have the
/// definitions of this version and keep its rules.
pub(crate) fn own_row<P: Places, S: Alter>(
    tables: &mut Tables<P, S>,
) -> Result<Option<OwnRow>, StoreFault>
    ensures { Judges S.Store tables.old tables.new result
        tells λ s found.
        (s.now.schema ≡ schema P.version) × IsDatabase s.now
        × (StandInOrder s.now → found ≡ own_row_of P.version s.now.trees) }
{
    let all = gather(
        tables,
        "SELECT one, version, seats, daily, hands, run_size, day, next_unit, country, repo FROM office ORDER BY one",
        OwnRows {
            count: 0,
            told: None,
        },
    )?;
    if all.count != 1 {
        return Ok(None);
    }
    Ok(valid_row(P::number(), all.told))
}

/// The office's own row with these numbers, if an office of this version may have them.
fn valid_row(version: u64, told: Option<Numbers>) -> Option<OwnRow>
    ensures { result ≡ own_judged version told }
{
    let numbers = told?;
    if !are_good(version, &numbers) {
        return None;
    }
    own_from(version, &numbers)
}
