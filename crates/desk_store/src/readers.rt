//! Tickets and their readers.

ghost use Rattle.std.specs.Prelude.{◌≡◌, ◌<◌, ◌≤◌, nat_eq, true, false, [], ◌∷◌, find};
ghost use Rattle.std.specs.Prelude.{length, option_map, IfOk, is_some};
ghost use Rattle.std.specs.List.{AllByRecursion, list_any};
ghost use Rattle.sqlite.specs.Held.{state};
ghost use Rattle.sqlite.specs.State.{HasCleanDisk};
ghost use Rattle.isad_core.specs.Limits.{most_tickets};
ghost use Rattle.desk_core.specs.DeskRows.{Desk, ReaderRow};
ghost use Rattle.office_tables.specs.Premises.{◌when◌leaves◌, ◌when◌within◌gives◌, ◌within◌adds◌, ◌within◌gives◌};
ghost use Rattle.office_tables.specs.Query.{Reads};
ghost use Rattle.office_tables.specs.Calls.{StoreUpdates, StoreAnswers};
ghost use Rattle.office_tables.specs.Faults.{FaultsHaveCause};
ghost use Rattle.office_tables.specs.Schema as schema;
ghost use Rattle.office_tables.specs.Step.{Holds};
ghost use Rattle.office_tables.specs.TableStatements.{Changes, LooksUp, Puts};
ghost use Rattle.desk_store.specs.Readers.{next_ticket, reader_with, with_reader, renewed_readers, with_last_day};
ghost use Rattle.desk_store.specs.Rows.{reader_cells};
ghost use Rattle.desk_store.specs.Representation.{IsLegibleReader, RepresentsDesk, RepresentsDeskAlone, IsLegible};
ghost use Rattle.office_tables.specs.RowNumbers.{AreCounted};

use isad_core::{Day, Number, Text, limits};
use office_tables::from_row::FromRow;
use office_tables::value::{day, words};
use office_tables::{StoreFault, Tables, Versioned, cell, change, find_number, find_one};
use sqlite::{Alter, Row};
use std::alloc::Global;

/// The greatest number of tickets that may ever be given.
const MOST_TICKETS: u32 = limits::MOST_TICKETS as u32;

/// The row of a reader, without the ticket.
#[derive(Debug, Drop)]
pub(crate) struct NamedReader {
    pub name: Text,
    /// The last day of the ticket.
    pub until: Day,
}

impl FromRow for NamedReader {
    ghost use Rattle.std.specs.Prelude.{◌≡◌, [], ◌∷◌, true, IsUtf8};
    ghost use Rattle.sqlite.specs.declared.types.Value.TheVariants.{Int, Text as words_cell};
    ghost use Rattle.isad_core.specs.Days.{is_day_number};

    ghost cells = { λ r. words_cell r.name ∷ Int r.until ∷ [] };

    ghost is_legible = { λ r. IsUtf8 r.name × (is_day_number r.until ≡ true) };

    fn read(row: &Row) -> Result<NamedReader, StoreFault> {
        let number: i32 = row.get(1)?;
        let Some(until) = Day::from_number(number) else {
            return Err(StoreFault::Schema);
        };
        Ok(NamedReader {
            name: Text(row.get(0)?),
            until,
        })
    }
}

/// The name of the reader who has this ticket, and its last day, or none if the ticket was not given. A ticket is the
/// number of its row. If a row is not legible, it may fail with `Schema`.
pub(crate) fn find_reader<P: Versioned, S: Alter>(
    alloc: Global,
    tables: &mut Tables<P, S>,
    ticket: Number,
) -> Result<Option<NamedReader>, StoreFault>
    ensures { LooksUp S.Store (Holds schema.reader reader_cells) tables.old tables.new result
        when AreCounted (λ r. r.ticket) within AllByRecursion IsLegibleReader
        gives λ xs found. found ≡ option_map (λ (r : ReaderRow). record { name = r.name; until = r.until })
        (find (λ r. nat_eq ticket r.ticket) xs) }
{
    find_one(
        alloc,
        tables,
        "SELECT name, until FROM reader WHERE ticket = ?1 ORDER BY ticket",
        &[cell(ticket)],
    )
}

/// How many tickets were given. This is the greatest ticket, in the table's last row. Tickets must be numbered from 1,
/// and be no more than `MOST_TICKETS`.
fn last_ticket<P: Versioned, S: Alter>(tables: &mut Tables<P, S>) -> Result<u32, StoreFault>
    ensures { LooksUp S.Store (Holds schema.reader reader_cells) tables.old tables.new result
        when AreCounted (λ r. r.ticket) within (λ xs. AreCounted (λ r. r.ticket) xs × (length xs ≤ most_tickets))
        gives λ xs n. n ≡ length xs }
{
    find_number(
        tables,
        "SELECT ticket FROM reader ORDER BY ticket DESC LIMIT 1",
        &[],
    )
}

/// Inserts a reader under a ticket that was not given yet.
fn insert_reader<P: Versioned, S: Alter>(
    tables: &mut Tables<P, S>,
    ticket: Number,
    name: &Text,
    until: Day,
) -> Result<(), StoreFault>
    ensures { Puts S.Store schema.reader reader_cells tables.old tables.new result
        within (λ xs. list_any (λ r. nat_eq ticket r.ticket) xs ≡ false)
        adds record { ticket = ticket; name = name.now; until = until } }
{
    change(
        tables,
        "INSERT INTO reader (ticket, name, until) VALUES (?1, ?2, ?3)",
        &[cell(ticket), words(name), day(until)],
    )
}

/// Sets the last day of a ticket, which is found by its number. If the ticket was not given, nothing is changed.
fn set_last_day<P: Versioned, S: Alter>(
    tables: &mut Tables<P, S>,
    ticket: Number,
    until: Day,
) -> Result<(), StoreFault>
    ensures { Changes S.Store schema.reader reader_cells tables.old tables.new result
        when AreCounted (λ r. r.ticket) leaves renewed_readers ticket until }
{
    change(
        tables,
        "UPDATE reader SET until = ?2 WHERE ticket = ?1",
        &[cell(ticket), day(until)],
    )
}

/// Sets the last day of a ticket. It may be earlier or later than before. If the ticket was not given, nothing is
/// changed.
pub fn renew<P: Versioned, S: Alter>(
    tables: &mut Tables<P, S>,
    ticket: Number,
    until: Day,
) -> Result<(), StoreFault>
    ensures updates { StoreUpdates S.Store (schema.reader.tree ∷ []) RepresentsDeskAlone tables.old tables.new result
        within IsLegible gives with_last_day ticket until }
{
    set_last_day(tables, ticket, until)
}

/// The next ticket, or none if `MOST_TICKETS` were given.
fn next_number<P: Versioned, S: Alter>(
    tables: &mut Tables<P, S>,
) -> Result<Option<Number>, StoreFault>
    ensures reads { Reads (state S.Store tables.old) (state S.Store tables.new) result }
    ensures number { HasCleanDisk (state S.Store tables.new) → (d : Desk)
        → RepresentsDesk (state S.Store tables.old).now.trees d → IfOk result (λ ticket. ticket ≡ next_ticket d) }
    ensures faults { (d : Desk) → RepresentsDesk (state S.Store tables.old).now.trees d
        → FaultsHaveCause (state S.Store tables.old) (state S.Store tables.new) result }
{
    let last = last_ticket(tables)?;
    if last < MOST_TICKETS {
        Ok(Some(Number::from(last + 1)))
    } else {
        Ok(None)
    }
}

/// Adds a reader, with any name and last day. Returns the new ticket: the number after the last, or none if
/// `MOST_TICKETS` were given, and then nothing is added.
pub fn add_reader<P: Versioned, S: Alter>(
    tables: &mut Tables<P, S>,
    name: &Text,
    until: Day,
) -> Result<Option<Number>, StoreFault>
    ensures number { HasCleanDisk (state S.Store tables.new) → (d : Desk)
        → RepresentsDesk (state S.Store tables.old).now.trees d → IfOk result (λ ticket. ticket ≡ next_ticket d) }
    ensures updates { StoreUpdates S.Store (schema.reader.tree ∷ []) RepresentsDeskAlone tables.old tables.new result
        within IsLegible gives λ d. with_reader (next_ticket d) name.now until d }
{
    let Some(ticket) = next_number(tables)? else {
        return Ok(None);
    };
    insert_reader(tables, ticket, name, until)?;
    Ok(Some(ticket))
}

/// Whether a ticket was given, valid or not. If a row is not legible, it may fail with `Schema`.
pub fn is_registered<P: Versioned, S: Alter>(
    alloc: Global,
    tables: &mut Tables<P, S>,
    ticket: Number,
) -> Result<bool, StoreFault>
    ensures answers { StoreAnswers S.Store RepresentsDeskAlone tables.old tables.new result
        within IsLegible gives λ _ d known. known ≡ is_some (reader_with ticket d) }
{
    let found = find_reader(alloc, tables, ticket)?;
    Ok(found.is_some())
}
