//! Questions, each answered from one state of the tables. What the public asks is answered from marks in memory, too.

ghost use Rattle.std.specs.Prelude.{◌≡◌, false, true};
ghost use Rattle.sqlite.specs.Held.{state};
ghost use Rattle.sqlite.specs.State.{HasCleanDisk};
ghost use Rattle.office_core.specs.Queries.{is_public as is_the_publics};
ghost use Rattle.public_queries.specs.InformedAnswers.{RespondsKnowing};
ghost use Rattle.public_queries.specs.KnownPaths.{RepresentsKnown};
ghost use Rattle.office.specs.CallTransactions.{Asks};
ghost use Rattle.office.specs.IdleOffice.{IsOffice};
ghost use Rattle.known_units.specs.KnownUnits.{TellOf};
ghost use Rattle.office.specs.KeptMarks.{AreKept, AreOfTables, KnowsKept};
ghost use Rattle.office.specs.NamedNumbers.{asks_named};
ghost use Rattle.refinement.specs.Representation.{office_of};

use crate::kept_marks::kept_or_read;
use crate::named_numbers::named;
use crate::office_row::own_row;
use catalogue_statements::OfficeRow;
use catalogue_store::Places;
use desk_queries::{issued_now, queue, reader_orders, reader_permits, run_slip};
use known_forest::KnownForest;
use office_core::{Answer, Query};
use office_tables::{Closed, StoreFault, Tables};
use public_queries::{aid, fonds, page};
use sqlite::Alter;
use std::alloc::Global;

/// Whether it is the public's question.
fn is_public(query: Query) -> bool
    ensures { result ≡ is_the_publics query }
{
    matches!(query, Query::Fonds | Query::Aid { .. } | Query::Page { .. })
}

/// Answers a question of the public on the day of the office, from the marks of its units and its tables.
fn show<P: Places, S: Alter>(
    alloc: Global,
    tables: &mut Tables<P, S>,
    row: &OfficeRow,
    forest: &KnownForest,
    query: Query,
) -> Result<Answer, StoreFault>
    requires { is_the_publics query ≡ true }
    ensures { RespondsKnowing P.represents P.version S.Store (RepresentsKnown row.now forest.now) (asks_named query)
        tables.old tables.new result }
{
    match query {
        Query::Fonds => fonds(alloc, tables, row, forest),
        Query::Aid { unit } => aid(alloc, tables, row, forest, named(unit)),
        Query::Page { unit } => page(alloc, tables, row, forest, named(unit)),
        _ => Err(StoreFault::Schema),
    }
}

/// Answers a question of the desk on the day of the office.
fn tell<P: Places, S: Alter>(
    alloc: Global,
    tables: &mut Tables<P, S>,
    row: &OfficeRow,
    query: Query,
) -> Result<Answer, StoreFault>
    requires { is_the_publics query ≡ false }
    ensures { RespondsKnowing P.represents P.version S.Store (λ s. row.now ≡ office_of s) (asks_named query)
        tables.old tables.new result }
{
    match query {
        Query::ReaderOrders { ticket } => reader_orders(alloc, tables, row.day, named(ticket)),
        Query::Queue { container } => queue(alloc, tables, named(container)),
        Query::RunSlip { run } => run_slip(alloc, tables, named(run)),
        Query::IssuedNow => issued_now(alloc, tables),
        Query::ReaderPermits { ticket } => reader_permits(alloc, tables, named(ticket)),
        _ => Err(StoreFault::Schema),
    }
}

/// Answers a question of the public. The marks that are kept must be those of the tables. If none are kept, they are
/// read first, and kept.
fn show_keeping<P: Places, S: Alter>(
    alloc: Global,
    tables: &mut Tables<P, S>,
    row: &OfficeRow,
    kept: &mut Option<KnownForest>,
    query: Query,
) -> Result<Answer, StoreFault>
    requires { is_the_publics query ≡ true }
    ensures answers { RespondsKnowing P.represents P.version S.Store (KnowsKept row.now kept.old) (asks_named query)
        tables.old tables.new result }
    ensures stays { HasCleanDisk (state S.Store tables.new)
        → AreOfTables P.represents P.version (state S.Store tables.old).now kept.old
        → AreOfTables P.represents P.version (state S.Store tables.old).now kept.new }
{
    let forest = kept_or_read(alloc, tables, kept.take())?;
    let answer = show(alloc, tables, row, &forest, query);
    *kept = Some(forest);
    answer
}

/// Answers a question inside the transaction. The marks that are kept must be those of the tables.
fn answer_to<P: Places, S: Alter>(
    alloc: Global,
    tables: &mut Tables<P, S>,
    kept: &mut Option<KnownForest>,
    query: Query,
) -> Result<Answer, StoreFault>
    ensures answers { RespondsKnowing P.represents P.version S.Store (λ s. TellOf s.catalogue kept.old) query
        tables.old tables.new result }
    ensures stays { HasCleanDisk (state S.Store tables.new)
        → AreOfTables P.represents P.version (state S.Store tables.old).now kept.old
        → AreOfTables P.represents P.version (state S.Store tables.old).now kept.new }
{
    let row = own_row(alloc, tables)?;
    if is_public(query) {
        return show_keeping(alloc, tables, &row, kept, query);
    }
    tell(alloc, tables, &row, query)
}

/// Answers a question in a transaction of its own, which is rolled back.
pub(crate) fn ask_in<P: Places, S: Alter>(
    alloc: Global,
    closed: &mut Closed<P, S>,
    kept: &mut Option<KnownForest>,
    query: Query,
) -> Result<Answer, StoreFault>
    requires office { IsOffice P.version (state S.Store closed.old) }
    requires marks { AreKept P.represents P.version (state S.Store closed.old) kept.old }
    ensures asks { Asks P.represents P.version S.Store closed.old closed.new query result }
    ensures marks { AreKept P.represents P.version (state S.Store closed.new) kept.new }
{
    let tables = closed.begin()?;
    let outcome = answer_to(alloc, tables, kept, query);
    closed.roll_back();
    outcome
}
