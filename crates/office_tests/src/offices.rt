//! New offices, over a store in memory and over a file.

ghost use Rattle.std.specs.Prelude.{◌≡◌, false};
ghost use Rattle.sqlite.specs.Held.{state};
ghost use Rattle.sqlite.specs.State.{HasCleanDisk};

use catalogue_store::{LinkPlaces, Places};
use isad_core::Day;
use nested_sets::SpanPlaces;
use office::{Office, OpenFault, Settings, SettingsFault};
use sqlite::{Alter, Connection, MemStore};
use std::alloc::Global;
use std::test::Fail;

/// Four tops, each published in a box of its own.
pub const BOXES: &str =
    "legacyId,identifier,title,publicationStatus,physicalObjectName,physicalObjectLocation\n1,A,Plans,Published,Box 1,Strongroom 2\n2,B,Minutes,Published,Box 2,Strongroom 1\n3,C,Maps,Published,Box 3,Strongroom 1\n4,D,Deeds,Published,Box 4,Strongroom 1\n";

/// A fonds and a series.
pub const FONDS: &str =
    "legacyId,parentId,identifier,title,levelOfDescription,publicationStatus\n1,,HUL,Hull Dock Company,Fonds,Published\n2,1,1,Minutes,Series,Published\n";

/// The day that is `days` days after the first of March 2024.
pub fn day_after(days: u8) -> Result<Day, Fail> {
    match Day::from_number(19783 + i32::from(days)) {
        Some(day) => Ok(day),
        None => Err(Fail::new("no day")),
    }
}

/// The settings of the worked rows.
fn settings(alloc: Global) -> Result<Settings, Fail> {
    let day = day_after(0)?;
    Ok(Settings::new(alloc, "GB", "0999", 2, 3, 1, 2, day)?)
}

/// No office was made for want of memory: there is none yet, and it is tried again.
fn once_more<P: Places, S: Alter + Drop>(
    alloc: Global,
    conn: Connection<S>,
) -> Result<Office<P, S>, Fail>
    requires outside { HasCleanDisk (state S.Store conn) → (state S.Store conn).in_transaction ≡ false }
{
    let settings = settings(alloc)?;
    let mut conn = conn;
    conn.set_step_limit(None);
    match Office::<P, S>::create(conn, settings) {
        Ok(office) => Ok(office),
        Err((fault, _)) => Err(Fail::from(fault)),
    }
}

/// A new office in memory.
pub fn in_memory<P: Places>(alloc: Global) -> Result<Office<P, MemStore>, Fail> {
    let settings = settings(alloc)?;
    let conn = Connection::open_in_memory(alloc)?;
    match Office::<P, MemStore>::create(conn, settings) {
        Ok(office) => Ok(office),
        Err((OpenFault::Memory, conn)) => once_more::<P, MemStore>(alloc, conn),
        Err((fault, _)) => Err(Fail::from(fault)),
    }
}

/// The first wrong setting is named.
#[test]
fn a_wrong_setting_is_named(rt: HostRuntime) -> Result<(), Fail> {
    let day = day_after(0)?;
    for (country, seats, wanted) in [
        ("gb", 0, SettingsFault::Country),
        ("GBR", 2, SettingsFault::Country),
        ("GB", 0, SettingsFault::Seats),
    ] {
        let taken = Settings::new(rt.alloc(), country, "0999", seats, 3, 1, 2, day);
        assert_eq!(rt; taken.err(), Some(wanted));
    }
    Ok(())
}

/// No office is made where one is, and its connection is given back.
#[test]
fn no_office_is_made_over_another(rt: HostRuntime) -> Result<(), Fail> {
    let alloc = rt.alloc();
    let office = in_memory::<LinkPlaces>(alloc)?;
    let conn = office.into_connection();
    let again = settings(alloc)?;
    match Office::<SpanPlaces, MemStore>::create(conn, again) {
        Err((OpenFault::Schema, _)) => Ok(()),
        Err((fault, _)) => Err(Fail::from(fault)),
        Ok(office) => {
            let _ = office.into_connection();
            Err(Fail::new("an office was made over another"))
        }
    }
}
