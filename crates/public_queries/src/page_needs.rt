//! What is read for a page of the units on its path, whose marks are known. The page shows texts of each, the level of
//! the last alone, and the containers of the nearest that has some. No other level and no other container is read.

ghost use Rattle.std.specs.Prelude.{◌≡◌};
ghost use Rattle.catalogue_core.specs.Bounds.{IsKept};
ghost use Rattle.catalogue_core.specs.Units.{«Unit» as Described};
ghost use Rattle.catalogue_statements.specs.Representation.{Represents};
ghost use Rattle.office_tables.specs.Calls.{Answers};
ghost use Rattle.office_tables.specs.Premises.{◌within◌and◌gives◌};
ghost use Rattle.public_queries.specs.KnownPaths.{IsTellable};
ghost use Rattle.public_queries.specs.PageNeeds.{AreMarksOf, IsMarked, all_needed};
ghost use Rattle.public_queries.specs.PageNeeds.{containers_needed, level_needed, values_needed};

use crate::path_marks::are_boxed;
use catalogue_store::{Places, UnitContainers, UnitValues, containers, level, texts};
use isad_core::{List, Text, Values};
use office_tables::{StoreFault, Tables};
use sqlite::Alter;
use std::alloc::Global;
use visibility::Mark;

/// The level of a unit that has none below it on the path, else the empty text.
fn read_level<P: Places, S: Alter>(
    alloc: Global,
    tables: &mut Tables<P, S>,
    mark: &Mark,
    below: &[Mark],
) -> Result<Text, StoreFault>
    ensures answers { Answers S.Store (Represents P.represents P.version) tables.old tables.new result
        within IsKept and (λ c. (u : Described) × IsMarked c mark.now u)
        gives λ _ c level. (u : Described) → IsMarked c mark.now u → level ≡ level_needed below.now u }
{
    if !below.is_empty() {
        return Ok(Text::new(alloc, "")?);
    }
    let Some(level) = level(alloc, tables, mark.id)? else {
        return Err(StoreFault::Schema);
    };
    Ok(level)
}

/// The containers of a unit if none of the units below it on the path has some, else none.
fn read_containers<P: Places, S: Alter>(
    alloc: Global,
    tables: &mut Tables<P, S>,
    mark: &Mark,
    below: &[Mark],
) -> Result<UnitContainers, StoreFault>
    ensures answers { Answers S.Store (Represents P.represents P.version) tables.old tables.new result
        within IsKept and (λ c. (u : Described) × IsMarked c mark.now u)
        gives λ _ c found. (u : Described) → IsMarked c mark.now u
        → found ≡ containers_needed c.containers below.now u }
{
    if !mark.boxed || are_boxed(below) {
        return Ok(UnitContainers {
            boxes: List::new(alloc),
            numbers: List::new(alloc),
        });
    }
    let found = containers(alloc, tables, mark.id)?;
    Ok(found)
}

/// The values of a unit as far as the page of the last on its path needs them. What it does not need is empty.
fn read_unit<P: Places, S: Alter>(
    alloc: Global,
    tables: &mut Tables<P, S>,
    mark: &Mark,
    below: &[Mark],
) -> Result<UnitValues, StoreFault>
    ensures answers { Answers S.Store (Represents P.represents P.version) tables.old tables.new result
        within IsKept and (λ c. (u : Described) × IsMarked c mark.now u)
        gives λ _ c told. (u : Described) → IsMarked c mark.now u
        → told ≡ values_needed c.containers below.now u }
{
    let level = read_level(alloc, tables, mark, below)?;
    let texts = texts(alloc, tables, mark.id)?;
    let housed = read_containers(alloc, tables, mark, below)?;
    Ok(UnitValues {
        values: Values {
            level,
            texts,
            boxes: housed.boxes,
        },
        containers: housed.numbers,
    })
}

/// The values of each unit of a path as far as the page of the last needs them. What it does not need is empty.
pub(crate) fn read_path<P: Places, S: Alter>(
    alloc: Global,
    tables: &mut Tables<P, S>,
    way: &[Mark],
) -> Result<Vec<UnitValues>, StoreFault>
    ensures answers { Answers S.Store (Represents P.represents P.version) tables.old tables.new result
        within IsKept and (λ c. IsTellable c × AreMarksOf c way.now)
        gives λ _ c units. IsTellable c → (of : AreMarksOf c way.now)
        → units.items ≡ all_needed c.containers way.now of.units }
{
    let mut units = Vec::new(alloc);
    for (place, mark) in way.iter().enumerate() {
        units.push(read_unit(alloc, tables, mark, &way[place + 1..])?)?;
    }
    Ok(units)
}
