//! The values of a unit, read from its rows.

ghost use Rattle.std.specs.Prelude.{◌≡◌, ◌≢◌, ◌<◌, ℕ, List, find, length, map, option_map, true, IsPermutation};
ghost use Rattle.std.specs.Prelude.{IsOk, IfOk, IfSome, IfNone, IfErr, IsUtf8};
ghost use Rattle.std.specs.List.{AllByRecursion, list_any, list_all};
ghost use Rattle.sqlite.specs.Held.{state};
ghost use Rattle.sqlite.specs.State.{HasCleanDisk};
ghost use Rattle.isad_core.specs.Boxes.{is_same_box};
ghost use Rattle.isad_core.specs.LegibleValues.{IsLegibleBox};
ghost use Rattle.isad_core.specs.declared.values.BoxKey.{BoxKey};
ghost use Rattle.isad_core.specs.declared.values.Values.{«Values» as Description};
ghost use Rattle.tree_core.specs.Forest.{nodes};
ghost use Rattle.catalogue_core.specs.Bounds.{IsKept};
ghost use Rattle.catalogue_core.specs.Descriptions.{KnowsItsContainers};
ghost use Rattle.catalogue_core.specs.CatalogueMerge.{box_number};
ghost use Rattle.catalogue_core.specs.Units.{«Unit» as Described, has_id};
ghost use Rattle.office_tables.specs.Calls.{StoreAnswers};
ghost use Rattle.office_tables.specs.Premises.{◌within◌and◌gives◌, ◌within◌gives◌};
ghost use Rattle.office_tables.specs.RowNumbers.{HoldsNumbered};
ghost use Rattle.office_tables.specs.Schema as schema;
ghost use Rattle.catalogue_statements.specs.CallClauses.{FailsWithCause, OnlyReads};
ghost use Rattle.catalogue_statements.specs.Rows.{HousingRow, housing_row};
ghost use Rattle.catalogue_statements.specs.Representation.{RepresentsContainers, numbered_texts, numbered_containers};
ghost use Rattle.catalogue_statements.specs.Representation.{element_number as number_of_place};
ghost use Rattle.catalogue_statements.specs.Representation.{housing_places};
ghost use Rattle.catalogue_statements.specs.Values.{RepresentsValues, TellsTexts};
ghost use Rattle.catalogue_statements.specs.declared.row_types.Element.{Element};
ghost use Rattle.catalogue_statements.specs.declared.row_types.Housing.{Housing};
ghost use Rattle.catalogue_store.specs.UnitValues.{containers_of_unit, values_of_unit, values_or_none};

use catalogue_statements::containers::{find_container, housings_of};
use catalogue_statements::elements::elements_of;
use catalogue_statements::row_types::{Element, Housing};
use catalogue_statements::units::find_level;
use isad_core::{BoxKey, List, Number, Text, Values};
use office_tables::{StoreFault, Tables, Versioned};
use sqlite::Alter;
use std::alloc::{AllocError, Global};
use std::array;

/// The values of a unit, and the numbers of its containers in the order in which the values name them.
#[derive(Debug, PartialEq, Drop)]
pub struct UnitValues {
    pub values: Values,
    pub containers: List<Number>,
}

/// The containers of a unit, in the unit's order, and their numbers in the same order.
#[derive(Debug, PartialEq, Drop)]
pub struct UnitContainers {
    pub boxes: List<BoxKey>,
    pub numbers: List<Number>,
}

/// The place among the texts of the element with this number. The numbers are 1 to 26 without 4, the level. Any other
/// number has no place.
fn place_of(k: u64) -> Option<usize>
    ensures place { IfSome result (λ place. k ≡ number_of_place place) }
    ensures small { IfSome result (λ place. place < 25) }
    ensures none { IfNone result ((place : ℕ) → place < 25 → k ≢ number_of_place place) }
{
    match k {
        1..=3 => Some(k as usize - 1),
        5..=26 => Some(k as usize - 2),
        _ => None,
    }
}

/// The texts of these elements, each at the place of its element. Fails with `StoreFault::Schema` if the number of an
/// element has no place.
fn texts_by_element(elements: Vec<Element>) -> Result<[Option<Text>; 25], StoreFault>
    ensures value { (values : Description) → length values.texts ≡ 25
        → map (λ (e : Element). (e.k, e.value)) elements.items ≡ numbered_texts values
        → IfOk result (λ texts. texts ≡ values.texts) }
    ensures places { (values : Description) → length values.texts ≡ 25
        → map (λ (e : Element). (e.k, e.value)) elements.items ≡ numbered_texts values → IsOk result }
    ensures fair { IfErr result (λ e. e ≡ StoreFault.Schema) }
{
    let mut texts = array::from_fn(|_| None);
    for element in elements {
        let Some(place) = place_of(element.k) else {
            return Err(StoreFault::Schema);
        };
        texts[place] = Some(element.value);
    }
    Ok(texts)
}

/// The texts of a unit, each at its place.
fn texts_of<P: Versioned, S: Alter>(
    alloc: Global,
    tables: &mut Tables<P, S>,
    unit: Number,
) -> Result<[Option<Text>; 25], StoreFault>
    ensures answers { StoreAnswers S.Store (TellsTexts unit) tables.old tables.new result
        within AllByRecursion (λ e. IsUtf8 e.value) gives λ values _ texts. texts ≡ values.texts }
{
    let found = elements_of(alloc, tables, unit)?;
    texts_by_element(found)
}

/// The numbers of the containers in these rows, in the order of the rows.
fn numbers_in(alloc: Global, housings: &[Housing]) -> Result<List<Number>, AllocError>
    ensures { IfOk result (λ numbers. numbers ≡ map (λ (h : Housing). h.container) housings.now) }
{
    let numbers = housings
        .iter()
        .map(|housing| housing.container)
        .collect(alloc)?;
    Ok(List(numbers))
}

/// The numbers of a unit's containers, in the unit's order.
fn containers_of<P: Versioned, S: Alter>(
    alloc: Global,
    tables: &mut Tables<P, S>,
    unit: Number,
) -> Result<List<Number>, StoreFault>
    ensures reads { OnlyReads S.Store tables.old tables.new result }
    ensures numbers { HasCleanDisk (state S.Store tables.new) → (xs : List HousingRow)
        → HoldsNumbered schema.housing housing_row (state S.Store tables.old) xs
        → (boxes : List BoxKey) (values : Description)
        → IsPermutation (numbered_containers boxes values) (housing_places unit xs)
        → IfOk result (λ numbers. numbers ≡ map (box_number boxes) values.boxes) }
    ensures faults { (xs : List HousingRow) → HoldsNumbered schema.housing housing_row (state S.Store tables.old) xs
        → FailsWithCause S.Store tables.old tables.new result }
{
    let found = housings_of(alloc, tables, unit)?;
    Ok(numbers_in(alloc, &found)?)
}

/// The name, location and kind of the container with this number, which must be known.
fn container_of<P: Versioned, S: Alter>(
    alloc: Global,
    tables: &mut Tables<P, S>,
    number: Number,
) -> Result<BoxKey, StoreFault>
    ensures reads { OnlyReads S.Store tables.old tables.new result }
    ensures key { HasCleanDisk (state S.Store tables.new) → (boxes : List BoxKey)
        → RepresentsContainers (state S.Store tables.old).now.trees boxes → (b : BoxKey) → number ≡ box_number boxes b
        → IfOk result (λ key. key ≡ b) }
    ensures faults { (boxes : List BoxKey) → RepresentsContainers (state S.Store tables.old).now.trees boxes
        → AllByRecursion IsLegibleBox boxes → (b : BoxKey)
        → list_any (is_same_box b) boxes ≡ true → number ≡ box_number boxes b
        → FailsWithCause S.Store tables.old tables.new result }
{
    let Some(key) = find_container(alloc, tables, number)? else {
        return Err(StoreFault::Schema);
    };
    Ok(key)
}

/// The name, location and kind of each of the containers with these numbers, which must be known, in their order.
fn boxes_of<P: Versioned, S: Alter>(
    alloc: Global,
    tables: &mut Tables<P, S>,
    numbers: &[Number],
) -> Result<List<BoxKey>, StoreFault>
    ensures reads { OnlyReads S.Store tables.old tables.new result }
    ensures boxes { HasCleanDisk (state S.Store tables.new) → (boxes : List BoxKey)
        → RepresentsContainers (state S.Store tables.old).now.trees boxes → (bs : List BoxKey)
        → numbers.now ≡ map (box_number boxes) bs → IfOk result (λ keys. keys ≡ bs) }
    ensures faults { (boxes : List BoxKey) → RepresentsContainers (state S.Store tables.old).now.trees boxes
        → AllByRecursion IsLegibleBox boxes → (bs : List BoxKey)
        → list_all (λ b. list_any (is_same_box b) boxes) bs ≡ true → numbers.now ≡ map (box_number boxes) bs
        → FailsWithCause S.Store tables.old tables.new result }
{
    let mut keys = List::new(alloc);
    for number in numbers {
        keys.push(container_of(alloc, tables, *number)?)?;
    }
    Ok(keys)
}

/// The level of the unit with this number, or none if there is no such unit.
pub fn level<P: Versioned, S: Alter>(
    alloc: Global,
    tables: &mut Tables<P, S>,
    unit: Number,
) -> Result<Option<Text>, StoreFault>
    ensures answers { StoreAnswers S.Store RepresentsValues tables.old tables.new result
        within IsKept
        gives λ _ c level. level ≡ option_map (λ (u : Described). u.values.level) (find (has_id unit) (nodes c.forest)) }
{
    let found = find_level(alloc, tables, unit)?;
    Ok(found)
}

/// The texts of the unit with this number, each at its place, or no text at all if there is no such unit. Each unit must
/// have a place for each of the 25 texts.
pub fn texts<P: Versioned, S: Alter>(
    alloc: Global,
    tables: &mut Tables<P, S>,
    unit: Number,
) -> Result<[Option<Text>; 25], StoreFault>
    ensures answers { StoreAnswers S.Store RepresentsValues tables.old tables.new result
        within IsKept gives λ _ c texts. texts ≡ (values_or_none unit c).texts }
{
    texts_of(alloc, tables, unit)
}

/// The containers of the unit with this number, or none if there is no such unit. If the catalogue does not know the
/// containers of all its units, it may fail with `Schema`.
pub fn containers<P: Versioned, S: Alter>(
    alloc: Global,
    tables: &mut Tables<P, S>,
    unit: Number,
) -> Result<UnitContainers, StoreFault>
    ensures answers { StoreAnswers S.Store RepresentsValues tables.old tables.new result
        within IsKept and KnowsItsContainers gives λ _ c found. found ≡ containers_of_unit unit c }
{
    let numbers = containers_of(alloc, tables, unit)?;
    let boxes = boxes_of(alloc, tables, numbers.as_slice())?;
    Ok(UnitContainers { boxes, numbers })
}

/// The values of the unit with this number, and the numbers of its containers in their order; none if there is no such
/// unit. Each unit must have a place for each of the 25 texts. If the catalogue does not know the containers of all its
/// units, it may fail with `Schema`.
pub fn values<P: Versioned, S: Alter>(
    alloc: Global,
    tables: &mut Tables<P, S>,
    unit: Number,
) -> Result<Option<UnitValues>, StoreFault>
    ensures answers { StoreAnswers S.Store RepresentsValues tables.old tables.new result
        within IsKept and KnowsItsContainers gives λ _ c found. found ≡ values_of_unit unit c }
{
    let Some(level) = level(alloc, tables, unit)? else {
        return Ok(None);
    };
    let texts = texts(alloc, tables, unit)?;
    let housed = containers(alloc, tables, unit)?;
    Ok(Some(UnitValues {
        values: Values {
            level,
            texts,
            boxes: housed.boxes,
        },
        containers: housed.numbers,
    }))
}
