//! The numbers of a file's containers.
ghost use Rattle.std.specs.Prelude.{◌≡◌, ◌+◌, ◌++◌, ◌∷◌, [], if◌then◌else◌, List};
ghost use Rattle.std.specs.Prelude.{IfOk, OnOk, None, Some};
ghost use Rattle.std.specs.BTreeMap.{btree_map_len};
ghost use Rattle.std.specs.List.{flat_map};
ghost use Rattle.isad_core.specs.declared.values.BoxKey as spec;
ghost use Rattle.isad_core.specs.Boxes.{is_same_box};
ghost use Rattle.finding_aids.specs.Numbers.{AreNumbered, mapped_number};

use atom_csv::Row;
use isad_core::BoxKey;
use std::alloc::{AllocError, Global};
use std::collections::BTreeMap;

/// The number of each container, by its name, its location and its kind.
pub type Numbers<'a> = BTreeMap<(&'a str, &'a str, &'a str), u64>;

/// The numbers of the containers of rows, from 1, in the order in which they first appear. Each container has one.
pub fn number_boxes(alloc: Global, rows: &[Row]) -> Result<Numbers<'_>, AllocError>
    ensures { IfOk result (λ numbers. AreNumbered (flat_map (λ row. row.values.boxes) rows.now) numbers) }
{
    let mut numbers = BTreeMap::new(alloc);
    for row in rows {
        number_row(&mut numbers, row.values.boxes.as_slice())?;
    }
    Ok(numbers)
}

/// The number of a container, or none if no row names it.
pub fn number_of<'a>(numbers: &Numbers<'a>, container: &'a BoxKey) -> Option<u64>
    ensures { result ≡ mapped_number numbers.now container.now }
{
    let texts = (
        container.name.as_str(),
        container.location.as_str(),
        container.kind.as_str(),
    );
    numbers.get(&texts).copied()
}

/// Numbers the containers of a row.
fn number_row<'a>(numbers: &mut Numbers<'a>, boxes: &'a [BoxKey]) -> Result<(), AllocError>
    ensures { OnOk result ((seen : List spec.BoxKey) →
        AreNumbered seen numbers.old → AreNumbered (seen ++ boxes.now) numbers.new) }
{
    for container in boxes {
        number_box(numbers, container)?;
    }
    Ok(())
}

/// Gives a container the next number, unless it has one.
fn number_box<'a>(numbers: &mut Numbers<'a>, container: &'a BoxKey) -> Result<(), AllocError>
    ensures { OnOk result ((seen : List spec.BoxKey) →
        AreNumbered seen numbers.old → AreNumbered (seen ++ container.now ∷ []) numbers.new) }
{
    if number_of(numbers, container).is_some() {
        return Ok(());
    }
    let next = numbers.len() as u64 + 1;
    set_number(numbers, container, next)
}

/// Sets the number of a container.
fn set_number<'a>(
    numbers: &mut Numbers<'a>,
    container: &'a BoxKey,
    number: u64,
) -> Result<(), AllocError>
    ensures set { OnOk result ((q : spec.BoxKey) → mapped_number numbers.new q
        ≡ (if is_same_box container.now q then Some number else mapped_number numbers.old q)) }
    ensures count { OnOk result (mapped_number numbers.old container.now ≡ None →
        btree_map_len numbers.new ≡ btree_map_len numbers.old + 1) }
{
    let texts = (
        container.name.as_str(),
        container.location.as_str(),
        container.kind.as_str(),
    );
    numbers.insert(texts, number)?;
    Ok(())
}
