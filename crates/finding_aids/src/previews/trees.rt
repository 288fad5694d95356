//! The forest of a file's rows.
ghost use Rattle.std.specs.Prelude.{◌≡◌, ◌≤◌, ◌<◌, ◌++◌, ◌∷◌, ℕ, [], if◌then◌else◌};
ghost use Rattle.std.specs.Prelude.{IfOk, OnOk, None, Option, length, map, nat_eq};
ghost use Rattle.std.specs.List.{All};
ghost use Rattle.std.specs.Option.{option_eq};
ghost use Rattle.catalogue_core.specs.CatalogueMerge.{numbered_from};
ghost use Rattle.tree_core.specs.Forest.{Empty};
ghost use Rattle.isad_core.specs.Limits.{most_deep};
ghost use Rattle.finding_aids.specs.Places.{ArePlaced};
ghost use Rattle.finding_aids.specs.RowTrees.{grove, height_of_all, seen_below};
ghost use Rattle.finding_aids.specs.Slots.{IsBelow, children_at, grown_at};

use crate::previews::places::RowPosition;
use atom_csv::Row;
use std::alloc::{AllocError, Global};

/// A published row, with the rows right below it.
#[derive(Drop)]
pub struct Tree<'a> {
    /// The number that its unit gets.
    pub id: u64,
    pub row: &'a Row,
    pub children: Vec<Tree<'a>>,
}

/// The place of a row, and the trees that have grown below it so far, the last child first.
#[derive(Drop)]
struct Slot<'a> {
    place: RowPosition,
    children: Vec<Tree<'a>>,
}

/// The published trees of a file's rows, without drafts and what lies below them. `places` must be the places of the
/// rows, in their order.
pub fn plant<'a>(
    alloc: Global,
    rows: &'a [Row],
    places: &[RowPosition],
) -> Result<Vec<Tree<'a>>, AllocError>
    requires placed { ArePlaced rows.now places.now }
    requires shallow { All (λ place. place.depth ≤ most_deep) places.now }
    ensures grove { IfOk result (λ tops. grove tops.items
        ≡ seen_below None (numbered_from Empty [] 1 [] rows.now)) }
    ensures low { IfOk result (λ tops. height_of_all tops.items ≤ most_deep) }
{
    let mut slots = bare_slots(alloc, places)?;
    let mut tops = Vec::new(alloc);
    while let Some(slot) = slots.pop() {
        let index = slots.len();
        let row = &rows[index];
        if row.published {
            let mut children = slot.children;
            children.reverse();
            let tree = Tree {
                id: index as u64 + 1,
                row,
                children,
            };
            put(&mut slots, &mut tops, slot.place.parent, tree)?;
        }
    }
    tops.reverse();
    Ok(tops)
}

/// A slot for each place, with nothing in it.
fn bare_slots<'a>(alloc: Global, places: &[RowPosition]) -> Result<Vec<Slot<'a>>, AllocError>
    ensures places { IfOk result (λ slots. map (λ slot. slot.place) slots.items ≡ places.now) }
    ensures bare { IfOk result (λ slots. All (λ slot. slot.children.items ≡ []) slots.items) }
{
    let mut slots = Vec::new(alloc);
    for place in places {
        slots.push(Slot {
            place: *place,
            children: Vec::new(alloc),
        })?;
    }
    Ok(slots)
}

/// Puts a tree below the row with this index, or at the top.
fn put<'a>(
    slots: &mut Vec<Slot<'a>>,
    tops: &mut Vec<Tree<'a>>,
    parent: Option<usize>,
    tree: Tree<'a>,
) -> Result<(), AllocError>
    requires { IsBelow (length slots.old.items) parent }
    ensures places { OnOk result (map (λ slot. slot.place) slots.new.items
        ≡ map (λ slot. slot.place) slots.old.items) }
    ensures ok { OnOk result ((p : Option ℕ) → grown_at slots.new.items tops.new.items p
        ≡ (if option_eq nat_eq parent p
        then grown_at slots.old.items tops.old.items p ++ tree.entry ∷ []
        else grown_at slots.old.items tops.old.items p)) }
{
    match parent {
        None => tops.push(tree)?,
        Some(index) => put_at(slots, index, tree)?,
    }
    Ok(())
}

/// Puts a tree below the row with this index.
fn put_at<'a>(slots: &mut Vec<Slot<'a>>, index: usize, tree: Tree<'a>) -> Result<(), AllocError>
    requires { index < length slots.old.items }
    ensures places { OnOk result (map (λ slot. slot.place) slots.new.items
        ≡ map (λ slot. slot.place) slots.old.items) }
    ensures ok { OnOk result ((j : ℕ) → children_at slots.new.items j
        ≡ (if nat_eq index j
        then children_at slots.old.items j ++ tree.entry ∷ []
        else children_at slots.old.items j)) }
{
    let slot = &mut slots[index];
    slot.children.push(tree)?;
    Ok(())
}
