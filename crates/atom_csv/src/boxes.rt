//! The containers that a row names.
ghost use Rattle.std.specs.Prelude.{◌≡◌, ◌||◌, not, IfOk, OnOk};
ghost use Rattle.isad_core.specs.declared.values.BoxKey.{BoxKey};
ghost use Rattle.atom_csv.specs.Fields.{borrowed_fields};
ghost use Rattle.atom_csv.specs.Values.{boxes_of};
ghost use Rattle.isad_core.specs.Boxes.{is_same_box};
ghost use Rattle.atom_csv.specs.Values as spec;
ghost use Rattle.atom_csv.specs.KnownContainers.{has_box, box_with};

use crate::entries::entries;
use isad_core::{BoxKey, List, Text};
use std::alloc::{AllocError, Global};
use std::collections::BTreeSet;

/// The containers that are known already, by name, location and kind.
type Known<'a> = BTreeSet<(&'a str, &'a str, &'a str)>;

/// Keeps a container, and returns whether it is new.
fn keep<'a>(
    known: &mut Known<'a>,
    name: &'a str,
    location: &'a str,
    kind: &'a str,
) -> Result<bool, AllocError>
    ensures new { IfOk result (λ new. new ≡ not (has_box known.old (box_with name.now location.now kind.now))) }
    ensures kept { OnOk result ((q : BoxKey)
        → has_box known.new q ≡ (is_same_box (box_with name.now location.now kind.now) q || has_box known.old q)) }
{
    let is_new = known.insert((name, location, kind))?;
    Ok(is_new)
}

/// The entry at a place, or a blank one if there is none.
fn entry_at<'a>(entries: &[&'a str], i: usize) -> &'a str
    ensures { result.now ≡ spec.entry_at (borrowed_fields entries.now) i }
{
    entries.get(i).copied().unwrap_or("")
}

fn box_key(alloc: Global, name: &str, location: &str, kind: &str) -> Result<BoxKey, AllocError>
    ensures { IfOk result (λ b. b ≡ box_with name.now location.now kind.now) }
{
    Ok(BoxKey {
        name: Text::new(alloc, name)?,
        location: Text::new(alloc, location)?,
        kind: Text::new(alloc, kind)?,
    })
}

/// The containers so far.
#[derive(Drop)]
struct Kept<'a> {
    known: Known<'a>,
    boxes: List<BoxKey>,
}

impl<'a> Kept<'a> {
    ghost use Rattle.std.specs.Prelude.{OnOk, if◌then◌else◌, ◌++◌, ◌∷◌, []};
    ghost use Rattle.isad_core.specs.declared.values.BoxKey.{BoxKey};
    ghost use Rattle.std.specs.Prelude as std_list;
    ghost use Rattle.atom_csv.specs.Fields.{has_no_bytes};
    ghost use Rattle.atom_csv.specs.KnownContainers.{HoldsContainers, box_with};

    /// Adds a container, unless its name is blank or it was added before.
    fn add(
        &mut self,
        alloc: Global,
        name: &'a str,
        location: &'a str,
        kind: &'a str,
    ) -> Result<(), AllocError>
        ensures { OnOk result ((told : std_list.List BoxKey) → HoldsContainers self.old.known self.old.boxes told
            → HoldsContainers self.new.known self.new.boxes
            (told ++ (if has_no_bytes name.now then [] else box_with name.now location.now kind.now ∷ []))) }
    {
        if name.is_empty() {
            return Ok(());
        }
        if !keep(&mut self.known, name, location, kind)? {
            return Ok(());
        }
        self.boxes.push(box_key(alloc, name, location, kind)?)?;
        Ok(())
    }
}

/// The containers of three columns: entry i of each column belongs to container i. A blank name makes no container, a
/// location or kind that is missing is empty, and each container counts once, at its first place.
pub fn boxes<'a>(
    alloc: Global,
    names: &'a str,
    locations: &'a str,
    kinds: &'a str,
) -> Result<List<BoxKey>, AllocError>
    ensures { IfOk result (λ b. b ≡ boxes_of names.now locations.now kinds.now) }
{
    let names = entries(alloc, names)?;
    let locations = entries(alloc, locations)?;
    let kinds = entries(alloc, kinds)?;
    let mut kept: Kept<'a> = Kept {
        known: BTreeSet::new(alloc),
        boxes: List::new(alloc),
    };
    for (i, name) in names.as_slice().iter().enumerate() {
        let location = entry_at(locations.as_slice(), i);
        kept.add(alloc, name, location, entry_at(kinds.as_slice(), i))?;
    }
    Ok(kept.boxes)
}
