//! What is kept of rows and units, by their numbers in their source.
ghost use Rattle.std.specs.Prelude.{◌≡◌, if◌then◌else◌, OnOk, Some};
ghost use Rattle.std.specs.BTreeMap.{get_by_text};
ghost use Rattle.std.specs.Str.{bytes_eq};
ghost use Rattle.isad_core.specs.Texts.{Bytes};

use isad_core::Text;
use std::alloc::{AllocError, Global};
use std::collections::BTreeMap;

/// Keeps a value for a row or a unit, in place of one that was kept for the same number in its source.
#[tactic(auto, using(std::proofs::lemmas::Map::Text::text_keys))]
pub fn remember<V: Drop>(
    kept: &mut BTreeMap<String, V>,
    alloc: Global,
    legacy: &Text,
    value: V,
) -> Result<(), AllocError>
    ensures { OnOk result ((q : Bytes) → get_by_text kept.new q
        ≡ (if bytes_eq q legacy.now then Some value else get_by_text kept.old q)) }
{
    let key = String::from_str(alloc, legacy.as_str())?;
    kept.insert(key, value)?;
    Ok(())
}
