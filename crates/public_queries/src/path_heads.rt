//! The units on a path, by their heads.

ghost use Rattle.std.specs.Prelude.{◌≡◌, IfOk};
ghost use Rattle.catalogue_core.specs.Pages.{before_last};
ghost use Rattle.public_queries.specs.HeadLines.{head_identifiers};

use catalogue_store::Head;
use isad_core::Text;
use std::alloc::{AllocError, Global};

/// The identifiers of these units.
pub(crate) fn identifiers(alloc: Global, way: &[Head]) -> Result<Vec<Text>, AllocError>
    ensures { IfOk result (λ ids. ids.items ≡ head_identifiers way.now) }
{
    let mut ids = Vec::new(alloc);
    for head in way {
        ids.push(head.identifier.clone()?)?;
    }
    Ok(ids)
}

/// The identifiers of the units above the last of a path.
pub(crate) fn identifiers_above(alloc: Global, way: &[Head]) -> Result<Vec<Text>, AllocError>
    ensures { IfOk result (λ ids. ids.items ≡ before_last (head_identifiers way.now)) }
{
    match way.split_last() {
        None => Ok(Vec::new(alloc)),
        Some((_last, above)) => identifiers(alloc, above),
    }
}
