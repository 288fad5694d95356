//! The values of the units of a path, with their reference codes.

ghost use Rattle.std.specs.Prelude.{◌≡◌, [], option_copied, unwrap_or, IfOk};
ghost use Rattle.public_queries.specs.HeadLines.{repository_of};
ghost use Rattle.public_queries.specs.PathValues.{coded_way, identifiers_of};

use catalogue_store::{OfficeRow, UnitValues};
use isad_core::{Element, Text, join_code};
use std::alloc::{AllocError, Global};

/// The values of a unit on a path, with its reference code.
#[derive(Debug, PartialEq, Drop)]
pub struct OnPath {
    pub code: Text,
    pub unit: UnitValues,
}

/// A copy of a text, or the empty text for none.
pub(crate) fn text_or_empty(alloc: Global, text: Option<&Text>) -> Result<Text, AllocError>
    ensures { IfOk result (λ t. t ≡ unwrap_or (option_copied text.entry) []) }
{
    match text {
        Some(text) => text.clone(),
        None => Text::new(alloc, ""),
    }
}

/// The units of a path, which are given from the top down: their identifiers in this order, and the units with their
/// reference codes, the lowest first.
pub(crate) fn with_codes(
    alloc: Global,
    known: &OfficeRow,
    way: Vec<UnitValues>,
) -> Result<(Vec<Text>, Vec<OnPath>), AllocError>
    ensures ids { IfOk result (λ told. told.0.items ≡ identifiers_of way.items) }
    ensures units { IfOk result (λ told. told.1.items ≡ coded_way (repository_of known.now) [] [] way.items) }
{
    let mut ids = Vec::new(alloc);
    let mut units = Vec::new(alloc);
    for unit in way {
        ids.push(text_or_empty(alloc, unit.values.text(Element::ReferenceCode))?)?;
        let code = join_code(
            alloc,
            known.country.as_str(),
            known.repo.as_str(),
            ids.as_slice(),
        )?;
        units.push(OnPath { code, unit })?;
    }
    units.reverse();
    Ok((ids, units))
}
