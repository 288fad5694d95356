//! The entries of a split column.
ghost use Rattle.std.specs.Prelude.{◌≡◌, IfOk, map};
ghost use Rattle.atom_csv.specs.Entries as spec;
ghost use Rattle.atom_csv.specs.Fields.{borrowed_fields};

use crate::trim::trim;
use std::alloc::{AllocError, Global};

/// The entry in one part of a split text: the part without white space at its ends, or the empty text for `NULL`.
pub fn entry(part: &str) -> &str
    ensures { result.now ≡ spec.trimmed_entry part.now }
{
    match trim(part) {
        "NULL" => "",
        entry => entry,
    }
}

/// The entries of a text that is split at each bar, including blank ones.
pub fn entries(alloc: Global, text: &str) -> Result<Vec<&str>, AllocError>
    ensures { IfOk result (λ v. borrowed_fields v.items ≡ spec.entries text.now) }
{
    text.split('|').map(entry).collect(alloc)
}
