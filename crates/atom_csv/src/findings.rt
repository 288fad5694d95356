//! What is found in a record, and the cause that follows from it.
ghost use Rattle.std.specs.Prelude.{◌≡◌, IfNone, false, option_map};
ghost use Rattle.atom_csv.specs.Fields.{trimmed_fields};
ghost use Rattle.atom_csv.specs.FileContents.{lowest};
ghost use Rattle.atom_csv.specs.Fields as fields;
ghost use Rattle.atom_csv.specs.FileContents as spec;
ghost use Rattle.atom_csv.specs.Findings.{causes_of, findings};

use crate::cause::Cause;
use crate::column::Column;
use crate::header::Header;
use crate::trim::trim;
use csv::StringRecord;
use isad_core::Text;
use isad_core::limits::{MOST_BYTES, MOST_ROWS};

/// The last row that is accepted. The header is row 1.
const LAST_ROW: u32 = MOST_ROWS + 1;

/// What is found in a record.
#[derive(Clone, Copy)]
pub struct Findings {
    pub is_blank: bool,
    pub is_translation: bool,
    pub other_width: bool,
    pub no_legacy: bool,
    pub stood: bool,
    pub slug_alone: bool,
    pub is_late: bool,
    pub is_long: bool,
}

/// Whether each field is blank.
fn is_blank(row: &StringRecord) -> bool
    ensures { result ≡ fields.is_blank (trimmed_fields row.now) }
{
    for field in row.iter() {
        if !trim(field).is_empty() {
            return false;
        }
    }
    true
}

/// Whether a record is a translation. `stood` is the culture of the first row with its legacyId, if there is one.
fn is_translation(header: &Header, row: &StringRecord, stood: Option<&Text>) -> bool
    ensures { result ≡ spec.is_translation header.now (trimmed_fields row.now) (option_map (λ t. t.now) stood.entry) }
{
    match stood {
        Some(first) => {
            let own = header.value(Column::Culture, row);
            let first = first.as_str();
            !first.is_empty() && !own.is_empty() && first != own
        }
        None => false,
    }
}

fn has_other_width(header: &Header, row: &StringRecord) -> bool
    ensures { result ≡ spec.has_other_width header.now (trimmed_fields row.now) }
{
    row.len() != header.width()
}

/// Whether a record names its parent only by a slug.
fn has_slug_alone(header: &Header, row: &StringRecord) -> bool
    ensures { result ≡ spec.has_slug_alone header.now (trimmed_fields row.now) }
{
    !header.value(Column::QubitParentSlug, row).is_empty()
        && header.value(Column::ParentId, row).is_empty()
}

/// Whether a field that is read is too long.
fn is_long(header: &Header, row: &StringRecord) -> bool
    ensures { result ≡ spec.is_long header.now (trimmed_fields row.now) }
{
    Column::all()
        .iter()
        .any(|column| header.value(*column, row).len() > MOST_BYTES)
}

impl Findings {
    /// What is found in the record of this row. `stood` is the culture of the first row above with its legacyId, if
    /// there is one. `number` is the row's number; the header is row 1.
    pub fn of(header: &Header, row: &StringRecord, stood: Option<&Text>, number: u32) -> Findings
        ensures { result ≡ findings header.now (trimmed_fields row.now) (option_map (λ t. t.now) stood.entry) number }
    {
        Findings {
            is_blank: is_blank(row),
            is_translation: is_translation(header, row, stood),
            other_width: has_other_width(header, row),
            no_legacy: header.value(Column::LegacyId, row).is_empty(),
            stood: stood.is_some(),
            slug_alone: has_slug_alone(header, row),
            is_late: number > LAST_ROW,
            is_long: is_long(header, row),
        }
    }

    /// The lowest cause for which the row is refused, if any. A blank row can only be refused for its number, and a
    /// translation only for its number or its count of fields.
    pub fn lowest(self) -> Option<Cause>
        ensures lowest { result ≡ lowest (causes_of self) }
        ensures late { IfNone result (self.is_late ≡ false) }
        ensures new { IfNone result (self.is_blank ≡ false → self.is_translation ≡ false
            → (self.no_legacy ≡ false) × (self.stood ≡ false)) }
    {
        if !self.is_blank {
            if self.other_width {
                return Some(Cause::FieldCount);
            }
            if !self.is_translation {
                if self.no_legacy {
                    return Some(Cause::BlankLegacyId);
                }
                if self.stood {
                    return Some(Cause::Repeated);
                }
                if self.slug_alone {
                    return Some(Cause::Slug);
                }
            }
        }
        if self.is_late {
            return Some(Cause::TooManyRows);
        }
        if self.is_long && !self.is_blank && !self.is_translation {
            return Some(Cause::TooLong);
        }
        None
    }
}
