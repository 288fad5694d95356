//! The rows below a header.
ghost use Rattle.std.specs.Prelude.{◌≡◌, ◌≤◌, if◌then◌else◌, codes, option_map};
ghost use Rattle.std.specs.Prelude.{IfOk, None};
ghost use Rattle.std.specs.BTreeMap.{get_by_text};
ghost use Rattle.std.specs.Str.{str_eq_ignore_ascii_case};
ghost use Rattle.atom_csv.specs.Fields.{trimmed_fields, has_no_bytes};
ghost use Rattle.atom_csv.specs.Values.{nonblank};
ghost use Rattle.atom_csv.specs.FileContents as spec;

use crate::column::Column;
use crate::file::{FileFault, Row};
use crate::findings::Findings;
use crate::header::Header;
use crate::legacy::remember;
use crate::values::values;
use csv::StringRecord;
use isad_core::{List, Text};
use std::alloc::{AllocError, Global};
use std::collections::BTreeMap;

/// A text, or `None` if it is empty.
fn optional(alloc: Global, text: &str) -> Result<Option<Text>, AllocError>
    ensures { IfOk result (λ t. t ≡ nonblank text.now) }
{
    if text.is_empty() {
        return Ok(None);
    }
    Ok(Some(Text::new(alloc, text)?))
}

fn is_published(status: &str) -> bool
    ensures { result ≡ str_eq_ignore_ascii_case status.now (codes "Published") }
{
    status.eq_ignore_ascii_case("Published")
}

/// The row that a record describes.
fn row_of(
    alloc: Global,
    header: &Header,
    row: &StringRecord,
    number: u32,
) -> Result<Row, AllocError>
    ensures { IfOk result (λ r. r ≡ spec.row_of header.now (trimmed_fields row.now) number) }
{
    Ok(Row {
        row: number,
        legacy: Text::new(alloc, header.value(Column::LegacyId, row))?,
        parent: optional(alloc, header.value(Column::ParentId, row))?,
        published: is_published(header.value(Column::PublicationStatus, row)),
        values: values(alloc, header, row)?,
    })
}

/// The culture of the first row with each legacyId.
type Cultures = BTreeMap<String, Text>;

/// The culture of the first row with this legacyId. A blank legacyId has none.
fn culture_of<'a>(cultures: &'a Cultures, id: &str) -> Option<&'a Text>
    ensures { option_map (λ t. t.now) result ≡ (if has_no_bytes id.now then None else get_by_text cultures.now id.now) }
{
    if id.is_empty() {
        return None;
    }
    cultures.get(id)
}

/// The rows and translations of the records so far.
#[derive(Drop)]
pub struct Rows {
    pub rows: List<Row>,
    pub translations: u32,
    cultures: Cultures,
}

impl Rows {
    ghost use Rattle.std.specs.Prelude.{◌≡◌, ◌≤◌, ◌<◌, ◌++◌, ◌∷◌, ◌+◌, []};
    ghost use Rattle.std.specs.Prelude.{OnOk, IfErr, Err, length};
    ghost use Rattle.std.specs.Prelude as std_list;
    ghost use Rattle.isad_core.specs.Limits.{most_rows};
    ghost use Rattle.atom_csv.specs.Fields.{Fields, trimmed_fields};
    ghost use Rattle.atom_csv.specs.FileContents.{file_below};
    ghost use Rattle.atom_csv.specs.ReadProgress.{IfBad, TellsRows};

    /// The state before the first record below the header.
    pub fn new(alloc: Global) -> Rows
        ensures none { result.translations ≡ 0 }
        ensures told { (header : Fields) → TellsRows header [] result }
    {
        Rows {
            rows: List::new(alloc),
            translations: 0,
            cultures: BTreeMap::new(alloc),
        }
    }

    /// Adds the next record, which has this row number: one more than that of the record before it, and 2 for the first
    /// below the header. If the record has a cause, returns its row and the lowest one. After an error the contract
    /// does not say what is kept.
    pub fn add(
        &mut self,
        alloc: Global,
        header: &Header,
        row: &StringRecord,
        number: u32,
    ) -> Result<(), FileFault>
        requires fits { self.old.translations < number }
        ensures fits { OnOk result (self.new.translations ≤ number) }
        ensures early { OnOk result (number ≤ most_rows + 1) }
        ensures told { OnOk result ((above : std_list.List Fields) → number ≡ length above + 2
            → TellsRows header.now above self.old → TellsRows header.now (above ++ trimmed_fields row.now ∷ []) self.new) }
        ensures bad { IfErr result (λ e. IfBad e (λ at cause. (above later : std_list.List Fields)
            → number ≡ length above + 2 → TellsRows header.now above self.old
            → file_below header.now (above ++ trimmed_fields row.now ∷ later) ≡ Err (at, cause))) }
    {
        let id = header.value(Column::LegacyId, row);
        let found = Findings::of(header, row, culture_of(&self.cultures, id), number);
        if let Some(cause) = found.lowest() {
            let cause = cause.number();
            return Err(FileFault::Bad { row: number, cause });
        }
        if found.is_blank {
            return Ok(());
        }
        if found.is_translation {
            self.translations += 1;
            return Ok(());
        }
        let culture = Text::new(alloc, header.value(Column::Culture, row))?;
        let described = row_of(alloc, header, row, number)?;
        remember(&mut self.cultures, alloc, &described.legacy, culture)?;
        self.rows.push(described)?;
        Ok(())
    }
}
