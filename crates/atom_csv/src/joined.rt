//! Joins the entries of an element's columns to one text.
ghost use Rattle.std.specs.Prelude.{◌≡◌, IfOk, OnOk, fold};
ghost use Rattle.std.specs.String.{string_bytes};
ghost use Rattle.atom_csv.specs.Entries.{entries, with_entry};
ghost use Rattle.atom_csv.specs.Fields.{trimmed_fields};
ghost use Rattle.atom_csv.specs.Values.{text_in_columns, told_by};

use crate::column::{Column, columns};
use crate::entries::entry;
use crate::header::Header;
use csv::StringRecord;
use isad_core::Element;
use std::alloc::{AllocError, Global};

/// Adds an entry to those before it. An empty entry adds nothing.
fn add(text: &mut String, entry: &str) -> Result<(), AllocError>
    ensures { OnOk result (string_bytes text.new ≡ with_entry (string_bytes text.old) entry.now) }
{
    if entry.is_empty() {
        return Ok(());
    }
    if !text.is_empty() {
        text.push_str("; ")?;
    }
    text.push_str(entry)?;
    Ok(())
}

/// Adds the entries of a split column.
fn add_entries(text: &mut String, value: &str) -> Result<(), AllocError>
    ensures { OnOk result (string_bytes text.new ≡ fold with_entry (string_bytes text.old) (entries value.now)) }
{
    for part in value.split('|') {
        add(text, entry(part))?;
    }
    Ok(())
}

/// Adds the entries of a split column, or the one text of another column.
fn add_told(text: &mut String, column: Column, value: &str) -> Result<(), AllocError>
    ensures { OnOk result (string_bytes text.new
        ≡ fold with_entry (string_bytes text.old) (told_by column value.now)) }
{
    if column.is_split() {
        add_entries(text, value)
    } else {
        add(text, value)
    }
}

/// The text of an element: the non-blank entries of its columns, in their order, joined with `; `. A column that is not
/// split is one entry. The text is empty if there are none.
pub fn join_entries(
    alloc: Global,
    header: &Header,
    row: &StringRecord,
    element: Element,
) -> Result<String, AllocError>
    ensures { IfOk result (λ t. string_bytes t ≡ text_in_columns header.now (trimmed_fields row.now) element) }
{
    let mut text = String::new(alloc);
    for column in columns(element) {
        add_told(&mut text, *column, header.value(*column, row))?;
    }
    Ok(text)
}
