//! The header of a file: which columns it has, and where they are.
ghost use Rattle.std.specs.Prelude.{◌≡◌, ◌==◌, IfOk, count_by, map, nat_lt, length, position};
ghost use Rattle.std.specs.List.{list_any};
ghost use Rattle.atom_csv.specs.Columns.{columns, column_name};
ghost use Rattle.atom_csv.specs.Fields.{field_at_place, trimmed_fields, is_column_name, borrowed_fields};
ghost use Rattle.atom_csv.specs.Fields as spec;
ghost use Rattle.atom_csv.specs.FileContents.{header_causes, lowest};

use crate::cause::Cause;
use crate::column::Column;
use crate::trim::trim;
use csv::StringRecord;
use std::alloc::{AllocError, Global};
use std::marker::Model;

/// The fields of a record, without white space at their ends.
fn names(alloc: Global, row: &StringRecord) -> Result<Vec<&str>, AllocError>
    ensures { IfOk result (λ v. borrowed_fields v.items ≡ trimmed_fields row.now) }
{
    let mut names = Vec::new(alloc);
    for field in row.iter() {
        names.push(trim(field))?;
    }
    Ok(names)
}

/// The index of the first column with this name.
fn place(header: &[&str], name: &str) -> Option<usize>
    ensures { result ≡ position (λ field. is_column_name name.now field.now) header.now }
{
    header.iter().position(|field| *field == name)
}

/// Whether a column has this name.
fn has(header: &[&str], name: &str) -> bool
    ensures { result ≡ list_any (λ field. is_column_name name.now field.now) header.now }
{
    header.iter().any(|field| *field == name)
}

/// How many columns have this name.
fn count(header: &[&str], name: &str) -> usize
    ensures { result ≡ count_by (λ field. is_column_name name.now field.now) header.now }
{
    header.iter().filter(|field| **field == name).count()
}

/// Whether a column that is read occurs twice.
fn has_twice(header: &[&str]) -> bool
    ensures { result ≡ list_any (λ column.
        nat_lt 1 (count_by (λ field. is_column_name (column_name column) field.now) header.now)) columns }
{
    Column::all()
        .iter()
        .any(|column| count(header, column.name()) > 1)
}

/// The index of each column that is read.
fn places(alloc: Global, header: &[&str]) -> Result<Vec<Option<usize>>, AllocError>
    ensures { IfOk result (λ v. v.items
        ≡ map (λ column. position (λ field. is_column_name (column_name column) field.now) header.now) columns) }
{
    Column::all()
        .iter()
        .map(|column| place(header, column.name()))
        .collect(alloc)
}

/// The field of a record at an index, without white space at its ends; empty if there is none.
fn field_at<'r>(row: &'r StringRecord, place: Option<usize>) -> &'r str
    ensures { result.now ≡ field_at_place place (trimmed_fields row.now) }
{
    match place {
        Some(i) => trim(row.get(i).unwrap_or("")),
        None => "",
    }
}

/// The names of a file's columns.
#[derive(Drop)]
pub struct Header<'a> {
    names: Vec<&'a str>,
    // The index of each column that is read, so that no name is looked up twice.
    places: Vec<Option<usize>>,
}

impl<'a> Model for Header<'a> {
    ghost use Rattle.std.specs.Prelude.{◌≡◌};
    ghost use Rattle.atom_csv.specs.Fields.{Fields, column_indices, borrowed_fields};

    ghost Value = { Fields };

    ghost view = { λ h. borrowed_fields h.names.items };

    ghost invariant = { λ h. h.places.items ≡ column_indices (borrowed_fields h.names.items) };
}

impl<'a> Header<'a> {
    /// The header in a record. Its names are without white space at their ends.
    pub fn of(alloc: Global, row: &'a StringRecord) -> Result<Header<'a>, AllocError>
        ensures { IfOk result (λ h. h ≡ trimmed_fields row.now) }
    {
        let names = names(alloc, row)?;
        let places = places(alloc, names.as_slice())?;
        Ok(Header { names, places })
    }

    /// The lowest cause in the header for which the file is refused, if any: there is no `legacyId`, or a column that
    /// is read occurs twice.
    pub fn cause(&self) -> Option<Cause>
        ensures { result ≡ lowest (header_causes self.now) }
    {
        let names = self.names.as_slice();
        if !has(names, "legacyId") {
            return Some(Cause::NoLegacyId);
        }
        if has_twice(names) {
            return Some(Cause::HeaderTwice);
        }
        None
    }

    /// The field of a record in a column, without white space at its ends; empty if the header lacks the column, or the
    /// record the field.
    pub fn value<'r>(&self, column: Column, row: &'r StringRecord) -> &'r str
        ensures { result.now ≡ spec.value column self.now (trimmed_fields row.now) }
    {
        field_at(row, self.places[column as usize])
    }

    /// The number of columns, also of those that are not read.
    pub fn width(&self) -> usize
        ensures { result ≡ length self.now }
    {
        self.names.as_slice().len()
    }
}
