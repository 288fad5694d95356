//! Reads a file from its bytes.
ghost use Rattle.std.specs.Prelude.{◌≡◌, Err, IfErr, IfOk, Ok, map};
ghost use Rattle.atom_csv.specs.Fields.{trimmed};
ghost use Rattle.atom_csv.specs.FileContents.{file_of};
ghost use Rattle.atom_csv.specs.FileContents as spec;
ghost use Rattle.atom_csv.specs.ReadProgress.{IfBad};
ghost use Rattle.atom_csv.specs.Source.{IsReading, rows_left};

use crate::cause::Cause;
use crate::file::{File, FileFault};
use crate::header::Header;
use crate::records::{reader, take_record};
use crate::rows::Rows;
use csv::{Reader, StringRecord};
use std::alloc::Global;

/// Reads the records below the header.
fn below(alloc: Global, header: &Header, reader: &mut Reader<&[u8]>) -> Result<File, FileFault>
    requires { IsReading reader.old }
    ensures rows { IfOk result (λ f. spec.file_below header.now (map (map trimmed) (rows_left reader.old)) ≡ Ok f) }
    ensures bad { IfErr result (λ e. IfBad e (λ at cause.
        spec.file_below header.now (map (map trimmed) (rows_left reader.old)) ≡ Err (at, cause))) }
{
    let mut rows = Rows::new(alloc);
    let mut row = StringRecord::new(alloc);
    let mut number = 2;
    while take_record(reader, &mut row)? {
        rows.add(alloc, header, &row, number)?;
        number += 1;
    }
    Ok(File {
        rows: rows.rows,
        translations: rows.translations,
    })
}

/// Reads the records of a text.
fn of_text(alloc: Global, text: &str) -> Result<File, FileFault>
    ensures rows { IfOk result (λ f. spec.of_records (spec.records_of text.now) ≡ Ok f) }
    ensures bad { IfErr result (λ e. IfBad e (λ at cause.
        spec.of_records (spec.records_of text.now) ≡ Err (at, cause))) }
{
    let mut reader = reader(alloc, text);
    let mut first = StringRecord::new(alloc);
    if !take_record(&mut reader, &mut first)? {
        let cause = Cause::NoHeader.number();
        return Err(FileFault::Bad { row: 1, cause });
    }
    let header = Header::of(alloc, &first)?;
    if let Some(cause) = header.cause() {
        let cause = cause.number();
        return Err(FileFault::Bad { row: 1, cause });
    }
    below(alloc, &header, &mut reader)
}

/// Reads AtoM's archival description CSV, in UTF-8, with or without a byte order mark.
///
/// If the file is faulty, the error has the first row with a cause, and its lowest cause. Row 0 is the whole file, and
/// row 1 its header. Whether the parents exist, and how deep the rows lie, is not asked here.
pub fn read_file(alloc: Global, bytes: &[u8]) -> Result<File, FileFault>
    // If it returns a file, it is the one that the bytes encode.
    ensures rows { IfOk result (λ f. file_of bytes.now ≡ Ok f) }
    // A fault has the first row with a cause, and its lowest cause.
    ensures bad { IfErr result (λ e. IfBad e (λ row cause. file_of bytes.now ≡ Err (row, cause))) }
{
    match str::from_utf8(bytes) {
        Ok(text) => of_text(alloc, text),
        Err(_) => Err(FileFault::Bad {
            row: 0,
            cause: Cause::NotUtf8.number(),
        }),
    }
}
