//! The records of a text, one after another.
ghost use Rattle.std.specs.Prelude.{◌≡◌, ◌∷◌, [], IfOk, if◌then◌else◌, true};
ghost use Rattle.csv.specs.Reading.{default_config, strip_bom};
ghost use Rattle.csv.specs.Reading as csv_spec;
ghost use Rattle.csv.specs.Records.{fields_of};
ghost use Rattle.atom_csv.specs.Source.{IsReading, rows_left};

use csv::{ErrorKind, Reader, ReaderBuilder, StringRecord};
use std::alloc::{AllocError, Global};

/// A reader of the records of a text, including the header. It skips one byte order mark. Records may differ in length.
pub fn reader<'a>(alloc: Global, text: &'a str) -> Reader<&'a [u8]>
    ensures reading { IsReading result }
    ensures all { rows_left result ≡ csv_spec.records default_config (strip_bom text.now) }
{
    ReaderBuilder::new()
        .has_headers(false)
        .flexible(true)
        .from_reader(alloc, text.as_bytes())
}

/// Reads the next record into `row`, and returns whether there was one. If there was none, the contract does not say
/// what `row` has.
pub fn take_record(reader: &mut Reader<&[u8]>, row: &mut StringRecord) -> Result<bool, AllocError>
    requires { IsReading reader.old }
    ensures reading { IfOk result (λ found. found ≡ true → IsReading reader.new) }
    ensures taken { IfOk result (λ found. rows_left reader.old
        ≡ (if found then fields_of row.new ∷ rows_left reader.new else [])) }
{
    match reader.read_record(row) {
        Ok(found) => Ok(found),
        Err(error) => match error.kind() {
            ErrorKind::Io(_) | ErrorKind::OutOfMemory => Err(AllocError),
            _ => unreachable!(),
        },
    }
}
