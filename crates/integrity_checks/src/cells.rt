//! Reads cells of any origin as parts of units and their texts.

ghost use Rattle.std.specs.Prelude.{◌≡◌, not, false, length, nat_le, is_some, option_map};
ghost use Rattle.std.specs.Option.{option_map_or};
ghost use Rattle.sqlite.specs.Value.{owned};
ghost use Rattle.isad_core.specs.Limits.{most_bytes};
ghost use Rattle.isad_core.specs.Texts.{is_blank_text};
ghost use Rattle.catalogue_core.specs.CatalogueCauses.{is_some_day};
ghost use Rattle.catalogue_core.specs.Sources.{is_source as is_source_name};
ghost use Rattle.office_tables.specs.Cells.{text_in as text_said, whole_in as whole_said, flag_in, or_null_in};

use catalogue_core::is_source;
use isad_core::limits::MOST_BYTES;
use isad_core::{is_blank, is_day};
use sqlite::types::ValueRef;

/// The text in the cell, if it is one in UTF-8.
fn text_in(value: ValueRef<'_>) -> Option<&str>
    ensures { option_map (λ t. t.now) result ≡ text_said (owned value.entry) }
{
    match value {
        ValueRef::Text(bytes) => match std::str::from_utf8(bytes) {
            Ok(text) => Some(text),
            Err(_) => None,
        },
        _ => None,
    }
}

/// Whether the cell is a text, in UTF-8.
pub(crate) fn is_text(value: ValueRef<'_>) -> bool
    ensures { result ≡ is_some (text_said (owned value.entry)) }
{
    text_in(value).is_some()
}

/// Whether the cell is a text in UTF-8 that is not blank.
pub(crate) fn is_nonblank_text(value: ValueRef<'_>) -> bool
    ensures { result ≡ option_map_or (λ t. not (is_blank_text t)) (text_said (owned value.entry)) false }
{
    match text_in(value) {
        Some(text) => !is_blank(text),
        None => false,
    }
}

/// Whether the cell is a text in UTF-8 of at most `MOST_BYTES` bytes.
pub(crate) fn is_short(value: ValueRef<'_>) -> bool
    ensures { result ≡ option_map_or (λ t. nat_le (length t) most_bytes) (text_said (owned value.entry)) false }
{
    match text_in(value) {
        Some(text) => text.len() <= MOST_BYTES,
        None => false,
    }
}

/// Whether the cell is a text in UTF-8 that is well-formed as the name of a source.
pub(crate) fn is_source_text(value: ValueRef<'_>) -> bool
    ensures { result ≡ option_map_or is_source_name (text_said (owned value.entry)) false }
{
    match text_in(value) {
        Some(name) => is_source(name),
        None => false,
    }
}

/// Whether the cell is the whole number 0 for no, or 1 for yes.
pub(crate) fn is_flag(value: ValueRef<'_>) -> bool
    ensures { result ≡ is_some (flag_in (owned value.entry)) }
{
    match value {
        ValueRef::Int(n) => n == 0 || n == 1,
        _ => false,
    }
}

/// Whether the cell is null, or the number of a day of the calendar.
pub(crate) fn is_day_or_null(value: ValueRef<'_>) -> bool
    ensures { result ≡ option_map_or is_some_day (or_null_in whole_said (owned value.entry)) false }
{
    match value {
        ValueRef::Null => true,
        ValueRef::Int(n) => is_day(n),
        _ => false,
    }
}
