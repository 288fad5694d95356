//! The names of sources.

ghost use Rattle.std.specs.Prelude.{◌≡◌};
ghost use Rattle.std.specs.List.{list_all};
ghost use Rattle.catalogue_core.specs.Sources.{is_source as is_source_name, is_source_letter as may_stand};

use isad_core::limits::MOST_SOURCE_BYTES;

/// Whether it is an ASCII letter, a digit, a dot, an underscore or a hyphen.
fn is_source_letter(b: u8) -> bool
    ensures { result ≡ may_stand b }
{
    (b >= b'A' && b <= b'Z')
        || (b >= b'a' && b <= b'z')
        || (b >= b'0' && b <= b'9')
        || b == b'.'
        || b == b'_'
        || b == b'-'
}

/// Whether all bytes are allowed in the name of a source.
fn are_source_letters(name: &str) -> bool
    ensures { result ≡ list_all may_stand name.now }
{
    name.bytes().all(|b| is_source_letter(b))
}

/// Whether a name may be a source's: 1 to 64 ASCII letters, digits, dots, underscores and hyphens.
pub fn is_source(name: &str) -> bool
    ensures { result ≡ is_source_name name.now }
{
    1 <= name.len() && name.len() <= MOST_SOURCE_BYTES && are_source_letters(name)
}
