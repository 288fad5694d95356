//! The names of readers.

ghost use Rattle.std.specs.Prelude.{◌≡◌, nat_eq, nat_le, not, ◌&&◌};
ghost use Rattle.std.specs.List.{list_all};
ghost use Rattle.desk_core.specs.Names.{is_name as is_reader_name};

use isad_core::is_blank;
use isad_core::limits::MOST_NAME_BYTES;

/// Whether a text has no control characters.
fn is_printable(text: &str) -> bool
    ensures { result ≡ list_all (λ b. nat_le 32 b && not (nat_eq b 127)) text.now }
{
    text.bytes().all(|b| b >= b' ' && b != 127)
}

/// Whether a name may be a reader's: 1 to 100 bytes, not only spaces, without the control characters of ASCII.
pub fn is_name(name: &str) -> bool
    ensures { result ≡ is_reader_name name.now }
{
    1 <= name.len() && name.len() <= MOST_NAME_BYTES && !is_blank(name) && is_printable(name)
}
