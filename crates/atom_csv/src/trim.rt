//! White space at the ends of a text.
ghost use Rattle.std.specs.Prelude.{◌≡◌};
ghost use Rattle.isad_core.specs.Texts as texts;
ghost use Rattle.atom_csv.specs.Fields as spec;

fn is_space(byte: u8) -> bool
    ensures { result ≡ texts.is_space byte }
{
    matches!(byte, b' ' | b'\t' | b'\r' | b'\n')
}

fn trim_start(text: &str) -> &str
    ensures { result.now ≡ spec.trim_start text.now }
{
    let bytes = text.as_bytes();
    let mut start = 0;
    while start < bytes.len() && is_space(bytes[start]) {
        start += 1;
    }
    &text[start..]
}

fn trim_end(text: &str) -> &str
    ensures { result.now ≡ spec.trim_end text.now }
{
    let bytes = text.as_bytes();
    let mut end = bytes.len();
    while end > 0 && is_space(bytes[end - 1]) {
        end -= 1;
    }
    &text[..end]
}

/// The text without spaces, tabs, CR and LF at its ends.
pub fn trim(text: &str) -> &str
    ensures { result.now ≡ spec.trimmed text.now }
{
    trim_end(trim_start(text))
}
