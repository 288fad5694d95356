//! Levels of description.
ghost use Rattle.std.specs.Prelude.{◌≡◌};
ghost use Rattle.isad_core.specs.Levels.{names_level, rank_of};

/// The rank of a level: 1 for a fonds or a collection, 2 for a subfonds, 3 for a series, 4 for a subseries, 5 for a
/// file and 6 for an item. ASCII case and hyphens do not matter. Any other text is a level without a rank: `None`.
pub fn rank(level: &str) -> Option<u8>
    ensures { result ≡ rank_of level.now }
{
    if names(level, "fonds") || names(level, "collection") {
        Some(1)
    } else if names(level, "subfonds") {
        Some(2)
    } else if names(level, "series") {
        Some(3)
    } else if names(level, "subseries") {
        Some(4)
    } else if names(level, "file") {
        Some(5)
    } else if names(level, "item") {
        Some(6)
    } else {
        None
    }
}

/// Whether a text names the level.
fn names(text: &str, level: &str) -> bool
    ensures { result ≡ names_level text.now level.now }
{
    let mut letters = text.as_bytes();
    let mut wanted = level.as_bytes();
    while let [letter, others @ ..] = letters {
        letters = others;
        if *letter == b'-' {
            continue;
        }
        match wanted {
            [first, rest @ ..] if first.eq_ignore_ascii_case(letter) => wanted = rest,
            _ => return false,
        }
    }
    wanted.is_empty()
}
