//! Parameters of statements, as SQL has them.

ghost use Rattle.std.specs.Prelude.{◌≡◌, pos};
ghost use Rattle.sqlite.specs.Value.{owned};
ghost use Rattle.sqlite.specs.Values.{or_null};
ghost use Rattle.sqlite.specs.declared.types.Value.TheVariants.{Int, Text as words_cell};
ghost use Rattle.isad_core.specs.Limits.{IsNumber};
ghost use Rattle.office_tables.specs.Flags.{flag};

use isad_core::{Day, Text};
use sqlite::types::ValueRef;

/// 2^63: nothing has this number or a greater one.
pub const NO_NUMBER: u64 = 1 << 63;

/// The number, which must be below 2^63.
pub fn number<'a>(n: u64) -> ValueRef<'a>
    requires { IsNumber n }
    ensures { owned result ≡ Int (pos n) }
{
    ValueRef::Int(n as i64)
}

/// 1 for true, 0 for false.
pub fn truth<'a>(b: bool) -> ValueRef<'a>
    ensures { owned result ≡ Int (flag b) }
{
    ValueRef::Int(if b { 1 } else { 0 })
}

/// The number of the day, counted from 1970-01-01, which is 0.
pub fn day<'a>(day: Day) -> ValueRef<'a>
    ensures { owned result ≡ Int day }
{
    ValueRef::Int(i64::from(day.number()))
}

/// The number of the day, counted from 1970-01-01, which is 0; NULL for none.
pub fn day_or_null<'a>(day: Option<Day>) -> ValueRef<'a>
    ensures { owned result ≡ or_null Int day }
{
    match day {
        Some(day) => ValueRef::Int(i64::from(day.number())),
        None => ValueRef::Null,
    }
}

/// The text.
pub fn words<'a>(text: &'a Text) -> ValueRef<'a>
    ensures { owned result ≡ words_cell text.now }
{
    ValueRef::Text(text.as_str().as_bytes())
}
