//! Days in JSON, and the bytes of a JSON value.

ghost use Rattle.std.specs.Prelude.{◌≡◌, false, IfOk};
ghost use Rattle.serde_json.specs.View.{view};
ghost use Rattle.serde_json.specs.Written.{compact_text, has_float};
ghost use Rattle.office_core.specs.Json.{date};

use isad_core::{Day, List};
use serde_json::{Value, json};
use std::alloc::{AllocError, Global};

/// The date of a day, as a JSON string.
pub fn day_value(alloc: Global, day: Day) -> Result<Value, AllocError>
    ensures { IfOk result (λ v. view v ≡ date day) }
{
    let date = day.text();
    let text = str::from_utf8(&date).unwrap();
    json!(in alloc; text)
}

/// The bytes of a JSON value, without white space between its parts. Its numbers must be whole, and fit 64 bits.
pub fn text_of(alloc: Global, value: &Value) -> Result<List<u8>, AllocError>
    requires no_float { has_float (view value.now) ≡ false }
    ensures { IfOk result (λ text. text ≡ compact_text (view value.now)) }
{
    let text = value.to_string(alloc)?;
    Ok(List(text.into_bytes()))
}
