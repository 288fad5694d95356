//! Lists in JSON, and their bytes.

ghost use Rattle.std.specs.Prelude.{◌≡◌, false, map, IfOk};
ghost use Rattle.serde_json.specs.View.{view};
ghost use Rattle.serde_json.specs.Written.{compact_text, has_float};
ghost use Rattle.office_core.specs.Json.{list};

use isad_core::List;
use replies::text_of;
use serde_json::Value;
use std::alloc::{AllocError, Global};

/// A thing that can be written as JSON.
pub(crate) trait Told {
    ghost use Rattle.serde_json.specs.Data.{Data};

    /// The JSON value that represents it.
    ghost told: { Self → Data };

    /// Builds this value.
    fn value(&self, alloc: Global) -> Result<Value, AllocError>
        ensures { IfOk result (λ v. view v ≡ told self.now) };
}

/// The JSON array of these things.
pub(crate) fn values_of<T: Told>(alloc: Global, things: &[T]) -> Result<Value, AllocError>
    ensures { IfOk result (λ v. view v ≡ list (map T.told things.now)) }
{
    let mut values = Vec::new(alloc);
    for thing in things {
        values.push(thing.value(alloc)?)?;
    }
    Ok(Value::Array(values))
}

/// The bytes of the JSON array of these things, in order and without white space. No number in it, at any depth, may be
/// a float.
pub(crate) fn list_text<T: Told>(alloc: Global, things: &[T]) -> Result<List<u8>, AllocError>
    requires whole { has_float (list (map T.told things.now)) ≡ false }
    ensures { IfOk result (λ text. text ≡ compact_text (list (map T.told things.now))) }
{
    let value = values_of(alloc, things)?;
    text_of(alloc, &value)
}
