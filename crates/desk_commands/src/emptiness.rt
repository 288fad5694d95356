//! Whether there is anything to do something with.

ghost use Rattle.std.specs.Prelude.{◌≡◌};
ghost use Rattle.office_core.specs.Words.{is_empty};

/// Whether there are none of these things.
pub(crate) fn are_none<T>(things: &[T]) -> bool
    ensures { result ≡ is_empty things.now }
{
    things.is_empty()
}
