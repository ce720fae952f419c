//! A value kept over a step that may fail.

ghost use Rattle.std.specs.Prelude.{◌≡◌};
ghost use Rattle.hv_items.specs.Kept.{paired};

/// The value and what the step gives; where the step fails, the value is dropped, by one call.
pub fn beside<A: Drop, B, E>(kept: A, other: Result<B, E>) -> Result<(A, B), E>
    ensures { result ≡ paired kept other }
{
    let other = other?;
    Ok((kept, other))
}
