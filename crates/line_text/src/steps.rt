//! Tests that a text has to pass.
ghost use Rattle.std.specs.Prelude.{◌≡◌};
ghost use Rattle.line_text.specs.Steps.{check};

/// Refuses with this fault where the test fails.
pub fn check<E: Drop>(holds: bool, fault: E) -> Result<(), E>
    ensures { result ≡ check holds fault }
{
    if holds { Ok(()) } else { Err(fault) }
}
