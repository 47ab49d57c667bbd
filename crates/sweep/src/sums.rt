//! Sums in hundredths of a minute, exact or refused.
ghost use Rattle.std.specs.Prelude.{◌≡◌, ◌+◌, ◌-◌, ◌*◌, pos, ◌-ℤ◌, IfOk};

use price_terms::PriceError;

/// A sum; one that a u64 doesn't hold is refused, which no instance comes to.
pub(crate) fn added(sum: u64, more: u64) -> Result<u64, PriceError>
    ensures { IfOk result (λ all. all ≡ sum + more) }
{
    match sum.checked_add(more) {
        Some(all) => Ok(all),
        None => Err(PriceError::TooMany),
    }
}

/// The hundredths of so many minutes.
pub(crate) fn hundredths(minutes: u64) -> Result<u64, PriceError>
    ensures { IfOk result (λ all. all ≡ 100 * minutes) }
{
    match minutes.checked_mul(100) {
        Some(all) => Ok(all),
        None => Err(PriceError::TooMany),
    }
}

/// What is left of a sum.
pub(crate) fn less(sum: u64, part: u64) -> Result<u64, PriceError>
    ensures { IfOk result (λ left. left + part ≡ sum) }
{
    match sum.checked_sub(part) {
        Some(left) => Ok(left),
        None => Err(PriceError::TooMany),
    }
}

/// A number with a sign.
pub(crate) fn signed(number: u64) -> Result<i64, PriceError>
    ensures { IfOk result (λ own. own ≡ pos number) }
{
    match i64::try_from(number) {
        Ok(own) => Ok(own),
        Err(_) => Err(PriceError::TooMany),
    }
}

/// By how much one sum is above another.
pub(crate) fn difference(high: u64, low: u64) -> Result<i64, PriceError>
    ensures { IfOk result (λ more. more ≡ pos high -ℤ pos low) }
{
    let above = signed(high)?;
    let below = signed(low)?;
    Ok(above - below)
}
