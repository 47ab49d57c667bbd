//! Minutes as labels keep them.
ghost use Rattle.std.specs.Prelude.{◌≡◌, IfOk};

use price_terms::PriceError;

/// A minute as labels keep it; later ones than a u32 counts are refused, which no plan needs.
pub fn minute_of(minute: u64) -> Result<u32, PriceError>
    ensures { IfOk result (λ own. own ≡ minute) }
{
    match u32::try_from(minute) {
        Ok(minute) => Ok(minute),
        Err(_) => Err(PriceError::TooMany),
    }
}
