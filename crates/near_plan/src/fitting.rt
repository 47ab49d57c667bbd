//! What is asked of the caller.
ghost use Rattle.std.specs.Prelude.{◌≡◌, ◌<◌, ◌≤◌, length, All};
ghost use Rattle.lock_model.specs.declared.instance.Instance.{Instance as AnyInstance};

use crate::known::are_known;
use lock_model::{Instance, Ships, Spots};
use no_memory::NoMemory;

/// Who says whether ships fit a chamber.
pub trait Fitting {
    /// The instance that it speaks of.
    ghost instance: { Self → AnyInstance };

    /// Spots of these ships in this chamber; None where they don't fit or it isn't known. Its only
    /// refusal is want of memory.
    fn spots(&mut self, chamber: u8, ships: &Ships) -> Result<Option<Spots>, NoMemory>
        requires chamber_in { chamber < length (instance self.old).chambers }
        requires ships_in { All (λ s. s < length (instance self.old).ships) ships.now }
        requires some { 1 ≤ length ships.now }
        ensures same { instance self.new ≡ instance self.old };
}

/// Spots of these ships in this chamber; None where they don't fit or it isn't known, or they aren't
/// ships and a chamber of the instance.
pub fn fits<F: Fitting>(
    instance: &Instance,
    chamber: u8,
    ships: &Ships,
    fitting: &mut F,
) -> Result<Option<Spots>, NoMemory>
    requires { F.instance fitting.old ≡ instance.now }
    ensures { F.instance fitting.new ≡ instance.now }
{
    if are_known(instance, chamber, ships) {
        fitting.spots(chamber, ships)
    } else {
        Ok(None)
    }
}
