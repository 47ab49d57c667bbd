//! Chambers and ships by name.
ghost use Rattle.std.specs.Prelude.{◌≡◌};
ghost use Rattle.plan_text.specs.Words.{chamber_named, ship_named, host};

use crate::berth::Host;
use crate::kinds::PlanKind;
use lock_model::Instance;

/// The number of the chamber of a name. Refuses with `Unknown` a name that none has.
pub fn chamber_named(instance: &Instance, word: &[u8]) -> Result<u8, PlanKind>
    ensures { result ≡ chamber_named instance.now.chambers word.now }
{
    let chambers = instance.chambers.as_slice();
    for place in 0..chambers.len() as u8 {
        if word == chambers[place as usize].name.as_slice() {
            return Ok(place);
        }
    }
    Err(PlanKind::Unknown)
}

/// The number of the ship of a name. Refuses with `Unknown` a name that none has.
pub fn ship_named(instance: &Instance, word: &[u8]) -> Result<u8, PlanKind>
    ensures { result ≡ ship_named instance.now.ships word.now }
{
    let ships = instance.ships.as_slice();
    for place in 0..ships.len() as u8 {
        if word == ships[place as usize].name.as_slice() {
            return Ok(place);
        }
    }
    Err(PlanKind::Unknown)
}

/// The quay for `*`, else the ship of the name. Refuses with `Unknown` a name that none has.
#[tactic(auto, unfolding(crate::specs::Words::host))]
pub fn host(instance: &Instance, word: &[u8]) -> Result<Host, PlanKind>
    ensures { result ≡ host instance.now.ships word.now }
{
    if word == b"*".as_slice() {
        return Ok(Host::Quay);
    }
    let ship = ship_named(instance, word)?;
    Ok(Host::Ship(ship))
}
