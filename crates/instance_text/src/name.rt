//! Names of chambers and ships.
ghost use Rattle.std.specs.Prelude.{◌≡◌, ◌≤◌, ◌&&◌, ◌≢◌, length, map, All, IfOk};
ghost use Rattle.std.specs.List.{list_all, list_any};
ghost use Rattle.std.specs.Str.{bytes_eq};
ghost use Rattle.lock_model.specs.Limits.{IsName, is_between, is_name_byte};
ghost use Rattle.instance_text.specs.Words.{name, new_name};
ghost use Rattle.lock_model.specs.declared.chamber.Chamber.{Chamber as AnyChamber};
ghost use Rattle.lock_model.specs.declared.ship.Ship.{Ship as AnyShip};

use crate::bad::Kind;
use line_text::check;
use lock_model::{Chamber, Name, Ship};

/// Whether a byte may stand in a name.
fn is_name_byte(byte: u8) -> bool
    ensures { result ≡ is_name_byte byte }
{
    matches!(byte, b'A'..=b'Z' | b'a'..=b'z' | b'0'..=b'9' | b'-' | b'_')
}

/// Whether each byte of a word may stand in a name.
fn are_name_bytes(word: &[u8]) -> bool
    ensures { result ≡ list_all is_name_byte word.now }
{
    word.iter().all(|byte| is_name_byte(*byte))
}

/// Whether a word is 1 to 12 bytes that may stand in a name.
fn is_name(word: &[u8]) -> bool
    ensures { result ≡ (is_between 1 12 (length word.now) && list_all is_name_byte word.now) }
{
    1 <= word.len() && word.len() <= 12 && are_name_bytes(word)
}

/// The name that a word writes.
pub fn copy_name(word: &[u8]) -> Name
    requires { length word.now ≤ 12 }
    ensures { result ≡ word.now }
{
    let mut name = Name::new();
    for byte in word {
        name.push(*byte);
    }
    name
}

/// A name. Refuses with `Name` a word that is none.
#[tactic(auto, unfolding(crate::specs::Words::name))]
pub fn name(word: &[u8]) -> Result<Name, Kind>
    ensures value { result ≡ name word.now }
    ensures same { IfOk result (λ n. n ≡ word.now) }
    ensures good { IfOk result IsName }
{
    check(is_name(word), Kind::Name)?;
    Ok(copy_name(word))
}

/// Whether a chamber has this name.
fn is_chamber_name(chambers: &[Chamber], word: &[u8]) -> bool
    ensures { result ≡ list_any (bytes_eq word.now) (map (λ (c : AnyChamber). c.name) chambers.now) }
{
    for chamber in chambers {
        if word == chamber.name.as_slice() {
            return true;
        }
    }
    false
}

/// Whether a ship has this name.
fn is_ship_name(ships: &[Ship], word: &[u8]) -> bool
    ensures { result ≡ list_any (bytes_eq word.now) (map (λ (s : AnyShip). s.name) ships.now) }
{
    for ship in ships {
        if word == ship.name.as_slice() {
            return true;
        }
    }
    false
}

/// The name of a chamber that comes after these. Refuses as `name` does, and with `Twice` a name
/// that one of them has.
#[tactic(auto, unfolding(crate::specs::Words::new_name))]
pub fn new_chamber_name(chambers: &[Chamber], word: &[u8]) -> Result<Name, Kind>
    ensures value { result ≡ new_name (map (λ (c : AnyChamber). c.name) chambers.now) word.now }
    ensures good { IfOk result IsName }
    ensures new { IfOk result (λ n. All (λ c. c.name ≢ n) chambers.now) }
{
    let name = name(word)?;
    check(!is_chamber_name(chambers, word), Kind::Twice)?;
    Ok(name)
}

/// The name of a ship that comes after these. Refuses as `name` does, and with `Twice` a name
/// that one of them has.
#[tactic(auto, unfolding(crate::specs::Words::new_name))]
pub fn new_ship_name(ships: &[Ship], word: &[u8]) -> Result<Name, Kind>
    ensures value { result ≡ new_name (map (λ (s : AnyShip). s.name) ships.now) word.now }
    ensures good { IfOk result IsName }
    ensures new { IfOk result (λ n. All (λ s. s.name ≢ n) ships.now) }
{
    let name = name(word)?;
    check(!is_ship_name(ships, word), Kind::Twice)?;
    Ok(name)
}
