//! The line of a ship.
ghost use Rattle.std.specs.Prelude.{◌≡◌, ◌≢◌, ◌<◌, ◌≤◌, All, length, IfOk};
ghost use Rattle.lock_model.specs.Instance.{IsShip};
ghost use Rattle.line_text.specs.Texts.{texts};
ghost use Rattle.instance_text.specs.Ship.{is_ship_count, most_ships, cargo, read_figures, AreFigures, read_ship};

use crate::bad::Kind;
use crate::format::Format;
use crate::name::new_ship_name;
use crate::numbers::number;
use crate::side::way;
use line_text::{check, word_at};
use lock_model::{FEW_SHIPS, SHIPS, Ship};

/// Whether a ship line of this format may have `count` words.
fn is_ship_count(format: Format, count: usize) -> bool
    ensures { result ≡ is_ship_count format count }
{
    match format {
        Format::First => count == 7,
        Format::Second | Format::Third => count == 7 || count == 8,
    }
}

/// The ships of a text of this format, at most.
fn most_ships(format: Format) -> usize
    ensures value { result ≡ most_ships format }
    ensures within { result ≤ SHIPS }
{
    match format {
        Format::First | Format::Second => FEW_SHIPS,
        Format::Third => SHIPS,
    }
}

/// The cargo class, which is 0 where the line has no eighth word.
#[tactic(auto, unfolding(crate::specs::Ship::cargo))]
fn cargo(words: &[&[u8]]) -> Result<u8, Kind>
    ensures value { result ≡ cargo (texts words.now) }
    ensures within { IfOk result (λ n. n ≤ 9) }
{
    if words.len() != 8 {
        return Ok(0);
    }
    let class = number(word_at(words, 7), 0, 9)?;
    Ok(class as u8)
}

/// How large a ship is, when it comes, and how long it is handled.
struct Figures {
    length: u32,
    width: u32,
    arrival: u32,
    handling: u32,
}

/// The figures on a line. The first defect is that of a word from left to right.
#[tactic(auto, unfolding(crate::specs::Ship::read_figures))]
fn read_figures(words: &[&[u8]]) -> Result<Figures, Kind>
    requires { 7 ≤ length words.now }
    ensures value { result ≡ read_figures (texts words.now) }
    ensures good { IfOk result AreFigures }
{
    let length = number(word_at(words, 3), 1, 100_000)?;
    let width = number(word_at(words, 4), 1, 100_000)?;
    let arrival = number(word_at(words, 5), 0, 1_000_000)?;
    let handling = number(word_at(words, 6), 0, 1_000_000)?;
    Ok(Figures {
        length,
        width,
        arrival,
        handling,
    })
}

/// The ship of a line that comes after these ships. The first defect is, in this order: `Count`,
/// `Range` for more ships than the format takes, that of a word from left to right.
pub fn read_ship(format: Format, earlier: &[Ship], words: &[&[u8]]) -> Result<Ship, Kind>
    ensures value { result ≡ read_ship format earlier.now (texts words.now) }
    ensures room { IfOk result (λ s. length earlier.now < SHIPS) }
    ensures good { IfOk result IsShip }
    ensures new { IfOk result (λ n. All (λ s. s.name ≢ n.name) earlier.now) }
{
    check(is_ship_count(format, words.len()), Kind::Count)?;
    check(earlier.len() < most_ships(format), Kind::Range)?;
    let name = new_ship_name(earlier, word_at(words, 1))?;
    let way = way(word_at(words, 2))?;
    let Figures {
        length,
        width,
        arrival,
        handling,
    } = read_figures(words)?;
    let cargo = cargo(words)?;
    Ok(Ship {
        name,
        way,
        length,
        width,
        arrival,
        handling,
        cargo,
    })
}
