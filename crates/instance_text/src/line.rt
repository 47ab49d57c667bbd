//! One line of an instance text after its header.
ghost use Rattle.std.specs.Prelude.{◌≡◌, ◌<◌, length, IfOk};
ghost use Rattle.std.specs.Str.{bytes_eq};
ghost use Rattle.line_text.specs.Lines.{word_at};
ghost use Rattle.line_text.specs.Texts.{texts};
ghost use Rattle.instance_text.specs.Closing.{has_closures};
ghost use Rattle.instance_text.specs.Draft.{IsWholeDraft};
ghost use Rattle.instance_text.specs.Reading.{add_chamber, add_ship, add_closure, read_end, read_line, answered};

use crate::bad::Kind;
use crate::chamber_line::read_chamber;
use crate::closing_line::read_closing;
use crate::draft::Draft;
use crate::format::Format;
use crate::ship_line::read_ship;
use line_text::{Progress, check, word_at};

/// Adds the chamber of a line.
#[tactic(auto, unfolding(crate::specs::Reading::add_chamber))]
fn add_chamber(draft: &mut Draft, words: &[&[u8]]) -> Result<Progress, Kind>
    ensures value { add_chamber draft.old (texts words.now) ≡ answered draft.new result }
    ensures more { IfOk result (λ p. p ≡ Progress.More) }
{
    let chamber = read_chamber(draft.chambers(), words)?;
    draft.push_chamber(chamber);
    Ok(Progress::More)
}

/// Adds the ship of a line.
#[tactic(auto, unfolding(crate::specs::Reading::add_ship))]
fn add_ship(format: Format, draft: &mut Draft, words: &[&[u8]]) -> Result<Progress, Kind>
    ensures value { add_ship format draft.old (texts words.now) ≡ answered draft.new result }
    ensures more { IfOk result (λ p. p ≡ Progress.More) }
{
    let ship = read_ship(format, draft.ships(), words)?;
    draft.push_ship(ship);
    Ok(Progress::More)
}

/// Whether closures may stand in texts of this format.
fn has_closures(format: Format) -> bool
    ensures { result ≡ has_closures format }
{
    match format {
        Format::First => false,
        Format::Second | Format::Third => true,
    }
}

/// Adds the closure of a line, which stands in the second and the third format.
#[tactic(auto, unfolding(crate::specs::Reading::add_closure))]
fn add_closure(format: Format, draft: &mut Draft, words: &[&[u8]]) -> Result<Progress, Kind>
    ensures value { add_closure format draft.old (texts words.now) ≡ answered draft.new result }
    ensures more { IfOk result (λ p. p ≡ Progress.More) }
{
    check(has_closures(format), Kind::Word)?;
    let (place, closure) = read_closing(draft.chambers(), words)?;
    draft.add_closure(place, closure);
    Ok(Progress::More)
}

/// The line `end`.
#[tactic(auto, unfolding(crate::specs::Reading::read_end))]
fn read_end(draft: &Draft, words: &[&[u8]]) -> Result<Progress, Kind>
    ensures value { read_end draft.now (texts words.now) ≡ answered draft.now result }
    ensures whole { IfOk result (λ p. IsWholeDraft draft.now) }
{
    check(words.len() == 1, Kind::Count)?;
    check(!draft.chambers().is_empty(), Kind::NoChamber)?;
    check(!draft.ships().is_empty(), Kind::NoShip)?;
    Ok(Progress::Ended)
}

/// Whether a line begins with this word.
fn begins_with(words: &[&[u8]], first: &[u8]) -> bool
    requires { 0 < length words.now }
    ensures { result ≡ bytes_eq (word_at (texts words.now) 0) first.now }
{
    word_at(words, 0) == first
}

/// Reads a line into the draft, by its first word.
#[tactic(auto, unfolding(crate::specs::Reading::read_line))]
pub fn read_line(format: Format, draft: &mut Draft, words: &[&[u8]]) -> Result<Progress, Kind>
    ensures value { read_line format draft.old (texts words.now) ≡ answered draft.new result }
    ensures whole { IfOk result (λ p. p ≡ Progress.Ended → IsWholeDraft draft.new) }
{
    if words.is_empty() {
        return Ok(Progress::More);
    }
    // (tests and no `match`, which would be proved letter by letter)
    if begins_with(words, b"chamber") {
        add_chamber(draft, words)
    } else if begins_with(words, b"ship") {
        add_ship(format, draft, words)
    } else if begins_with(words, b"close") {
        add_closure(format, draft, words)
    } else if begins_with(words, b"end") {
        read_end(draft, words)
    } else {
        Err(Kind::Word)
    }
}
