//! The line of a closure.
ghost use Rattle.std.specs.Prelude.{◌≡◌, ◌<◌, ◌≤◌, ◌++◌, length, nat_lt, false, IfOk};
ghost use Rattle.std.specs.List.{list_any, position_or_len};
ghost use Rattle.lock_model.specs.Closures.{AreClosures, IsClosure};
ghost use Rattle.lock_model.specs.declared.closure.Closure.{Closure as AnyClosure};
ghost use Rattle.line_text.specs.Texts.{texts};
ghost use Rattle.instance_text.specs.Closing.{chamber_named, share_a_minute, is_free, closures_of, chamber_to_close, read_minutes, read_closing, CanClose, put_closure, with_closure};

use crate::bad::Kind;
use crate::name::name;
use crate::numbers::number;
use line_text::{check, word_at};
use lock_model::{CLOSURES, Chamber, Chambers, Closure, Closures};

/// The number of the chamber of a name. Refuses with `Unknown` a name that none has.
#[tactic(auto, unfolding(crate::specs::Closing::chamber_named))]
fn chamber_named(chambers: &[Chamber], word: &[u8]) -> Result<usize, Kind>
    ensures value { result ≡ chamber_named chambers.now word.now }
    ensures known { IfOk result (λ place. place < length chambers.now) }
{
    for (place, chamber) in chambers.iter().enumerate() {
        if word == chamber.name.as_slice() {
            return Ok(place);
        }
    }
    Err(Kind::Unknown)
}

/// Whether some minute lies in both closures.
fn share_a_minute(a: Closure, b: Closure) -> bool
    ensures { result ≡ share_a_minute a b }
{
    a.from < b.to && b.from < a.to
}

/// Whether some minute of a closure lies in another.
fn is_overlap(closure: Closure, others: &[Closure]) -> bool
    ensures { result ≡ list_any (share_a_minute closure) others.now }
{
    others.iter().any(|other| share_a_minute(closure, *other))
}

/// Whether a closure is not empty and has no minute of another.
fn is_free(closure: Closure, others: &[Closure]) -> bool
    ensures { result ≡ is_free closure others.now }
{
    closure.from < closure.to && !is_overlap(closure, others)
}

/// The chamber that a line names, which has room for one more closure. The first defect is, in
/// this order: that of the name, `Unknown`, `Range` for a ninth closure of the chamber.
#[tactic(auto, unfolding(crate::specs::Closing::chamber_to_close))]
fn chamber_to_close(chambers: &[Chamber], word: &[u8]) -> Result<usize, Kind>
    ensures value { result ≡ chamber_to_close chambers.now word.now }
    ensures known { IfOk result (λ place. place < length chambers.now) }
    ensures room { IfOk result (λ place. length (closures_of chambers.now place) < CLOSURES) }
{
    name(word)?;
    let place = chamber_named(chambers, word)?;
    check(
        chambers[place].closures.as_slice().len() < CLOSURES,
        Kind::Range,
    )?;
    Ok(place)
}

/// The closure of a line, beside the others of its chamber. The first defect is that of a number
/// from left to right, then `Overlap`.
#[tactic(auto, unfolding(crate::specs::Closing::read_minutes))]
fn read_minutes(others: &[Closure], words: &[&[u8]]) -> Result<Closure, Kind>
    requires { length words.now ≡ 4 }
    ensures value { result ≡ read_minutes others.now (texts words.now) }
    ensures good { IfOk result IsClosure }
    ensures apart { IfOk result (λ closure. list_any (share_a_minute closure) others.now ≡ false) }
{
    let from = number(word_at(words, 2), 0, 1_000_000)?;
    let to = number(word_at(words, 3), 0, 1_000_000)?;
    let closure = Closure { from, to };
    check(is_free(closure, others), Kind::Overlap)?;
    Ok(closure)
}

/// The chamber and the closure of a line. The first defect is, in this order: `Count`, that of the
/// name, `Unknown`, `Range` for a ninth closure of the chamber, that of a number from left to
/// right, `Overlap`.
pub fn read_closing(chambers: &[Chamber], words: &[&[u8]]) -> Result<(usize, Closure), Kind>
    ensures value { result ≡ read_closing chambers.now (texts words.now) }
    ensures good { IfOk result (λ r. CanClose chambers.now r.0 r.1) }
{
    check(words.len() == 4, Kind::Count)?;
    let place = chamber_to_close(chambers, word_at(words, 1))?;
    let closure = read_minutes(chambers[place].closures.as_slice(), words)?;
    Ok((place, closure))
}

/// How many closures stand before the first that begins after this minute.
fn place_at(closures: &[Closure], from: u32) -> usize
    ensures value { result ≡ position_or_len (λ (other : AnyClosure). nat_lt from other.from) closures.now }
    ensures within { result ≤ length closures.now }
{
    for (place, other) in closures.iter().enumerate() {
        if from < other.from {
            return place;
        }
    }
    closures.len()
}

/// Appends closures that go on from those before.
fn append(closures: &mut Closures, more: &[Closure])
    requires { AreClosures (closures.old ++ more.now) }
    ensures { closures.new ≡ closures.old ++ more.now }
{
    for closure in more {
        closures.push(*closure);
    }
}

/// These closures and one more.
fn put_closure(closure: Closure, others: &Closures) -> Closures
    requires room { length others.now < CLOSURES }
    requires good { IsClosure closure }
    requires apart { list_any (share_a_minute closure) others.now ≡ false }
    ensures { result ≡ put_closure closure others.now }
{
    let others = others.as_slice();
    let place = place_at(others, closure.from);
    let mut all = Closures::new();
    append(&mut all, &others[..place]);
    all.push(closure);
    append(&mut all, &others[place..]);
    all
}

/// Adds a closure to a chamber.
#[tactic(auto, unfolding(crate::specs::Closing::with_closure))]
pub fn add_closure(chambers: &mut Chambers, place: usize, closure: Closure)
    requires { CanClose chambers.old place closure }
    ensures { chambers.new ≡ with_closure chambers.old place closure }
{
    let mut chamber = chambers.as_slice()[place].copy();
    chamber.closures = put_closure(closure, &chamber.closures);
    chambers.set(place, chamber);
}
