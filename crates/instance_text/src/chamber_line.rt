//! The line of a chamber.
ghost use Rattle.std.specs.Prelude.{◌≡◌, ◌≢◌, ◌<◌, ◌≤◌, All, length, IfOk};
ghost use Rattle.lock_model.specs.Instance.{IsChamber};
ghost use Rattle.line_text.specs.Texts.{texts};
ghost use Rattle.instance_text.specs.Chamber.{read_dimensions, AreDimensions, read_work, IsWork, read_chamber};

use crate::bad::Kind;
use crate::name::new_chamber_name;
use crate::numbers::number;
use crate::side::stand;
use line_text::{check, word_at};
use lock_model::{CHAMBERS, Chamber, Closures, MOST, Stand};

/// How large a chamber is, and what ships in it keep free.
struct Dimensions {
    length: u32,
    width: u32,
    end: u32,
    gap: u32,
    side: u32,
}

/// How a chamber works: how many ships it takes, its minutes, and where it stands at first.
struct Work {
    most: u8,
    pass: u32,
    turn: u32,
    stands: Stand,
    opens: u32,
}

/// The dimensions on a line. The first defect is that of a word from left to right.
#[tactic(auto, unfolding(crate::specs::Chamber::read_dimensions))]
fn read_dimensions(words: &[&[u8]]) -> Result<Dimensions, Kind>
    requires { length words.now ≡ 12 }
    ensures value { result ≡ read_dimensions (texts words.now) }
    ensures good { IfOk result AreDimensions }
{
    let length = number(word_at(words, 2), 1, 100_000)?;
    let width = number(word_at(words, 3), 1, 100_000)?;
    let end = number(word_at(words, 4), 0, 10_000)?;
    let gap = number(word_at(words, 5), 0, 10_000)?;
    let side = number(word_at(words, 6), 0, 10_000)?;
    Ok(Dimensions {
        length,
        width,
        end,
        gap,
        side,
    })
}

/// The work on a line. The first defect is that of a word from left to right.
#[tactic(auto, unfolding(crate::specs::Chamber::read_work))]
fn read_work(words: &[&[u8]]) -> Result<Work, Kind>
    requires { length words.now ≡ 12 }
    ensures value { result ≡ read_work (texts words.now) }
    ensures good { IfOk result IsWork }
{
    let most = number(word_at(words, 7), 1, MOST as u32)?;
    let pass = number(word_at(words, 8), 1, 1_000_000)?;
    let turn = number(word_at(words, 9), 0, 1_000_000)?;
    let stands = stand(word_at(words, 10))?;
    let opens = number(word_at(words, 11), 0, 1_000_000)?;
    Ok(Work {
        most: most as u8,
        pass,
        turn,
        stands,
        opens,
    })
}

/// The chamber of a line that comes after these chambers. The first defect is, in this order:
/// `Count`, `Range` for a fifth chamber, that of a word from left to right, `TurnOverPass`.
pub fn read_chamber(earlier: &[Chamber], words: &[&[u8]]) -> Result<Chamber, Kind>
    ensures value { result ≡ read_chamber earlier.now (texts words.now) }
    ensures room { IfOk result (λ c. length earlier.now < CHAMBERS) }
    ensures good { IfOk result IsChamber }
    ensures new { IfOk result (λ n. All (λ c. c.name ≢ n.name) earlier.now) }
{
    check(words.len() == 12, Kind::Count)?;
    check(earlier.len() < CHAMBERS, Kind::Range)?;
    let name = new_chamber_name(earlier, word_at(words, 1))?;
    let Dimensions {
        length,
        width,
        end,
        gap,
        side,
    } = read_dimensions(words)?;
    let Work {
        most,
        pass,
        turn,
        stands,
        opens,
    } = read_work(words)?;
    check(turn <= pass, Kind::TurnOverPass)?;
    Ok(Chamber {
        name,
        length,
        width,
        end,
        gap,
        side,
        most,
        pass,
        turn,
        stands,
        opens,
        closures: Closures::new(),
    })
}
