//! Letters and words.
ghost use Rattle.std.specs.Prelude.{◌≡◌, ◌<◌, ◌^◌, ◌++◌, ◌∷◌, OnOk, decimal};
ghost use Rattle.plan_print.specs.Words.{letter, rank_word};

use lock_model::Rank;
use no_memory::NoMemory;
use plain_text::{put, put_number};

/// The letter of the ship at a place of a lockage.
pub(crate) fn letter(place: u8) -> u8
    requires { place < 2 ^ 7 }
    ensures { result ≡ letter place }
{
    b'A' + place
}

/// The word for a rank: `left` or `right`.
pub fn rank_word(rank: Rank) -> &'static [u8]
    ensures { result.now ≡ rank_word rank }
{
    match rank {
        Rank::Left => b"left",
        Rank::Right => b"right",
    }
}

/// Appends a word after a space, or answers want of memory.
pub fn put_word(out: &mut Vec<u8>, word: &[u8]) -> Result<(), NoMemory>
    ensures { OnOk result (out.new.items ≡ out.old.items ++ 32 ∷ word.now) }
{
    put(out, b" ")?;
    put(out, word)
}

/// Appends a name and, in decimal, the number that it names; or answers want of memory.
pub fn put_named(out: &mut Vec<u8>, name: &[u8], number: u64) -> Result<(), NoMemory>
    ensures { OnOk result (out.new.items ≡ out.old.items ++ (name.now ++ decimal number)) }
{
    put(out, name)?;
    put_number(out, number)
}
