//! Texts with numbers in the places of their `%` signs.
ghost use Rattle.std.specs.Prelude.{[], ◌≡◌, ◌++◌, OnOk, decimal};
ghost use Rattle.picture_page.specs.Forms.{filled};

use no_memory::NoMemory;
use plain_text::{put, put_number};

/// Appends a text with these numbers in decimal, one after the other, in the places of its `%`
/// signs. Signs without a number stay, and numbers without a sign are left out.
#[tactic(auto, using(crate::proofs::FormLemmas::filled_none), unfolding(crate::specs::Forms::filled))]
pub(crate) fn put_form(out: &mut Vec<u8>, form: &[u8], numbers: &[u64]) -> Result<(), NoMemory>
    ensures { OnOk result (out.new.items ≡ out.old.items ++ filled form.now numbers.now) }
{
    let [number, others @ ..] = numbers else {
        return put(out, form);
    };
    match form {
        [] => Ok(()),
        [b'%', rest @ ..] => {
            put_number(out, *number)?;
            put_form(out, rest, others)
        }
        [byte, rest @ ..] => {
            put(out, &[*byte])?;
            put_form(out, rest, numbers)
        }
    }
}

/// Appends a text between two others.
pub(crate) fn put_between(
    out: &mut Vec<u8>,
    before: &[u8],
    text: &[u8],
    after: &[u8],
) -> Result<(), NoMemory>
    ensures { OnOk result (out.new.items ≡ out.old.items ++ (filled before.now [] ++ text.now ++ filled after.now [])) }
{
    put_form(out, before, &[])?;
    put(out, text)?;
    put_form(out, after, &[])
}

/// Appends a number in decimal between two texts.
pub(crate) fn put_number_between(
    out: &mut Vec<u8>,
    before: &[u8],
    number: u64,
    after: &[u8],
) -> Result<(), NoMemory>
    ensures { OnOk result (out.new.items ≡ out.old.items ++ (filled before.now [] ++ decimal number ++ filled after.now [])) }
{
    put_form(out, before, &[])?;
    put_number(out, number)?;
    put_form(out, after, &[])
}
