//! Lengths and counts.
ghost use Rattle.std.specs.Prelude.{[], ◌≡◌, ◌≤◌, ◌++◌, length, OnOk};
ghost use Rattle.picture_page.specs.Forms.{filled};
ghost use Rattle.picture_page.specs.Words.{metres, measures, plural, count_text};

use crate::form::put_form;
use crate::times::digits;
use no_memory::NoMemory;
use plain_text::put;

/// How many characters a length of so many decimetres has in metres.
#[tactic(auto, using(crate::proofs::TimeLemmas::of_widths))]
pub(crate) fn metres_width(decimetres: u32) -> u64
    ensures value { result ≡ length (metres decimetres) }
    ensures small { result ≤ 42 }
{
    digits(decimetres as u64 / 10) + 2
}

/// Appends a length and a width of so many decimetres in metres, and a text after them.
#[tactic(auto, unfolding(crate::specs::Words::measures))]
pub(crate) fn put_measures(
    out: &mut Vec<u8>,
    length: u32,
    width: u32,
    after: &[u8],
) -> Result<(), NoMemory>
    ensures { OnOk result (out.new.items ≡ out.old.items ++ (measures length width ++ filled after.now [])) }
{
    let (long, wide) = (length as u64, width as u64);
    put_form(
        out,
        b"%.% &#215; %.% m",
        &[long / 10, long % 10, wide / 10, wide % 10],
    )?;
    put_form(out, after, &[])
}

/// Appends the ending of a name where there isn't just one thing.
pub(crate) fn put_plural(out: &mut Vec<u8>, count: u64) -> Result<(), NoMemory>
    ensures { OnOk result (out.new.items ≡ out.old.items ++ plural count) }
{
    if count == 1 {
        return Ok(());
    }
    put(out, b"s")
}

/// Appends that ending between two texts.
pub(crate) fn put_plural_between(
    out: &mut Vec<u8>,
    before: &[u8],
    count: u64,
    after: &[u8],
) -> Result<(), NoMemory>
    ensures { OnOk result (out.new.items ≡ out.old.items ++ (filled before.now [] ++ plural count ++ filled after.now [])) }
{
    put_form(out, before, &[])?;
    put_plural(out, count)?;
    put_form(out, after, &[])
}

/// Appends a count of things that have this name.
#[tactic(auto, unfolding(crate::specs::Words::count_text))]
pub(crate) fn put_count(out: &mut Vec<u8>, count: u64, name: &[u8]) -> Result<(), NoMemory>
    ensures { OnOk result (out.new.items ≡ out.old.items ++ count_text count name.now) }
{
    put_form(out, b"% ", &[count])?;
    put(out, name)?;
    put_plural(out, count)
}
