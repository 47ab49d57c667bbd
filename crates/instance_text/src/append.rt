//! What a line is made of.
ghost use Rattle.std.specs.Prelude.{◌≡◌, ◌++◌, OnOk};
ghost use Rattle.std.specs.List.{flat_map};
ghost use Rattle.instance_text.specs.Canonical.{field};

use no_memory::NoMemory;
use plain_text::{put, put_number};

/// Appends a space and a number, or answers want of memory.
#[tactic(auto, unfolding(crate::specs::Canonical::field))]
pub fn put_field(out: &mut Vec<u8>, number: u32) -> Result<(), NoMemory>
    ensures { OnOk result (out.new.items ≡ out.old.items ++ field number) }
{
    put(out, b" ")?;
    put_number(out, u64::from(number))
}

/// Appends a space and a number for each of these, or answers want of memory.
pub fn put_fields(out: &mut Vec<u8>, numbers: &[u32]) -> Result<(), NoMemory>
    ensures { OnOk result (out.new.items ≡ out.old.items ++ flat_map field numbers.now) }
{
    for &number in numbers {
        put_field(out, number)?;
    }
    Ok(())
}
