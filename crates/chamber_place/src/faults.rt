//! Faults of a case.
ghost use Rattle.std.specs.Prelude.{◌≡◌, ◌≤◌, ◌∷◌, ◌++◌, length, OnOk};
ghost use Rattle.refute_rules.specs.Cases.{case_fault_numbers};
ghost use Rattle.chamber_place.specs.Faults.{fault_of};

use diff_system::Numbers;
use refute_rules::Marks;
use std::alloc::AllocError;

/// Why no numbers obey a case: a ship with a host of the other rank, or the edges of a closed walk
/// of positive total.
#[derive(Drop)]
pub(crate) enum CaseFault {
    OtherRank(u8),
    Walk(Numbers),
}

impl CaseFault {
    /// The same fault.
    pub(crate) fn copy(&self) -> CaseFault
        ensures { result ≡ self.now }
    {
        match self {
            CaseFault::OtherRank(ship) => CaseFault::OtherRank(*ship),
            CaseFault::Walk(numbers) => CaseFault::Walk(copy_numbers(numbers)),
        }
    }
}

// The same numbers.
fn copy_numbers(numbers: &Numbers) -> Numbers
    ensures { result ≡ numbers.now }
{
    let mut copy = Numbers::new();
    for &number in numbers.as_slice() {
        copy.push(number);
    }
    copy
}

// Appends how many edges a walk has, and their numbers.
fn write_walk(numbers: &[u8], marks: &mut Marks) -> Result<(), AllocError>
    requires { length numbers.now ≤ 96 }
    ensures { OnOk result (marks.new ≡ marks.old ++ length numbers.now ∷ numbers.now) }
{
    marks.push(numbers.len() as u32)?;
    for &number in numbers {
        marks.push(number as u32)?;
    }
    Ok(())
}

/// Appends the numbers of a fault to a tree.
pub(crate) fn write_fault(fault: &CaseFault, marks: &mut Marks) -> Result<(), AllocError>
    ensures { OnOk result (marks.new ≡ marks.old ++ case_fault_numbers (fault_of fault.now)) }
{
    match fault {
        CaseFault::OtherRank(ship) => {
            marks.push(1)?;
            marks.push(*ship as u32)
        }
        CaseFault::Walk(numbers) => write_walk(numbers.as_slice(), marks),
    }
}
