//! Loose lines of the least worth.
ghost use Rattle.std.specs.Prelude.{◌≡◌, IfOk};

use crate::error::{PriceError, append};
use lock_model::Group;
use std::alloc::Global;

/// A loose line of a chamber: its groups in order of service, and 100 times its flow time and what they
/// are charged, less what they pay, in hundredths of a minute.
#[derive(Drop)]
pub struct LooseLine {
    pub groups: Vec<Group>,
    pub worth: i64,
}

/// The same groups.
pub fn copied(alloc: Global, groups: &[Group]) -> Result<Vec<Group>, PriceError>
    ensures { IfOk result (λ copies. copies.items ≡ groups.now) }
{
    let mut copies = Vec::new(alloc);
    for group in groups {
        append(&mut copies, group.copy())?;
    }
    Ok(copies)
}

impl LooseLine {
    /// The same line.
    pub fn copy(&self, alloc: Global) -> Result<LooseLine, PriceError>
        ensures groups { IfOk result (λ line. line.groups.items ≡ self.now.groups.items) }
        ensures worth { IfOk result (λ line. line.worth ≡ self.now.worth) }
    {
        Ok(LooseLine {
            groups: copied(alloc, &self.groups)?,
            worth: self.worth,
        })
    }
}

/// A loose line for each chamber, and what they are worth together with the prices of the missing
/// ships, less those of the triples, in hundredths of a minute.
#[derive(Drop)]
pub struct LooseLines {
    pub lines: Vec<LooseLine>,
    pub sum: i64,
}
