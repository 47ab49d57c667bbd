//! The values of a chamber's states behind no line, asked one after another.
ghost use Rattle.std.specs.Prelude.{◌≡◌, ◌≤◌, [], All, IfOk, OnOk};
ghost use Rattle.price_groups.specs.Asked.{line_asked, group_asked};
ghost use Rattle.price_groups.specs.GrownLists.{IsGrownList};
ghost use Rattle.price_groups.specs.Masks.{AreAllCompletableIn};
ghost use Rattle.price_table.specs.Ends.{AreEndValues, IsLeastBehind};

use crate::horizon::horizon;
use crate::least::value_of;
use crate::line_least::successor_lists_for;
use crate::state::State;
use crate::table::Table;
use crate::values::Values;
use lock_model::Stand;
use price_groups::{Extension, GrownList, LineCase};
use price_successors::SuccessorList;
use price_terms::PriceError;
use std::alloc::Global;

/// The table of a chamber without a line, in which the least worth of ways to go on by missing ships alone
/// is asked of any minute, in hundredths of a minute. What is worked out is kept.
#[derive(Drop)]
pub struct EndValues<'a> {
    alloc: Global,
    case: &'a LineCase<'a>,
    successor_lists: Vec<SuccessorList>,
    horizon: u64,
    turns: u64,
    values: Values,
}

impl<'a> EndValues<'a> {
    /// The table of the chamber of an extension, whose line is empty. Groups that grow are kept in the
    /// lists.
    pub fn new(
        alloc: Global,
        case: &'a LineCase<'a>,
        extension: &Extension,
        lists: &mut Vec<GrownList>,
        turns: u64,
    ) -> Result<EndValues<'a>, PriceError>
        requires case { extension.now.case.now ≡ case.now }
        requires empty { case.now.line.now ≡ [] }
        requires completable { AreAllCompletableIn (group_asked extension.now) extension.now.completable.now }
        requires lists { All (IsGrownList (group_asked extension.now)) lists.old.items }
        ensures lists { All (IsGrownList (group_asked extension.now)) lists.new.items }
        ensures are { IfOk result AreEndValues }
        ensures asked { IfOk result (λ values. line_asked values.case.now ≡ line_asked case.now) }
    {
        let successor_lists = successor_lists_for(alloc, extension, lists)?;
        let horizon = horizon(case);
        let values = Values::new(alloc, 1, case.chamber.opens as u64, horizon)?;
        Ok(EndValues {
            alloc,
            case,
            successor_lists,
            horizon,
            turns,
            values,
        })
    }

    /// The least worth of ways to go on, where the chamber stands so and is free at a minute.
    pub fn least(&mut self, stand: Stand, minute: u64) -> Result<i64, PriceError>
        requires are { AreEndValues self.old }
        requires minute { minute ≤ 14000000 }
        ensures same { self.new.case ≡ self.old.case }
        ensures are { OnOk result (AreEndValues self.new) }
        ensures least { IfOk result (IsLeastBehind (line_asked self.old.case.now) stand minute) }
    {
        let table = Table {
            case: self.case,
            successor_lists: &self.successor_lists,
            horizon: self.horizon,
            turns: self.turns,
        };
        let state = State {
            place: 0,
            stand,
            minute,
        };
        value_of(self.alloc, &table, &mut self.values, &state)
    }

    /// A minute from which on no way to go on is worth less than 0.
    pub fn horizon(&self) -> u64
        requires { AreEndValues self.now }
        ensures { result ≤ 1010000 }
    {
        self.horizon
    }
}
