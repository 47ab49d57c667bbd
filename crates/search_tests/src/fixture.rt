//! Cases, and their books.

use book_core::{Book, Case, open_book};
use first_plan::singles_plan;
use lock_model::Instance;
use mooring_rules::first_unfit;
use std::alloc::Global;
use std::test::Fail;

/// A case of an instance whose ships fit some chamber each.
pub(crate) fn case_of(instance: Instance, nodes: u32, turns: u32) -> Option<Case> {
    if first_unfit(&instance).is_some() || nodes < 1 || nodes > 1000000 {
        return None;
    }
    if turns < 1 || turns > 200000 {
        return None;
    }
    Some(Case::new(instance, nodes, turns))
}

/// The book of an instance for so many nodes and turns, opened with its singles plan.
pub(crate) fn open(
    alloc: Global,
    instance: Option<Instance>,
    nodes: u32,
    turns: u32,
) -> Result<Book, Fail> {
    let Some(instance) = instance else {
        return Err("no instance".into());
    };
    let case = case_of(instance, nodes, turns).ok_or("no case")?;
    if first_unfit(&case.instance).is_some() {
        return Err("an unfit ship".into());
    }
    let plan = singles_plan(&case.instance);
    Ok(open_book(alloc, &case, plan)?)
}
