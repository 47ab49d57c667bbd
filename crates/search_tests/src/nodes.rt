//! The laws of trees.

use crate::locks::three;
use crate::worked::two_ships;
use lock_model::Instance;
use master_branch::{children_split_plans, node_limit, root};

// The most nodes of an instance, whose root's children split its plans.
fn limit_of(instance: Option<Instance>) -> Option<u128> {
    let instance = instance?;
    if !instance.ships.as_slice().is_empty() {
        children_split_plans(&instance, &root(&instance));
    }
    node_limit(&instance)
}

#[test]
fn a_tree_has_no_more_nodes_than_its_law_allows(rt: HostRuntime) {
    assert!(rt; limit_of(two_ships(240)) == Some(5));
    assert!(rt; limit_of(three()) == Some(20));
}
