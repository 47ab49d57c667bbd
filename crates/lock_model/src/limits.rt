//! The limits of the product, each in this one place: types, clauses, definitions, texts and tests
//! take them from here.

/// The chambers of an instance, at most.
pub const CHAMBERS: usize = 4;

/// The ships of an instance, at most; so also the groups of a line and the lockages of a plan.
pub const SHIPS: usize = 96;

/// The ships of an instance that a text of the first two formats says, at most: of a larger one the
/// texts, the plan texts and the dossiers are written by wider rules.
pub const FEW_SHIPS: usize = 24;

/// The nodes on the way from the root of the tree to a leaf, at most: one for each ship, and the root.
pub const SHIPS_AND_ROOT: usize = SHIPS + 1;

/// The children of a node, at most: the ship that enters joins one of the groups there, or opens a
/// group before or behind one, or in an empty line.
pub const CHILDREN: usize = 2 * (SHIPS - 1) + CHAMBERS;

/// The ships of a lockage, at most.
pub const MOST: usize = 8;

/// The decisions about a deck, at most: a berth for each ship, and a relation for each two.
pub const DECISIONS: usize = MOST * (MOST + 1) / 2;

/// The closures of a chamber, at most.
pub const CLOSURES: usize = 8;

/// The workers of a search, at most.
pub const WORKERS: usize = 8;

/// Those who may hold a node of a search, at most: its workers, and the driver who settles what they
/// leave.
pub const WORKERS_AND_DRIVER: usize = WORKERS + 1;
