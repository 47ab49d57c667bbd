//! The book of a search: the search tree with its open, held and closed slots, the cuts, the prices,
//! the best plan, and the history of what was accepted.
//!
//! `open_book` opens a book with a legal plan. Its eleven events are methods: each answers exactly what
//! the step of the book machine answers for its event, and leaves the book that the step leaves; a
//! refusal leaves the book as it was. `split`, `post`, `post_prices`, `show_low` and `replace` take
//! memory, and take it all before they change anything; the other events take none. `verdict` says what the book
//! has shown. The type keeps what every event keeps (`Book::keeps`): the book is the replay of its
//! history, the best plan is legal, and every legal plan cheaper than it lies under a slot that is
//! open, held or parked. `every_list_keeps` is that law over every list of events.
//!
//! - Fields, opening and readers: `book`, `opening`, `finding`, `summing` (the verdict).
//! - Events: `taking`, `splitting`, `closing`, `showing` (what was shown beside the book, by prices),
//!   `sweeping` (what was swept beside it), `lows` (a cost that was shown is kept), `parking`, `posting`,
//!   `pricing`, `replacing`, `releasing`.
//!   What they change together: `moves`, `growing`.
//! - Tables by which no event walks all slots but `replace`: `hands` (the slot that each worker
//!   holds, a `hand`), `back_list` (the returned slots, nine at most, by rising number), `waiting`
//!   (the splits that may have a fresh child, by rising first child). A split that has none leaves
//!   `waiting` when `take` meets it: one `take` may look at several splits, but all of them together
//!   look at no more splits than there are takes and splits.
//! - `cuts` has each cut whole, and as prices see it, by which `showing` and `sweeping` compare.
//! - Nodes aren't stored with the slots. A hand has its slot's node, and the bounds of the node's
//!   children from the first probe of the ship that the node lacks first until the split. `path` has
//!   the slots on the way from the root to the slot that was taken last, with their nodes: `take`
//!   cuts it off where the way to the new slot leaves it, and makes the nodes from there on, which is
//!   one in a depth-first search. The node of a slot that no worker holds is made from the root's
//!   (`nodes`). `bounding` has the probes and the bounds, and `probed` is a node with the probe of the
//!   ship that it lacks first. Bounds may also be worked out without the book (`foreseen`) and laid into
//!   the hand, where they are of its instance and of the slot's node.
//!
//! Definitions: `book_rules` has the machine (`specs/Book`, `Events`, `Step`), the replay, the
//! cover and the counts. Here `specs/Replies` says what it is that a method is a step, `Telling` what
//! the machine sees of what was shown or swept, `Keeps` what every book keeps, `Stored` which slots the stored
//! ones are, `Tables`, `Hands`, `Path` and `Next` what the tables and the kept nodes say, `Laws` the
//! law.
#![tactic(auto)]

mod back_list;
mod book;
mod bounding;
mod case;
mod closing;
mod cuts;
mod decks;
mod finding;
mod foreseen;
mod growing;
mod hand;
mod hands;
mod hitting;
mod laws;
mod lows;
mod moves;
mod nodes;
mod opening;
mod parking;
mod path;
mod posting;
mod pricing;
mod probed;
mod releasing;
mod replacing;
mod reply;
mod showing;
mod splitting;
mod stored_slot;
mod summing;
mod sweeping;
mod taking;
mod waiting;

pub use book::Book;
pub use case::Case;
pub use foreseen::Foreseen;
pub use laws::every_list_keeps;
pub use opening::open_book;
pub use probed::Probed;
pub use reply::{Grant, Refusal, Reply};
