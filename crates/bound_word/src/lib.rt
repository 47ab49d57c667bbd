//! The cost of the best plan so far, one word that workers share without the lock of the book.
//!
//! A `BoundTable` holds the word, and workers share it by reference. What one worker holds is a
//! `BoundSeat`; a call lends the table and the seat, and the seat must be of that table. A seat's
//! view tells the least number that the seat has seen, what it has posted, and its parts.
//!
//! - `BoundTable::load` gives a number no greater than the opening one and than all that the seat has
//!   seen or posted; `BoundTable::lower` posts a cost. To a seat that holds all parts both give just
//!   the least of what stood there.
//! - `BoundTable::split` and `BoundTable::join` deal out the parts of a seat and gather them.
//! - `BoundTable::close` takes a seat that holds all parts, so that no other seat is out, and gives
//!   the least of the opening number and of all that was posted.
//!
//! Nothing is promised of when a seat sees what another posted. No call but `new` takes memory, and
//! none waits.
//!
//! Definitions: `specs/Views` (what a seat knows, and what each step makes of it), `Rule` (what holds
//! of the word and of all views between any two steps), `Steps` (what a step tells), `Seats` (a table
//! and a seat as contracts see them).
#![tactic(auto)]

mod seat;
mod steps;
mod table;
mod view;

pub use seat::BoundSeat;
pub use table::BoundTable;
pub use view::{Opening, View};
