//! A book under a lock, for threads that search it together, and a ledger of its accepted events.
//!
//! `share_book` puts a book under its lock, with a share of the ledger for each worker and one for
//! the caller. `SharedBook::with_book` makes one event of the book. In one holding of the lock
//! `end_and_take` makes one and then a taking, `close_and_take` closes a slot by what was shown beside
//! the lock and then makes one, and `go_ahead` ends node after node that were worked
//! out ahead, each with the taking of the next one, as far as the book comes to them.
//! `take_or_wait` takes a slot, and waits while none is open and one may come. `learn_cuts` and
//! `parent` only read. `into_book` gives the book back once all shares are there. Each event is
//! made under the lock, so it is one step of the book machine for all threads. The share that it is
//! lent grows by one exactly where the event is accepted; since the book's history is as long as
//! the ledger's total (`Kept`), no accepted event is lost, and none comes without its entry in the
//! history.
//!
//! - `event`: the events, each the method of `Book` of its name. `replies`: what replies say.
//! - `kept`: the lock's value. `applying`: one event of it (`apply`), and one with a taking (`next`).
//! - `ahead`: nodes that were worked out ahead. `going`: how a book goes through them (`gone`).
//! - `shutting`: a slot that is closed by prices. `learning`: the book's cuts, as prices see them.
//! - `share_list`: the shares. `sharing`: `share_book`, `into_book`. `shared`: the calls of threads.
//!
//! Definitions: `specs/Events` says which event of the machine an event is, and what its caller
//! owes, `Applied` what an event does to a book, `Following` what a taking after it does,
//! `Shutting` what closing by prices and a taking do, `Going` what nodes ahead do, `Asked` what is
//! known of the book under its lock, `Replies` which replies are accepted, `Shares` what a list of
//! shares is. A share and the total take no bytes, and
//! are there for the proof alone.
#![tactic(auto)]

mod ahead;
mod applying;
mod event;
mod going;
mod gone;
mod kept;
mod learning;
mod next;
mod replies;
mod share_list;
mod shared;
mod sharing;
mod shutting;

pub use ahead::{Ahead, Ending, Stretch};
pub use applying::{apply, apply_and_take};
pub use event::Event;
pub use going::go_ahead;
pub use gone::Gone;
pub use kept::Kept;
pub use learning::learn_cuts;
pub use next::Next;
pub use share_list::ShareList;
pub use shared::SharedBook;
pub use sharing::share_book;
pub use shutting::{Closing, close_and_take};
