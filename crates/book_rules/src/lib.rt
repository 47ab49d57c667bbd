//! The search as a machine, the book: plain types, definitions and laws.
//!
//! - The machine: `specs/Book` (slots, cuts, prices, plans, history), `Events`, `Tests`, `Same`,
//!   `Shown` (what is shown or swept beside a book), `NextSlot` (which slot is taken), `Step` (what
//!   each event changes and answers, and what is refused), `Replay`, `Verdict`. Where no closing is
//!   refused, the node is as its ground asks, and it reaches a cost that is shown of it (`ClosingLemmas`,
//!   `ShownLemmas`).
//! - What every book keeps: `specs/Cover` (every cheaper plan is under a live slot), and
//!   `specs/Parts`, which joins `Family` (the slots make a tree), `States` (each state is true of its
//!   node), `Lows` (each node reaches what is shown of it), `Workers`, `Budget`, `Room` and `History`
//!   (entries that may still come), `Cheap` (cheap nodes are counted) and `Waiting` (the slots that are
//!   taken next).
//! - How a search ends: `specs/Ends` (what each verdict means, of an instance, a plan and numbers).
//!
//! The laws stand in `proofs/`: each event keeps the cover (`CoverLemmas`, `StepLemmas`), and the replay
//! of the history with it (`ReplayLemmas`). `BookRows` holds worked rows.
//!
//! Each event is a refusal or one of a few moves (`MoveLemmas`), and keeps each part
//! (`FamilyLemmas`, `StateLemmas`, `LowLemmas`, `WorkerLemmas`, `BudgetLemmas`, `RoomLemmas`,
//! `CheapLemmas`, `BackLemmas`); `PartLemmas` joins them. `NextLemmas` tells which slot is taken.
//!
//! A verdict means what it says where the search has ended well (`EndLemmas`). With as many nodes as
//! the node law says and as many turns as the turn law says the only verdict is `Optimal`
//! (`GrowLemmas`, `CaseCountLemmas`, `CompleteLemmas`).
#![tactic(auto)]

mod book;

pub use book::{Entry, ShownLow, SlotState};
