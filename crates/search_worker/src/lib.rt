//! One worker thread that searches a book which several share.
//!
//! `search` takes nodes of a shared book and works on each, and on the nodes below it, as long as any
//! is open or held and the budget lasts. It works out nodes ahead of the book, beside the lock, and
//! hands them over in one holding of it; a plan, a cut or a park is an event of its own. It looks at
//! the best cost and at the cuts of other workers beside the lock too. Where memory is refused, it
//! releases the node in its hand and ends, so that nobody waits for it. It hands back what it was
//! given (`Hands`), one part of the ledger of accepted events and one part of the shared best cost.
//!
//! Of what the shared book answers nothing is known but its type. So the worker tests that a node is
//! one of the instance (`trusting`), and takes every answer that doesn't come to a worker of these
//! rules for a reason to end. The book stays the authority: it accepts an event or refuses it.
//!
//! For each node that was taken (`taking`, which waits for it) `working` reads the best cost and asks `node_work` what
//! becomes of the node. One that is split or closed begins a stretch: `walking` works out the nodes
//! below it, depth first and in the book's order (`trail`), up to one for which the book needs more
//! than bounds. Any other one ends as `ending` says. Where the workers have prices (`board`), a node
//! that would be split is priced first (`pricing`): it begins with the prices that its parent left,
//! whoever split that, and is closed where it reaches the best cost by them. That is `price` of
//! `price_search`, at the desk that the post is. `sharing` posts what the others are to see, and `knowing`
//! is what a worker knows of cuts.
//!
//! `asking` makes each event. `post` is what workers share, `hands` and `worker` what each
//! has. Nothing is claimed of prices: the book takes a closing by them only for what was shown.
//!
//! Definitions: `specs/Owning` says, ship by ship, what the test of a node tests, `Serving` what ties
//! a worker to its post, and `Ending` how a node may end.
#![tactic(auto)]

mod asking;
mod board;
mod ending;
mod hands;
mod knowing;
mod post;
mod pricing;
mod searching;
mod sharing;
mod stop;
mod taking;
mod trail;
mod trusting;
mod walking;
mod worker;
mod working;

pub use board::Board;
pub use hands::Hands;
pub use post::Post;
pub use searching::search;
pub use trusting::is_node_of;
