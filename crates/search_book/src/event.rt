//! Events.

use closing_rules::Ground;
use deck_cuts::{Cut, Hard};
use lock_model::Plan;
use price_terms::Prices;

/// What is asked of a book: each event is the method of `Book` of its name, with its arguments.
/// `Take` and `Release` have a worker of 0 to `WORKERS`; of `Park` the deck is spot-hard for the turns too.
/// Large arguments are boxed, so that an event is a few words and its memory is taken before the
/// lock is.
#[derive(Drop)]
pub enum Event {
    /// The worker wants a slot.
    Take(u8),
    /// The slot is to be split.
    Split(u32),
    /// The slot is to be closed on this ground.
    Close(u32, Ground),
    /// The cut is to be kept.
    Post(Box<Cut>),
    /// The slot is to be parked: the turns were spent on a group, by chamber and place.
    Park(u32, u8, u8, Box<Hard>),
    /// The plan is to be the best one.
    Replace(Box<Plan>),
    /// The prices are to be kept.
    PostPrices(Box<Prices>),
    /// The worker ends.
    Release(u8),
}
