//! What books answer, in words and numbers.

use super::plans::{both, one_after_the_other, row_cut};
use super::priced_root::{PricedRoot, both_prices};
use book_core::{Book, Refusal, Reply};
use closing_rules::Ground;
use lock_model::Verdict;
use std::alloc::Global;

/// What is asked of a book.
pub(crate) enum Ask {
    Take(u8),
    Split(u32),
    Close(u32, Ground),
    Release(u8),
    /// The cut of both ships in the narrow chamber, with this gap along.
    Post(u32),
    /// So much for each ship.
    Prices(u32),
    /// The slot is closed by the first prices and this cost, which is swept in the narrow chamber by
    /// the cut of both ships.
    CloseSwept(u32, u64),
    /// The cost is shown of the slot by the prices of this number: the root of the narrow chamber
    /// reaches it by the cut of both ships.
    ShowLow(u32, u64, u64),
    /// The plan of both ships side by side.
    Both,
    /// The plan of one ship from minute 0, and the other from this minute.
    After(u32),
    /// The low that is told, or the cost where it is the least, and how many nodes are used.
    Low,
    /// The number of the prices that show the most of a slot, and that cost.
    Shown(u32),
    /// How many events were accepted.
    Events,
}

/// A word and its numbers: those of a reply; of a node the slot and the depth.
pub(crate) type Told = (&'static str, u64, u64);

fn priced(book: &mut Book, price: u32) -> Option<Reply> {
    Some(book.post_prices(&both_prices(price)?))
}

fn posted(alloc: Global, book: &mut Book, gap: u32) -> Option<Reply> {
    Some(book.post(row_cut(alloc, gap)?))
}

fn closed_swept(alloc: Global, book: &mut Book, id: u32, cost: u64) -> Option<Reply> {
    let root = PricedRoot::new()?;
    let swept = root.swept(alloc, cost)?;
    Some(book.close_swept(id, 0, &swept))
}

fn shown_low(alloc: Global, book: &mut Book, id: u32, number: u64, cost: u64) -> Option<Reply> {
    let root = PricedRoot::new()?;
    let shown = root.shown(alloc, cost)?;
    Some(book.show_low(id, number, &shown))
}

// The reply to what takes nothing but numbers.
fn plain_reply(book: &mut Book, ask: &Ask) -> Reply {
    match ask {
        Ask::Split(id) => book.split(*id),
        Ask::Close(id, why) => book.close(*id, *why),
        Ask::Release(worker) => book.release((*worker).min(8)),
        Ask::Take(worker) => book.take((*worker).min(8)),
        Ask::After(start) => book.replace(one_after_the_other(*start)),
        _ => book.replace(both()),
    }
}

fn reply_of(alloc: Global, book: &mut Book, ask: &Ask) -> Option<Reply> {
    match ask {
        Ask::Post(gap) => posted(alloc, book, *gap),
        Ask::Prices(price) => priced(book, *price),
        Ask::CloseSwept(id, cost) => closed_swept(alloc, book, *id, *cost),
        Ask::ShowLow(id, number, cost) => shown_low(alloc, book, *id, *number, *cost),
        _ => Some(plain_reply(book, ask)),
    }
}

fn told_refusal(why: &Refusal) -> Told {
    match why {
        Refusal::Ended(worker) => ("Ended", *worker as u64, 0),
        Refusal::Holds(id) => ("Holds", *id as u64, 0),
        Refusal::Idle => ("Idle", 0, 0),
        Refusal::Done => ("Done", 0, 0),
        Refusal::NotHeld(id) => ("NotHeld", *id as u64, 0),
        Refusal::Whole(id) => ("Whole", *id as u64, 0),
        Refusal::Cheaper(bound, best) => ("Cheaper", *bound, *best),
        Refusal::NoHit(number) => ("NoHit", *number, 0),
        Refusal::OtherDeck => ("OtherDeck", 0, 0),
        Refusal::NotLegal(_) => ("NotLegal", 0, 0),
        Refusal::NotCheaper(cost, best) => ("NotCheaper", *cost, *best),
        Refusal::NoPrices(number) => ("NoPrices", *number, 0),
        Refusal::NotShown => ("NotShown", 0, 0),
        Refusal::NotRoot => ("NotRoot", 0, 0),
        Refusal::NotSwept => ("NotSwept", 0, 0),
        Refusal::Lower(cost, known) => ("Lower", *cost, *known),
        _ => ("another", 0, 0),
    }
}

fn told_reply(reply: &Reply) -> Told {
    match reply {
        Reply::Node(id, node) => ("Node", *id as u64, node.depth() as u64),
        Reply::Made(count) => ("Made", *count as u64, 0),
        Reply::Closed => ("Closed", 0, 0),
        Reply::LowShown => ("LowShown", 0, 0),
        Reply::Posted(number) => ("Posted", *number, 0),
        Reply::Priced(number) => ("Priced", *number, 0),
        Reply::Replaced(cost) => ("Replaced", *cost, 0),
        Reply::Released(count) => ("Released", *count as u64, 0),
        Reply::Refused(why) => told_refusal(why),
        _ => ("another", 0, 0),
    }
}

fn low_of(book: &Book) -> Told {
    let used = book.used() as u64;
    match book.verdict() {
        Verdict::OpenNodes { low, .. } => ("low", low, used),
        Verdict::Optimal => ("optimal", book.best_cost(), used),
        _ => ("another", 0, used),
    }
}

fn shown_of(book: &Book, id: u32) -> Told {
    match book.shown_low(id) {
        Some(shown) => ("shown", shown.prices, shown.cost),
        None => ("none", 0, 0),
    }
}

/// What a book answers.
pub(crate) fn told(alloc: Global, book: &mut Book, ask: &Ask) -> Option<Told> {
    match ask {
        Ask::Low => Some(low_of(book)),
        Ask::Shown(id) => Some(shown_of(book, *id)),
        Ask::Events => Some(("events", book.history_len(), 0)),
        _ => Some(told_reply(&reply_of(alloc, book, ask)?)),
    }
}
