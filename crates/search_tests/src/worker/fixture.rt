//! A worker that searches a book alone.
ghost use Rattle.std.specs.Prelude.{◌≡◌, ◌+◌, length, sum_by, All, IfSome};

use crate::worked::{chamber, one_chamber, ship};
use book_core::Book;
use bound_word::{BoundSeat, BoundTable};
use cut_pool::Pool;
use gates::{Gate, Point};
use lock_model::{Instance, Way};
use master_branch::arrival_order;
use node_work::Search;
use search_book::{ShareList, share_book};
use search_worker::{Hands, Post, search};
use std::alloc::Global;
use std::marker::Brand;
use std::sync::ledger::{Blank, Ledger};
use std::sync::{Mutex, Wait};
use std::test::Fail;

/// Two ships that want up at once, and a chamber that serves one at a time.
pub(crate) fn one_at_a_time() -> Option<Instance> {
    let mut only = chamber(b'c', 232);
    only.most = 1;
    one_chamber(only, ship(b's', Way::Up, 0), ship(b't', Way::Up, 0))
}

// A worker's hands: the last share of a list of single parts, and a seat of one part.
fn hands_of<L: Ledger>(shares: &mut ShareList<L>, seat: BoundSeat) -> Option<Hands<L>>
    requires each { All (λ s. s.parts ≡ 1) shares.old }
    requires seat { seat.view.parts ≡ 1 }
    ensures parts { IfSome result (λ _. sum_by (λ s. s.parts) shares.new + 1 ≡ sum_by (λ s. s.parts) shares.old) }
    ensures count { IfSome result (λ _. length shares.new + 1 ≡ length shares.old) }
    ensures table { IfSome result (λ hands. hands.seat.table ≡ seat.table) }
{
    let share = shares.pop()?;
    Some(Hands { share, seat })
}

// The book after one worker has searched it, which it takes for one of this instance, under a ledger of two
// parts.
fn searched_by<L: Ledger, W: Wait>(
    rt: &W,
    alloc: Global,
    gate: &PointGate,
    blank: Blank,
    book: Book,
    instance: &Instance,
) -> Result<Book, Fail>
    requires name { blank.name ≡ L.name }
    requires parts { (blank.parts ≡ L.parts) × (blank.parts ≡ 2) }
{
    let turns = book.case().turns;
    let pool = Pool::new(alloc)?;
    let (word, seat) = BoundTable::new(alloc, book.opening_cost(), 1)?;
    let (book, mut shares) = share_book::<L>(blank, Box::new(alloc, book)?, 1);
    let Some(hands) = hands_of(&mut shares, seat) else {
        return Err(Fail::from("no share"));
    };
    let post = Post {
        rt,
        alloc,
        gate,
        search: Search::new(instance, turns),
        order: arrival_order(instance),
        quota: u32::MAX,
        board: None,
        book: &book,
        pool: &pool,
        word: &word,
    };
    shares.push(search(&post, 0, hands).share);
    Ok(Box::into_inner(book.into_book(shares)))
}

/// The book after one worker has searched it alone, without prices; it takes the book for one of the other
/// instance, where there is one.
pub(crate) fn searched<W: Wait>(
    rt: &W,
    alloc: Global,
    gate: &PointGate,
    book: Book,
    other: Option<Instance>,
) -> Result<Book, Fail> {
    let instance = other.unwrap_or(book.case().instance.copy());
    searched_by::<Brand, W>(rt, alloc, gate, Blank::new(2), book, &instance)
}

/// A gate that keeps the points at which one worker called it.
#[derive(Drop)]
pub(crate) struct PointGate {
    points: Mutex<Vec<Point>>,
}

impl PointGate {
    pub(crate) fn new(alloc: Global) -> PointGate {
        PointGate {
            points: Mutex::new(Vec::new(alloc)),
        }
    }

    pub(crate) fn points(self) -> Vec<Point> {
        self.points.into_inner()
    }
}

impl Gate for PointGate {
    fn at(&self, _worker: u8, point: Point) {
        if let Some(mut points) = self.points.try_lock() {
            let _ = points.push(point);
        }
    }
}
