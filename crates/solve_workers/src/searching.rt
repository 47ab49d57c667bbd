//! The search of a book by workers.
ghost use Rattle.std.specs.Prelude.{◌≡◌, ◌+◌, ◌≤◌, vec_len, vec_capacity, IfOk, IfSome};
ghost use Rattle.lock_model.specs.declared.limits.TheConstants.{WORKERS};
ghost use Rattle.boxcar.specs.Table.{Shows};

use crate::crew::{deal, gather};
use crate::running::{Running, run_all};
use book_core::{Book, Case};
use bound_word::{BoundSeat, BoundTable};
use cut_pool::{Pool, Token};
use deck_cuts::{Cut, copy_cut};
use gates::Gate;
use lock_model::WORKERS;
use master_branch::arrival_order;
use no_memory::NoMemory;
use node_work::Search;
use search_book::share_book;
use search_worker::{Board, Hands, Post};
use std::alloc::Global;
use std::marker::Brand;
use std::sync::Wait;
use std::sync::ledger::{Blank, Ledger};
use std::thread::Threads;

// Posts a copy of a cut of this number to the pool; None for want of memory.
fn post_copy<W: Wait>(rt: &W, pool: &Pool, cut: &Cut, number: u64) -> Option<Token>
    ensures posted { IfSome result (Shows pool.now) }
    ensures entry { IfSome result (λ token. token.value ≡ record { cut = cut.now; number = number }) }
{
    let copy = copy_cut(cut).ok()?;
    pool.post(rt, copy, number).ok()
}

// Posts the cuts of the book to the pool, so that workers find them. One for which there is no memory
// is left out.
fn post_cuts<W: Wait>(rt: &W, pool: &Pool, book: &Book) {
    for number in 0..u64::MAX {
        match book.cut(number) {
            Some(cut) => {
                let _ = post_copy(rt, pool, cut, number);
            }
            None => return,
        }
    }
}

/// What a search is lent: handles and the case, and how many workers it has, 1 to `WORKERS`.
#[derive(Drop)]
pub(crate) struct Lent<'s, R: Threads + Wait + Sync, G: Gate + Sync> {
    pub(crate) rt: &'s R,
    pub(crate) alloc: Global,
    pub(crate) gate: &'s G,
    pub(crate) case: &'s Case,
    pub(crate) workers: u8,
    pub(crate) ghost some_workers: { 1 ≤ workers },
    pub(crate) ghost few_workers: { workers ≤ WORKERS },
}

// What workers have beside their book: the pool of its cuts, and the table of the best cost with the
// one seat that has all of its parts.
#[derive(Drop)]
struct Beside {
    pool: Pool,
    word: BoundTable,
    seat: BoundSeat,
    ghost table: { seat.table ≡ word.table },
    ghost whole: { seat.view.parts ≡ word.about.parts },
}

impl Beside {
    // What so many workers and their caller have beside this book.
    fn new<W: Wait>(rt: &W, alloc: Global, book: &Book, parts: u8) -> Result<Beside, NoMemory>
        requires { 1 ≤ parts }
        ensures parts { IfOk result (λ made. made.word.about.parts ≡ parts) }
    {
        let pool = Pool::new(alloc)?;
        post_cuts(rt, &pool, book);
        let (word, seat) = BoundTable::new(alloc, book.best_cost(), parts)?;
        Ok(Beside { pool, word, seat })
    }
}

// Empty lists with room for so many workers: before they work, in their threads, and after.
#[derive(Drop)]
struct Rooms<L: Ledger> {
    workers: u8,
    crew: Vec<Hands<L>>,
    running: Vec<Running<L>>,
    ended: Vec<Hands<L>>,
    ghost empty: { (vec_len crew ≡ 0) × (vec_len running ≡ 0) × (vec_len ended ≡ 0) },
    ghost room: { (workers ≤ vec_capacity crew) × (workers ≤ vec_capacity running) × (workers ≤ vec_capacity ended) },
}

impl<L: Ledger> Rooms<L> {
    fn new(alloc: Global, workers: u8) -> Result<Rooms<L>, NoMemory>
        ensures workers { IfOk result (λ rooms. rooms.workers ≡ workers) }
    {
        Ok(Rooms {
            workers,
            crew: Vec::with_capacity(alloc, workers as usize)?,
            running: Vec::with_capacity(alloc, workers as usize)?,
            ended: Vec::with_capacity(alloc, workers as usize)?,
        })
    }
}

// Lets the workers search a book of the case, with prices or without, and gives it back when all have
// ended. Of the book that comes back nothing but its type is known.
fn searched_in<L: Ledger + Send + Sync, R: Threads + Wait + Sync, G: Gate + Sync>(
    lent: &Lent<'_, R, G>,
    board: Option<&Board>,
    blank: Blank,
    book: Box<Book>,
    beside: Beside,
    rooms: Rooms<L>,
) -> Box<Book>
    requires name { blank.name ≡ L.name }
    requires parts { blank.parts ≡ L.parts }
    requires one_each { blank.parts ≡ lent.now.workers + 1 }
    requires seats { beside.word.about.parts ≡ lent.now.workers + 1 }
    requires rooms { rooms.workers ≡ lent.now.workers }
{
    let Beside {
        pool,
        word,
        mut seat,
    } = beside;
    let Rooms {
        workers,
        mut crew,
        running,
        ended,
    } = rooms;
    let (shared, mut shares) = share_book::<L>(blank, book, workers);
    deal(&mut shares, &word, &mut seat, &mut crew, workers);
    let case = lent.case;
    let post = Post {
        rt: lent.rt,
        alloc: lent.alloc,
        gate: lent.gate,
        search: Search::new(&case.instance, case.turns),
        order: arrival_order(&case.instance),
        quota: u32::MAX,
        board,
        book: &shared,
        pool: &pool,
        word: &word,
    };
    let ended = run_all(&post, crew, running, ended);
    gather(ended, &mut shares, &word, &mut seat);
    word.close(seat);
    shared.into_book(shares)
}

// The same. Refuses want of memory alone, and before any worker began.
fn searched<L: Ledger + Send + Sync, R: Threads + Wait + Sync, G: Gate + Sync>(
    lent: &Lent<'_, R, G>,
    blank: Blank,
    book: Box<Book>,
    board: Option<&Board>,
) -> Result<Box<Book>, NoMemory>
    requires name { blank.name ≡ L.name }
    requires parts { blank.parts ≡ L.parts }
    requires one_each { blank.parts ≡ lent.now.workers + 1 }
{
    let rooms = Rooms::<L>::new(lent.alloc, lent.workers)?;
    let beside = Beside::new(lent.rt, lent.alloc, &*book, lent.workers + 1)?;
    Ok(searched_in(lent, board, blank, book, beside, rooms))
}

/// The book as the workers leave it, who have prices or none. One worker alone is the
/// caller, who drives without a lock: no other thread is started for it.
pub(crate) fn worked<R: Threads + Wait + Sync, G: Gate + Sync>(
    lent: &Lent<'_, R, G>,
    book: Box<Book>,
    board: Option<&Board>,
) -> Result<Box<Book>, NoMemory> {
    if lent.workers == 1 {
        return Ok(book);
    }
    let blank = Blank::new(lent.workers as u64 + 1);
    searched::<Brand, R, G>(lent, blank, book, board)
}
