//! A book is put under its lock, and taken back.
ghost use Rattle.std.specs.Prelude.{◌≡◌, ◌+◌, ◌≤◌, length, sum_by, All};

use crate::kept::Kept;
use crate::share_list::ShareList;
use crate::shared::{Nobody, SharedBook};
use book_core::Book;
use lock_model::WORKERS;
use std::sync::ledger::{Blank, Ledger, Share};
use std::sync::{Condvar, Mutex};

// Cuts a part for each worker from a share that has one more.
fn cut_shares<L: Ledger>(all: &mut Share<L>, workers: u8) -> ShareList<L>
    requires few { workers ≤ WORKERS }
    requires parts { all.old.parts ≡ workers + 1 }
    ensures count { length result ≡ workers }
    ensures one_part { All (λ s. s.parts ≡ 1) result }
    ensures parts { sum_by (λ s. s.parts) result ≡ workers }
    ensures amounts { sum_by (λ s. s.amount) result ≡ 0 }
    ensures left { all.new.parts ≡ 1 }
    ensures amount { all.new.amount ≡ all.old.amount }
{
    let mut shares = ShareList::new();
    for _i in 0..workers {
        shares.push(all.split_off(1, 0));
    }
    shares
}

/// Puts a book under its lock, with a share of one part for each of 1 to `WORKERS` workers and one for the
/// caller. The sum of their amounts is the length of the history. The blank is that of `L`, with
/// `workers + 1` parts. Takes no memory.
pub fn share_book<L: Ledger>(
    blank: Blank,
    book: Box<Book>,
    workers: u8,
) -> (SharedBook<L>, ShareList<L>)
    requires some_workers { 1 ≤ workers }
    requires few_workers { workers ≤ WORKERS }
    requires name { blank.name ≡ L.name }
    requires parts { blank.parts ≡ L.parts }
    requires one_each { blank.parts ≡ workers + 1 }
    ensures count { length result.1 ≡ workers + 1 }
    ensures one_part { All (λ s. s.parts ≡ 1) result.1 }
    ensures parts { sum_by (λ s. s.parts) result.1 ≡ workers + 1 }
    ensures amounts { sum_by (λ s. s.amount) result.1 ≡ length book.value.history }
{
    let (mut tally, mut all) = blank.open::<L>();
    tally.add(&mut all, book.history_len());
    let nobody = all.empty();
    let mut shares = cut_shares(&mut all, workers);
    shares.push(all);
    let shared = SharedBook {
        lock: Mutex::new(Kept {
            book,
            tally,
            waiting: 0,
        }),
        told: Condvar::new(),
        nobody: Mutex::new(Nobody { share: nobody }),
    };
    (shared, shares)
}

impl<L: Ledger> SharedBook<L> {
    /// The book, once the shares in the list have all parts of the ledger. Its history is as long as
    /// the sum of their amounts.
    pub fn into_book(self, shares: ShareList<L>) -> Box<Book>
        requires { sum_by (λ s. s.parts) shares ≡ L.parts }
        ensures { length result.value.history ≡ sum_by (λ s. s.amount) shares }
    {
        let SharedBook {
            lock,
            told: _,
            nobody,
        } = self;
        let Nobody { share: mut all } = nobody.into_inner();
        shares.gather(&mut all);
        let Kept {
            book,
            mut tally,
            waiting: _,
        } = lock.into_inner();
        tally.audit(&mut all);
        book
    }
}
