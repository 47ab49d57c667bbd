//! The event that keeps prices.
ghost use Rattle.std.specs.Prelude.{◌≡◌, length, IfOk, IfErr};
ghost use Rattle.closing_rules.specs.ListedPrices.{ArePrices};
ghost use Rattle.book_rules.specs.Events.{post_prices};
ghost use Rattle.book_rules.specs.Tests.{has_shape};
ghost use Rattle.book_core.specs.Growing.{with_prices};
ghost use Rattle.book_core.specs.Keeps.{IsSound};
ghost use Rattle.book_core.specs.Replies.{Does};

use crate::book::Book;
use crate::growing::make_room;
use crate::reply::{Refusal, Reply};
use book_rules::Entry;
use kept_prices::KeptPrices;
use lock_model::Instance;
use no_memory::NoMemory;
use price_terms::Prices;

// Whether prices are one for each ship of an instance, and of triples of its ships.
fn are_shaped(instance: &Instance, prices: &Prices) -> bool
    ensures { result ≡ has_shape instance.now prices.now }
{
    prices.are_of(instance.ships.as_slice().len())
}

// What the type of prices keeps.
fn keep_to_limits(prices: &Prices)
    ensures { ArePrices prices.now }
{
    let _ = prices.as_slice();
    let _ = prices.triples();
}

impl Book {
    // Appends prices.
    fn keep_prices(&mut self, prices: &Prices) -> Result<(), NoMemory>
        requires { IsSound (with_prices self.old prices.now) }
        ensures some { IfOk result (λ _. self.new ≡ with_prices self.old prices.now) }
        ensures none { IfErr result (λ _. self.new ≡ self.old) }
    {
        let needed = self.entries_needed()?;
        let kept = KeptPrices::of(*self.prices.allocator(), prices)?;
        make_room(&mut self.history, needed, &mut self.prices)?;
        self.prices.push_reserved(kept);
        self.history.push_reserved(Entry::Prices);
        Ok(())
    }

    // How many lists of prices are kept.
    fn prices_len(&self) -> u64
        ensures value { result ≡ length self.now.prices }
        ensures sound { IsSound self.now }
    {
        self.prices.len() as u64
    }

    /// Keeps prices, one for each ship of the instance and of triples of these: their number is the count
    /// of lists before. Refuses `OtherPrices` where they aren't one for each ship or a triple has another
    /// ship, and `NoMemory`, after which the book is as it was.
    pub fn post_prices(&mut self, prices: &Prices) -> Reply
        ensures { Does self.old (post_prices prices.now) result self.new }
    {
        if !are_shaped(self.instance(), prices) {
            return Reply::Refused(Refusal::OtherPrices);
        }
        keep_to_limits(prices);
        let number = self.prices_len();
        match self.keep_prices(prices) {
            Ok(()) => Reply::Priced(number),
            Err(NoMemory) => Reply::Refused(Refusal::NoMemory),
        }
    }
}
