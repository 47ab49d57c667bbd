//! The driver's desk is the book in its hand.
ghost use Rattle.book_rules.specs.Ends.{HoldsNothing};
ghost use Rattle.refute_rules.specs.Cuts.{IsCut};
ghost use Rattle.closing_rules.specs.ListedPrices.{ArePrices};
ghost use Rattle.solve_workers.specs.Driving.{IsDriven};
ghost use Rattle.solve_workers.specs.Offering.{HasDriven, HasFreed};
ghost use Rattle.std.specs.Prelude.{⊤};

use crate::held::DRIVER;
use crate::told::is_closed;
use book_core::{Book, Reply};
use deck_cuts::Cut;
use gates::{Gate, Point};
use lock_model::{Instance, Plan};
use no_memory::NoMemory;
use node_work::Search;
use placed_groups::Memory;
use price_search::{Asked, Desk, Found, InHand, Pricing, Round};
use price_terms::{Prices, Shown, Swept};
use root_pricing::{RootDesk, UncutGroups, place_uncut};
use search_book::learn_cuts;
use std::alloc::Global;

// That the refutation of a cut holds, as its type keeps.
fn is_cut(cut: &Cut)
    ensures { IsCut cut.now }
{
    let _ = &cut.chamber;
}

// That prices are few and small, and their triples in order, as their type keeps.
fn are_prices(prices: &Prices)
    ensures { ArePrices prices.now }
{
    let _ = prices.as_slice();
    let _ = prices.triples();
}

/// The number of prices that the book has kept.
pub(crate) fn number_in(reply: &Reply) -> Option<u64> {
    match reply {
        Reply::Priced(number) => Some(*number),
        _ => None,
    }
}

/// Posts a cut while nothing is held, if the book takes it.
pub(crate) fn post_free(book: &mut Book, cut: Cut)
    requires free { HoldsNothing book.old }
    ensures free { HoldsNothing book.new }
    ensures driven { IsDriven book.old book.new }
{
    book.keeps();
    is_cut(&cut);
    book.post(cut);
}

/// What the driver has beside the book in its hand.
#[derive(Drop)]
pub(crate) struct DriversDesk<'s, G: Gate> {
    pub(crate) alloc: Global,
    pub(crate) gate: &'s G,
    pub(crate) search: &'s Search<'s>,
}

impl<G: Gate> DriversDesk<'_, G> {
    // Tells the gate the best cost, and at the root what it reaches by prices.
    fn tell(&self, book: &Book, pricing: &Pricing, held: &InHand<'_>) {
        self.gate.at(DRIVER, Point::Read(book.best_cost()));
        if held.node.depth() == 0 {
            self.gate.at(DRIVER, Point::Low(pricing.reached()));
        }
    }
}

// It refuses want of memory alone. A cut, a plan or prices that the book doesn't take are let go.
impl<G: Gate> Desk for DriversDesk<'_, G> {
    type Hand = Book;

    type Stop = NoMemory;

    ghost instance = { λ desk. desk.search.now.instance.now };

    ghost serves = { λ _ _. ⊤ };

    ghost holds = { λ _ held began book. HasDriven held began book };

    ghost freed = { λ _ began book. HasFreed began book };

    fn instance(&self) -> &Instance {
        self.search.instance
    }

    fn alloc(&self) -> Global {
        self.alloc
    }

    fn best_cost(&self, book: &mut Book, _held: &InHand<'_>) -> u64 {
        book.best_cost()
    }

    fn learn(
        &self,
        book: &mut Book,
        pricing: &mut Pricing,
        held: &InHand<'_>,
    ) -> Result<(), NoMemory> {
        self.tell(book, pricing, held);
        learn_cuts(book, pricing.cuts_mut())?;
        let cuts = pricing.cuts_mut().len() as u64;
        self.gate.at(DRIVER, Point::Knows(cuts));
        Ok(())
    }

    fn round(
        &self,
        book: &mut Book,
        memory: &mut Memory,
        pricing: &mut Pricing,
        held: &InHand<'_>,
    ) -> Result<Round, NoMemory> {
        let asked = Asked {
            search: self.search,
            node: held.node,
            best: book.best_cost(),
            known: &*book,
        };
        pricing.round(self.alloc, &asked, memory)
    }

    fn post(&self, book: &mut Book, _held: &InHand<'_>, cut: Cut) -> Result<(), NoMemory> {
        book.keeps();
        is_cut(&cut);
        book.post(cut);
        Ok(())
    }

    fn give(&self, book: &mut Book, _held: &InHand<'_>, plan: Plan) -> Result<(), NoMemory> {
        book.keeps();
        book.replace(plan);
        Ok(())
    }

    fn post_prices(
        &self,
        book: &mut Book,
        _held: &InHand<'_>,
        prices: &Prices,
    ) -> Result<Option<u64>, NoMemory> {
        book.keeps();
        are_prices(prices);
        let reply = book.post_prices(prices);
        Ok(number_in(&reply))
    }

    fn close_shown(
        &self,
        book: &mut Book,
        held: &InHand<'_>,
        number: u64,
        shown: &Shown<'_>,
    ) -> bool {
        book.keeps();
        // what was shown is reached
        let _ = shown.cost();
        is_closed(&book.close_price(held.id, number, shown))
    }

    fn inherit(&self, pricing: &mut Pricing, held: &InHand<'_>) {
        pricing.go_to(held.node.depth());
    }

    fn leave(&self, pricing: &mut Pricing, held: &InHand<'_>) -> Result<(), NoMemory> {
        pricing.keep(held.node.depth())
    }

    // Nobody else has them.
    fn tell_number(&self, _held: &InHand<'_>, _number: u64) {}
}

// The caller's thread alone prices the root.
impl<G: Gate> RootDesk for DriversDesk<'_, G> {
    fn place(
        &self,
        book: &mut Book,
        memory: &mut Memory,
        held: &InHand<'_>,
        groups: UncutGroups<'_>,
    ) -> Result<Found, NoMemory> {
        let asked = Asked {
            search: self.search,
            node: held.node,
            best: book.best_cost(),
            known: &*book,
        };
        place_uncut(self.alloc, &asked, memory, groups)
    }

    fn close_swept(
        &self,
        book: &mut Book,
        held: &InHand<'_>,
        number: u64,
        swept: &Swept<'_>,
    ) -> bool {
        book.keeps();
        // the cost is swept
        let _ = swept.cost();
        is_closed(&book.close_swept(held.id, number, swept))
    }
}
