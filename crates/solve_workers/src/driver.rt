//! The driver of a search, and what it has beside its book.
ghost use Rattle.std.specs.Prelude.{◌≡◌};

use crate::held::DRIVER;
use book_core::Book;
use gates::{Gate, Point};
use node_work::Search;
use placed_groups::Memory;
use price_terms::Prices;
use root_pricing::RootPricing;
use std::alloc::Global;

/// What the driver has beside the book: the gate that it calls, the search, what the placers told it, and
/// prices, once the instance has shown itself hard: those to go on with, and the best ones of the root.
#[derive(Drop)]
pub(crate) struct Driver<'s, G: Gate> {
    pub(crate) alloc: Global,
    pub(crate) gate: &'s G,
    pub(crate) search: Search<'s>,
    pub(crate) memory: Memory,
    pub(crate) pricing: Option<RootPricing>,
    pub(crate) root: Option<Prices>,
}

impl<'s, G: Gate> Driver<'s, G> {
    /// A driver without prices, to whom the placers told nothing yet.
    pub(crate) fn new(alloc: Global, gate: &'s G, search: Search<'s>) -> Driver<'s, G>
        ensures { result.search ≡ search.entry }
    {
        Driver {
            alloc,
            gate,
            search,
            memory: Memory::new(alloc),
            pricing: None,
            root: None,
        }
    }

    /// Keeps the best prices of the node in hand, which is the root.
    pub(crate) fn keep_root(&mut self)
        ensures { self.new.search ≡ self.old.search }
    {
        if let Some(RootPricing { pricing, .. }) = &self.pricing {
            self.root = Some(pricing.best().copy());
        }
    }

    /// Tells the gate how far the book is, of which a slot was taken; at the root, which is slot 0, its bound
    /// too.
    pub(crate) fn tell(&self, book: &Book, id: u32) {
        self.gate.at(DRIVER, Point::Used(book.used()));
        self.gate.at(DRIVER, Point::Read(book.best_cost()));
        if id == 0
            && let Some(bound) = book.bound(id)
        {
            self.gate.at(DRIVER, Point::Low(bound));
        }
    }
}
