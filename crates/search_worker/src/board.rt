//! The prices that workers leave each other.

use no_memory::NoMemory;
use price_search::{Offer, Offers, Pricing};
use std::alloc::Global;
use std::sync::{Mutex, Wait};

/// The prices with which each worker begins, and those that slots which were split leave to their
/// children, whoever takes them.
#[derive(Drop)]
pub struct Board {
    pricing: Pricing,
    offers: Mutex<Offers>,
}

impl Board {
    /// A board of what was found at the root, which is slot 0. Refuses want of memory alone.
    pub fn new(alloc: Global, pricing: Pricing) -> Result<Board, NoMemory> {
        let mut offers = Offers::new(alloc);
        offers.keep(0, pricing.offer())?;
        Ok(Board {
            pricing,
            offers: Mutex::new(offers),
        })
    }

    /// The prices of one worker; None for want of memory.
    pub(crate) fn pricing(&self, alloc: Global) -> Option<Pricing> {
        self.pricing.copy(alloc).ok()
    }

    /// What a slot left to its children, if anything.
    pub(crate) fn offer<W: Wait>(&self, rt: &W, slot: u32) -> Option<Offer> {
        let offers = self.offers.lock(rt);
        offers.of(slot)
    }

    /// Keeps what a slot leaves to its children.
    pub(crate) fn keep<W: Wait>(&self, rt: &W, slot: u32, offer: Offer) -> Result<(), NoMemory> {
        let mut offers = self.offers.lock(rt);
        offers.keep(slot, offer)
    }

    /// Keeps that the book has what a slot left under this number.
    pub(crate) fn posted<W: Wait>(&self, rt: &W, slot: u32, number: u64) {
        let mut offers = self.offers.lock(rt);
        offers.posted(slot, number);
    }
}
