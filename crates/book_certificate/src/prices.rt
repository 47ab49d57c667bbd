//! The prices of a book, copied.
ghost use Rattle.std.specs.Prelude.{◌≡◌, ◌<◌, ◌^◌, length, IfOk};

use book_core::Book;
use certificate_parts::PriceLists;
use kept_prices::KeptPrices;
use no_memory::NoMemory;
use std::alloc::Global;

// How many prices there are. All of them stand in memory, so that their number is below 2^63.
fn count(prices: &[KeptPrices]) -> usize
    ensures value { result ≡ length prices.now }
    ensures small { result < 2 ^ 63 }
{
    prices.len()
}

// The same prices.
fn copied(alloc: Global, prices: &[KeptPrices]) -> Result<PriceLists, NoMemory>
    ensures { IfOk result (λ copy. copy ≡ prices.now) }
{
    let mut copy = PriceLists::new(alloc);
    for own in prices {
        copy.push(KeptPrices::of(alloc, &own.prices())?)?;
    }
    Ok(copy)
}

// All prices of a book in order. Refuses want of memory alone.
pub(crate) fn prices_of(alloc: Global, book: &Book) -> Result<PriceLists, NoMemory>
    ensures value { IfOk result (λ prices. prices ≡ book.now.prices) }
    ensures few { IfOk result (λ _. length book.now.prices < 2 ^ 63) }
{
    let prices = book.prices();
    let _count = count(prices);
    copied(alloc, prices)
}
