//! Cuts that hit others.

use book_core::Book;
use deck_cuts::{Cut, cut_hits};
use lock_model::Instance;
use mooring_rules::has_ships;

// Whether a cut hits the chamber and the ships of another.
fn hits(cut: &Cut, instance: &Instance, other: &Cut) -> bool {
    (other.chamber as usize) < instance.chambers.as_slice().len()
        && has_ships(instance, other.ships.as_slice())
        && cut_hits(cut, instance, other.chamber, &other.ships)
}

// Whether one of the first cuts of a book hits this one.
fn is_hit_before(book: &Book, count: u64, other: &Cut) -> bool {
    for number in 0..count {
        if let Some(cut) = book.cut(number) {
            if hits(cut, &book.case().instance, other) {
                return true;
            }
        }
    }
    false
}

/// Whether one of the first 10,000 cuts of a book is hit by an earlier one.
pub(crate) fn has_hit_cut(book: &Book) -> bool {
    for later in 0..10000 {
        match book.cut(later) {
            Some(other) if is_hit_before(book, later, other) => return true,
            Some(_) => {}
            None => return false,
        }
    }
    false
}
