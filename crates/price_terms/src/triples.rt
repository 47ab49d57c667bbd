//! Whether triples may stand in a list of prices.
ghost use Rattle.std.specs.Prelude.{◌≡◌, ◌<◌, ◌↔◌, All, IsTrue};
ghost use Rattle.price_rules.specs.Triples.{IsFairTriple, AreRisingTriples, AreTriples, triple_key};

use price_rules::{TRIPLES, Triple};

// Whether the ships of a triple rise and its price is from 1 to 1,000,000.
fn is_fair(triple: &Triple) -> bool
    ensures { IsTrue result ↔ IsFairTriple triple.now }
{
    triple.first < triple.second
        && triple.second < triple.third
        && triple.price >= 1
        && triple.price <= 1_000_000
}

// Whether all are fair.
fn are_fair(triples: &[Triple]) -> bool
    ensures { IsTrue result ↔ All IsFairTriple triples.now }
{
    for triple in triples {
        if !is_fair(triple) {
            return false;
        }
    }
    true
}

// The three ships as one number.
fn key(triple: &Triple) -> u32
    ensures { result ≡ triple_key triple.now }
{
    (triple.first as u32 * 256 + triple.second as u32) * 256 + triple.third as u32
}

// Whether each stands before the next.
fn are_rising(triples: &[Triple]) -> bool
    ensures { IsTrue result ↔ AreRisingTriples triples.now }
{
    for place in 1..triples.len() {
        if key(&triples[place - 1]) >= key(&triples[place]) {
            return false;
        }
    }
    true
}

/// Whether triples are at most `TRIPLES`, fair, and in the order of their ships.
pub(crate) fn are_triples(triples: &[Triple]) -> bool
    ensures { IsTrue result ↔ AreTriples triples.now }
{
    triples.len() <= TRIPLES && are_fair(triples) && are_rising(triples)
}

/// Whether triples are of so many ships.
pub fn are_among(triples: &[Triple], ships: usize) -> bool
    ensures { IsTrue result ↔ All (λ t. t.third < ships) triples.now }
{
    for triple in triples {
        if triple.third as usize >= ships {
            return false;
        }
    }
    true
}
