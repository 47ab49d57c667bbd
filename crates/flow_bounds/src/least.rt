//! The least of some numbers.
ghost use Rattle.std.specs.Prelude.{◌≡◌, ◌≤◌, ◌∷◌, ℕ, List, All, IfSome};
ghost use Rattle.lock_rules.specs.Bound.{least_number};
ghost use Rattle.flow_bounds.specs.Least.{least_told};

// The less of a number and what is told.
pub(crate) fn less(own: u64, told: Option<u64>) -> Option<u64>
    ensures value { (ns : List ℕ) → told ≡ least_told ns → result ≡ least_told (own ∷ ns) }
    ensures own { IfSome result (λ least. least ≤ own) }
{
    match told {
        Some(other) => Some(own.min(other)),
        None => Some(own),
    }
}

// The least of some numbers, 0 of none.
pub(crate) fn least_number(numbers: &[u64]) -> u64
    ensures value { result ≡ least_number numbers.now }
    ensures among { (most : ℕ) → All (λ n. n ≤ most) numbers.now → result ≤ most }
{
    let mut told = None;
    let mut i = numbers.len();
    while i > 0 {
        i -= 1;
        told = less(numbers[i], told);
    }
    told.unwrap_or(0)
}
