//! Lists of edges, of values and of numbers.
ghost use Rattle.std.specs.Prelude.{◌≡◌, ◌<◌, ◌≤◌, [], ◌∷◌, ◌++◌, length, take, set, reverse};

use arrayvec::ArrayVec;
use diff_rules::Edge;
use std::marker::Model;

/// Up to 96 edges.
#[derive(Drop)]
pub struct Edges {
    items: ArrayVec<Edge, 96>,
}

impl Model for Edges {
    ghost use Rattle.std.specs.Prelude.{List};
    ghost use Rattle.diff_rules.specs.declared.edges.Edge.{Edge};

    ghost Value = { List Edge };

    ghost view = { λ a. a.items.items };

    ghost inverse = { λ xs. record { items = record { items = xs } } };
}

impl Edges {
    /// No edges.
    pub fn new() -> Edges
        ensures { result ≡ [] }
    {
        Edges {
            items: ArrayVec::new(),
        }
    }

    /// The edges in order.
    pub fn as_slice(&self) -> &[Edge]
        ensures value { result.now ≡ self.now }
        ensures fits { length result.now ≤ 96 }
    {
        self.items.as_slice()
    }

    /// Appends an edge.
    pub fn push(&mut self, edge: Edge)
        requires { length self.old < 96 }
        ensures { self.new ≡ self.old ++ edge ∷ [] }
    {
        self.items.push(edge);
    }

    /// Keeps the first edges.
    pub fn truncate(&mut self, count: usize)
        requires { count ≤ length self.old }
        ensures { self.new ≡ take count self.old }
    {
        self.items.truncate(count);
    }
}

/// Up to 96 edge numbers.
#[derive(Drop)]
pub struct Numbers {
    items: ArrayVec<u8, 96>,
}

impl Model for Numbers {
    ghost use Rattle.std.specs.Prelude.{ℕ, List};

    ghost Value = { List ℕ };

    ghost view = { λ a. a.items.items };

    ghost inverse = { λ xs. record { items = record { items = xs } } };
}

impl Numbers {
    /// No numbers.
    pub fn new() -> Numbers
        ensures { result ≡ [] }
    {
        Numbers {
            items: ArrayVec::new(),
        }
    }

    /// The numbers in order.
    pub fn as_slice(&self) -> &[u8]
        ensures value { result.now ≡ self.now }
        ensures fits { length result.now ≤ 96 }
    {
        self.items.as_slice()
    }

    /// Appends a number.
    pub fn push(&mut self, number: u8)
        requires { length self.old < 96 }
        ensures { self.new ≡ self.old ++ number ∷ [] }
    {
        self.items.push(number);
    }

    /// Turns the order round.
    pub(crate) fn reverse(&mut self)
        ensures { self.new ≡ reverse self.old }
    {
        self.items.as_mut_slice().reverse();
    }
}

/// Up to 17 values.
#[derive(Drop)]
pub struct Values {
    items: ArrayVec<i64, 17>,
}

impl Model for Values {
    ghost use Rattle.std.specs.Prelude.{ℤ, List};

    ghost Value = { List ℤ };

    ghost view = { λ a. a.items.items };

    ghost inverse = { λ xs. record { items = record { items = xs } } };
}

impl Values {
    /// No values.
    pub fn new() -> Values
        ensures { result ≡ [] }
    {
        Values {
            items: ArrayVec::new(),
        }
    }

    /// The values in order.
    pub fn as_slice(&self) -> &[i64]
        ensures value { result.now ≡ self.now }
        ensures fits { length result.now ≤ 17 }
    {
        self.items.as_slice()
    }

    /// Appends a value.
    pub fn push(&mut self, value: i64)
        requires { length self.old < 17 }
        ensures { self.new ≡ self.old ++ value ∷ [] }
    {
        self.items.push(value);
    }

    /// Puts a value in the place of another.
    pub(crate) fn put(&mut self, variable: u8, value: i64)
        requires { variable < length self.old }
        ensures { self.new ≡ set self.old variable value }
    {
        self.items.as_mut_slice()[variable as usize] = value;
    }

    /// The same values.
    pub fn copy(&self) -> Values
        ensures { result ≡ self.now }
    {
        let mut items = ArrayVec::new();
        for &value in self.items.as_slice() {
            items.push(value);
        }
        Values { items }
    }
}

impl Default for Edges {
    fn default() -> Edges
        ensures { result ≡ [] }
    {
        Edges::new()
    }
}

impl Default for Numbers {
    fn default() -> Numbers
        ensures { result ≡ [] }
    {
        Numbers::new()
    }
}

impl Default for Values {
    fn default() -> Values
        ensures { result ≡ [] }
    {
        Values::new()
    }
}
