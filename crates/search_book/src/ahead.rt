//! Nodes that were worked out ahead of a book.
ghost use Rattle.std.specs.Prelude.{◌≡◌, ◌++◌, ◌∷◌, [], All, IfOk, IfErr};

use book_core::Foreseen;
use closing_rules::Ground;
use lock_model::Instance;
use no_memory::NoMemory;
use std::alloc::Global;

/// How a slot ends by what was worked out of its node alone.
#[derive(Clone, Copy)]
pub enum Ending {
    /// It is split.
    Split,
    /// It is closed on this ground.
    Close(Ground),
}

/// A node that was worked out ahead, and how its slot is to end.
#[derive(Drop)]
pub struct Ahead<'i> {
    pub foreseen: Foreseen<'i>,
    pub ending: Ending,
}

/// Nodes of one instance that were worked out ahead of a book, in the order in which the book is to
/// come to them.
#[derive(Drop)]
pub struct Stretch<'i> {
    pub instance: &'i Instance,
    pub nodes: Vec<Ahead<'i>>,
    pub ghost of_one: { All (λ a. a.foreseen.instance.now ≡ instance.now) nodes.items },
}

impl<'i> Stretch<'i> {
    /// No nodes of an instance.
    pub fn new(alloc: Global, instance: &'i Instance) -> Stretch<'i>
        ensures instance { result.instance.now ≡ instance.now }
        ensures nodes { result.nodes.items ≡ [] }
    {
        Stretch {
            instance,
            nodes: Vec::new(alloc),
        }
    }

    /// Appends a node. Where there was no memory, the stretch is as it was.
    pub fn push(&mut self, foreseen: Foreseen<'i>, ending: Ending) -> Result<(), NoMemory>
        requires { foreseen.instance.now ≡ self.old.instance.now }
        ensures instance { self.new.instance.now ≡ self.old.instance.now }
        ensures pushed { IfOk result (λ _. self.new.nodes.items ≡ self.old.nodes.items ++ record { foreseen = foreseen.entry; ending = ending } ∷ []) }
        ensures same { IfErr result (λ _. self.new.nodes.items ≡ self.old.nodes.items) }
    {
        self.nodes.try_reserve(1)?;
        self.nodes.push_reserved(Ahead { foreseen, ending });
        Ok(())
    }

    /// Leaves out all nodes, and keeps their memory.
    pub fn clear(&mut self)
        ensures instance { self.new.instance.now ≡ self.old.instance.now }
        ensures nodes { self.new.nodes.items ≡ [] }
    {
        self.nodes.truncate(0);
    }
}
