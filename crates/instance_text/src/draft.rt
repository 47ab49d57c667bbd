//! An instance as far as it has been read.
ghost use Rattle.std.specs.Prelude.{◌≡◌, ◌≢◌, ◌<◌, ◌∷◌, [], ◌++◌, All, length};
ghost use Rattle.lock_model.specs.Instance.{IsChamber, IsShip};
ghost use Rattle.instance_text.specs.Closing.{CanClose, with_closure};

use crate::closing_line;
use lock_model::{CHAMBERS, Chamber, Chambers, Closure, Instance, SHIPS, Ship, ShipList};
use std::marker::Model;

/// The chambers and ships of the lines so far. They are within the limits of an instance, but
/// there may be no chamber and no ship yet.
#[derive(Drop)]
pub struct Draft {
    chambers: Chambers,
    ships: ShipList,
}

impl Model for Draft {
    ghost use Rattle.instance_text.specs.Draft.{Draft as Read, IsDraft};

    ghost Value = { Read };

    ghost view = { λ d. record { chambers = d.chambers; ships = d.ships } };

    ghost invariant = { λ d. IsDraft d.chambers d.ships };

    ghost inverse = { λ d. record { chambers = d.chambers; ships = d.ships } };
}

impl Draft {
    ghost use Rattle.instance_text.specs.Draft.{no_draft, IsWholeDraft};

    /// Nothing yet.
    #[tactic(auto, using(crate::proofs::DraftLemmas::nothing))]
    pub fn new() -> Draft
        ensures { result ≡ no_draft }
    {
        Draft {
            chambers: Chambers::new(),
            ships: ShipList::new(),
        }
    }

    /// The chambers so far.
    pub fn chambers(&self) -> &[Chamber]
        ensures { result.now ≡ self.now.chambers }
    {
        self.chambers.as_slice()
    }

    /// The ships so far.
    pub fn ships(&self) -> &[Ship]
        ensures { result.now ≡ self.now.ships }
    {
        self.ships.as_slice()
    }

    /// Appends a chamber with a name of its own.
    #[tactic(auto, using(crate::proofs::DraftLemmas::one_more_chamber))]
    pub fn push_chamber(&mut self, chamber: Chamber)
        requires room { length self.old.chambers < CHAMBERS }
        requires good { IsChamber chamber }
        requires new { All (λ c. c.name ≢ chamber.name) self.old.chambers }
        ensures { self.new ≡ record self.old { chambers = self.old.chambers ++ chamber ∷ [] } }
    {
        self.chambers.push(chamber);
    }

    /// Appends a ship with a name of its own.
    #[tactic(auto, using(crate::proofs::DraftLemmas::one_more_ship))]
    pub fn push_ship(&mut self, ship: Ship)
        requires room { length self.old.ships < SHIPS }
        requires good { IsShip ship }
        requires new { All (λ s. s.name ≢ ship.name) self.old.ships }
        ensures { self.new ≡ record self.old { ships = self.old.ships ++ ship ∷ [] } }
    {
        self.ships.push(ship);
    }

    /// Adds a closure to chamber `place`.
    #[tactic(auto, using(crate::proofs::DraftLemmas::one_more_closure))]
    pub fn add_closure(&mut self, place: usize, closure: Closure)
        requires { CanClose self.old.chambers place closure }
        ensures { self.new ≡ record self.old { chambers = with_closure self.old.chambers place closure } }
    {
        closing_line::add_closure(&mut self.chambers, place, closure);
    }

    /// The instance, once there are a chamber and a ship.
    #[tactic(auto, using(crate::proofs::DraftLemmas::whole))]
    pub fn into_instance(self) -> Instance
        requires { IsWholeDraft self }
        ensures chambers { result.chambers ≡ self.chambers }
        ensures ships { result.ships ≡ self.ships }
    {
        let Draft { chambers, ships } = self;
        Instance { chambers, ships }
    }
}
