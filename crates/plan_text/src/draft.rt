//! A plan as far as it has been read.
ghost use Rattle.std.specs.Prelude.{◌≡◌, ◌<◌, ◌≤◌, ◌∷◌, [], ◌++◌, length, None, Some, Ok, Err, IfErr, OnOk};
ghost use Rattle.std.specs.Option.{is_some};
ghost use Rattle.plan_text.specs.Berths.{check_hosts, lockage_of};
ghost use Rattle.plan_text.specs.Draft.{close};

use crate::berth::{Berth, Berths, Head};
use crate::kinds::BadPlan;
use crate::lockages::lockage_of;
use crate::moorings::check_hosts;
use lock_model::{Instance, Lockages, MOST, Plan, SHIPS};
use std::marker::Model;

/// The lockages that are whole, and the line and the berths of the one that still gets berths, if
/// there is one.
#[derive(Drop)]
pub struct Draft {
    lockages: Lockages,
    head: Option<Head>,
    berths: Berths,
}

impl Model for Draft {
    ghost use Rattle.plan_text.specs.Draft.{Draft as Read, IsDraft};

    ghost Value = { Read };

    ghost view = { λ d. record { lockages = d.lockages; head = d.head; berths = d.berths } };

    ghost invariant = { λ d. IsDraft d.lockages d.head };

    ghost inverse = { λ d. record { lockages = d.lockages; head = d.head; berths = d.berths } };
}

impl Draft {
    ghost use Rattle.plan_text.specs.Draft.{no_draft};

    /// Nothing yet.
    pub fn new() -> Draft
        ensures { result ≡ no_draft }
    {
        Draft {
            lockages: Lockages::new(),
            head: None,
            berths: Berths::new(),
        }
    }

    /// How many lockages are whole.
    pub fn count(&self) -> usize
        ensures { result ≡ length self.now.lockages }
    {
        self.lockages.as_slice().len()
    }

    /// Whether a lockage still gets berths.
    pub fn is_open(&self) -> bool
        ensures { result ≡ is_some self.now.head }
    {
        self.head.is_some()
    }

    /// The berths of the lockage that still gets some.
    pub fn berths(&self) -> &[Berth]
        ensures value { result.now ≡ self.now.berths }
        ensures fits { length result.now ≤ MOST }
    {
        self.berths.as_slice()
    }

    /// Begins a lockage.
    pub fn begin(&mut self, head: Head)
        requires { length self.old.lockages < SHIPS }
        ensures { self.new ≡ record { lockages = self.old.lockages; head = Some head; berths = [] } }
    {
        self.head = Some(head);
        self.berths = Berths::new();
    }

    /// Appends a berth.
    pub fn push_berth(&mut self, berth: Berth)
        requires { length self.old.berths < MOST }
        ensures { self.new ≡ record self.old { berths = self.old.berths ++ berth ∷ [] } }
    {
        self.berths.push(berth);
    }

    /// Ends the lockage that still gets berths, if there is one. Refuses with `Host` the first
    /// berth whose host has none, at its line.
    #[tactic(auto, unfolding(crate::specs::Draft::close))]
    pub fn close(&mut self, instance: &Instance) -> Result<(), BadPlan>
        ensures read { OnOk result (close instance.now self.old ≡ Ok self.new) }
        ensures bad { IfErr result (λ b. close instance.now self.old ≡ Err b) }
    {
        let Some(head) = self.head else {
            return Ok(());
        };
        check_hosts(self.berths.as_slice())?;
        self.lockages
            .push(lockage_of(instance, head, self.berths.as_slice()));
        self.head = None;
        self.berths = Berths::new();
        Ok(())
    }

    /// The plan of the lockages that are whole.
    pub fn into_plan(self) -> Plan
        ensures { result.lockages ≡ self.lockages }
    {
        let Draft { lockages, .. } = self;
        Plan { lockages }
    }
}
