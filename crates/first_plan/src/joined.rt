//! Two lockages of a chamber served as one.
ghost use Rattle.std.specs.Prelude.{ℕ, ◌≡◌, ◌+◌, ◌^◌, ◌<◌, ◌≤◌, length, All, IfSome};
ghost use Rattle.first_plan.specs.Merging.{AreGroupsBelow, AreShipsBelow};

use lock_model::{Group, Instance, Line, Lockage, Lockages, MOST, Plan, SHIPS, Ships, Spots};

// The ships of both lists in rising number, of `count` ships in all; none where they are more than
// `most`.
pub(crate) fn joined_ships(first: &Ships, second: &Ships, most: u8, count: u8) -> Option<Ships>
    requires { most ≤ MOST }
    ensures { IfSome result (All (λ s. s < count)) }
{
    let mut ships = Ships::new();
    for ship in 0..count {
        if first.as_slice().contains(&ship) || second.as_slice().contains(&ship) {
            if ships.len() >= most as usize {
                return None;
            }
            ships.push(ship);
        }
    }
    Some(ships)
}

/// Lockage number `into` of a plan with further ships, in the place of it and of lockage number
/// `gone`; both are of one chamber and one way.
#[derive(Drop)]
pub(crate) struct Joined {
    pub(crate) into: usize,
    pub(crate) gone: usize,
    pub(crate) ships: Ships,
}

impl Joined {
    // The ships of lockage number `i` after the joining.
    fn ships_of(&self, i: usize, lockage: &Lockage) -> Ships
        ensures { (n : ℕ) → All (λ s. s < n) self.now.ships → All (λ s. s < n) lockage.now.ships → All (λ s. s < n) result }
    {
        if i == self.into {
            self.ships.copy()
        } else {
            lockage.ships.copy()
        }
    }

    // The group of lockage number `i` after the joining.
    fn group_of(&self, i: usize, lockage: &Lockage) -> Group
        ensures { (n : ℕ) → All (λ s. s < n) self.now.ships → All (λ s. s < n) lockage.now.ships → All (λ s. s < n) result.ships }
    {
        Group {
            way: lockage.way,
            ships: self.ships_of(i, lockage),
        }
    }

    // The spots of lockage number `i` after the joining.
    fn spots_of(&self, i: usize, lockage: &Lockage, spots: &Spots) -> Spots {
        if i == self.into {
            spots.copy()
        } else {
            lockage.spots.copy()
        }
    }

    // Appends the group of lockage number `i` after the joining, where it is of the chamber and stays.
    fn put_group(&self, i: usize, lockage: &Lockage, chamber: u8, line: &mut Line)
        requires { length line.old < SHIPS }
        ensures fits { length line.new ≤ length line.old + 1 }
        ensures known { (n : ℕ) → AreShipsBelow n self.now.ships → AreShipsBelow n lockage.now.ships → AreGroupsBelow n line.old → AreGroupsBelow n line.new }
    {
        if lockage.chamber == chamber && i != self.gone {
            line.push(self.group_of(i, lockage));
        }
    }

    /// The line of a chamber after the joining, in the order of the plan's lockages.
    pub(crate) fn line(&self, instance: &Instance, plan: &Plan, chamber: u8) -> Line
        requires plan { All (λ l. All (λ s. s < length instance.now.ships) l.ships) plan.now.lockages }
        requires joined { All (λ s. s < length instance.now.ships) self.now.ships }
        ensures { All (λ g. All (λ s. s < length instance.now.ships) g.ships) result }
    {
        let lockages = plan.lockages.as_slice();
        let mut line = Line::new();
        for i in 0..lockages.len() {
            self.put_group(i, &lockages[i], chamber, &mut line);
        }
        line
    }

    // Lockage number `i` after the joining, at its start.
    fn lockage(&self, i: usize, lockage: &Lockage, spots: &Spots, start: u32) -> Lockage {
        Lockage {
            chamber: lockage.chamber,
            way: lockage.way,
            ships: self.ships_of(i, lockage),
            start,
            spots: self.spots_of(i, lockage, spots),
        }
    }

    /// The plan after the joining: the joined ships lie at these spots, and the lockages of their
    /// chamber start at these times, one after the other.
    pub(crate) fn plan(&self, plan: &Plan, chamber: u8, spots: &Spots, times: &[(u64, u64)]) -> Plan
        requires { All (λ t. (t.0 < 2 ^ 32) × (t.1 < 2 ^ 32)) times.now }
    {
        let old = plan.lockages.as_slice();
        let mut lockages = Lockages::new();
        let mut served = 0;
        for i in 0..old.len() {
            let lockage = &old[i];
            if i != self.gone {
                let start = if lockage.chamber == chamber && served < times.len() {
                    times[served].0 as u32
                } else {
                    lockage.start
                };
                served += (lockage.chamber == chamber) as usize;
                lockages.push(self.lockage(i, lockage, spots, start));
            }
        }
        Plan { lockages }
    }
}
