//! The steps of an ascent.
ghost use Rattle.std.specs.Prelude.{◌≡◌, ◌+◌, ◌<◌, ◌≤◌, ◌<ℤ◌, pos, length, if◌then◌else◌};
ghost use Rattle.std.specs.Bool.{OnTrue, OnFalse};
ghost use Rattle.price_raise.specs.Raising.{IsWeighed};

use crate::picking::picked;
use crate::raised::RaisedTriples;
use crate::recent::Recent;
use crate::stands::Stands;
use crate::steps::{Step, WHOLE_STRIDE, exact, gap_to, turned, whole, with_square};
use lock_model::SHIPS;
use price_terms::Prices;

/// How an ascent goes on: so many steps at the most; of the last direction so many tenths are kept; after
/// so many steps without gain it goes back to the best prices, with steps a third shorter; and after each
/// span of so many steps it ends, unless so many spans that gain as much as this one would reach the goal.
#[derive(Clone, Copy, PartialEq, Eq)]
pub struct Pace {
    pub steps: u32,
    pub kept: u32,
    pub patience: u32,
    pub span: u32,
    pub spans: u32,
    pub from_best: u32,
}

/// Prices that are tried, the best ones so far with what they reach, how the next step is made, the groups
/// of the least lines of late, what the best prices reached when the span began, and how many steps of it
/// were made.
#[derive(Drop)]
pub struct Ascent {
    tried: Prices,
    best: Prices,
    best_sum: i64,
    exact: [i64; SHIPS],
    direction: [i64; SHIPS],
    triples: RaisedTriples,
    recent: Recent,
    stride: i64,
    idle: u32,
    mark: i64,
    walked: u32,
    pace: Pace,
}

// A further ascent begins near the best prices, with a quarter of a stride.
const FURTHER_STRIDE: i64 = WHOLE_STRIDE / 4;

// The exact prices of ships.
fn exact_of(prices: &Prices) -> [i64; SHIPS] {
    let mut all = [0; SHIPS];
    for (ship, &price) in prices.as_slice().iter().enumerate() {
        all[ship] = exact(price);
    }
    all
}

// The whole prices of so many ships.
fn prices_of(exact: &[i64; SHIPS], ships: usize) -> Prices
    requires { ships ≤ SHIPS }
    ensures { length result.ships ≡ ships }
{
    let mut prices = [0; SHIPS];
    for ship in 0..ships {
        prices[ship] = whole(exact[ship]);
    }
    Prices::capped(&prices[..ships])
}

// The squares of the directions, added.
fn norm_of(direction: &[i64; SHIPS]) -> i64 {
    let mut norm: i64 = 0;
    for &part in direction {
        norm = with_square(norm, part);
    }
    norm
}

// Turns the direction: a missing ship pulls by how often it is lacking.
fn turn(direction: &mut [i64; SHIPS], missing: &[u8], stands: &Stands, kept: u32) {
    for &ship in missing {
        if (ship as usize) < SHIPS {
            let lacking = 1i64.saturating_sub(stands.of(ship));
            direction[ship as usize] = turned(direction[ship as usize], kept, lacking);
        }
    }
}

// Makes a step along the direction.
fn go(exact: &mut [i64; SHIPS], direction: &[i64; SHIPS], missing: &[u8], step: Step)
    requires { pos 0 <ℤ step.norm }
{
    for &ship in missing {
        if (ship as usize) < SHIPS {
            exact[ship as usize] = step.from(exact[ship as usize], direction[ship as usize]);
        }
    }
}

impl Ascent {
    /// An ascent that begins with these prices. Those of their triples stay until it is widened.
    pub fn new(start: Prices, pace: Pace) -> Ascent
        ensures tried { result.tried ≡ start }
        ensures best { result.best ≡ start }
        ensures pace { result.pace ≡ pace }
    {
        Ascent {
            best: start.copy(),
            best_sum: i64::MIN,
            exact: exact_of(&start),
            direction: [0; SHIPS],
            triples: RaisedTriples::of(&start),
            recent: Recent::new(),
            stride: WHOLE_STRIDE,
            idle: 0,
            mark: i64::MIN,
            // the first step begins a span
            walked: pace.span,
            pace,
            tried: start,
        }
    }

    /// Begins anew with these prices, as `new` does, in the same place.
    pub fn restart(&mut self, start: &Prices, pace: Pace)
        ensures tried { self.new.tried ≡ start.now }
        ensures best { self.new.best ≡ start.now }
        ensures pace { self.new.pace ≡ pace }
    {
        self.tried = start.copy();
        self.best = start.copy();
        self.best_sum = i64::MIN;
        self.exact = exact_of(start);
        self.direction = [0; SHIPS];
        self.triples = RaisedTriples::of(start);
        self.recent.clear();
        self.stride = WHOLE_STRIDE;
        self.idle = 0;
        self.mark = i64::MIN;
        self.walked = pace.span;
        self.pace = pace;
    }

    /// The prices that are to be tried next.
    pub fn tried(&self) -> &Prices
        ensures { result.now ≡ self.now.tried }
    {
        &self.tried
    }

    /// The best prices so far.
    pub fn best(&self) -> &Prices
        ensures { result.now ≡ self.now.best }
    {
        &self.best
    }

    /// What the best prices reach: the sum of the least lines and the prices, in hundredths of a
    /// minute.
    pub fn best_sum(&self) -> i64
        ensures { result ≡ self.now.best_sum }
    {
        self.best_sum
    }

    // Goes back to the best prices, from where the next step is made then.
    fn go_back(&mut self)
        ensures tried { self.new.tried ≡ self.old.tried }
        ensures best { self.new.best ≡ self.old.best }
        ensures best_sum { self.new.best_sum ≡ self.old.best_sum }
        ensures pace { self.new.pace ≡ self.old.pace }
    {
        self.exact = exact_of(&self.best);
        self.triples.go_back(&self.best);
    }

    // Whether steps are made from the best prices by now.
    fn begins_at_best(&self) -> bool {
        self.pace.steps < self.pace.from_best
    }

    // How many steps may bring no gain.
    fn patience(&self) -> u32 {
        if self.begins_at_best() {
            self.pace.patience / 2
        } else {
            self.pace.patience
        }
    }

    // Keeps the prices that were tried where they are the best ones, and goes back to the best ones
    // after too many steps without gain.
    fn weigh(&mut self, sum: i64)
        ensures weighed { IsWeighed self.old sum self.new }
        ensures tried { self.new.tried ≡ self.old.tried }
        ensures pace { self.new.pace ≡ self.old.pace }
    {
        if sum > self.best_sum {
            self.best = self.tried.copy();
            self.best_sum = sum;
            self.idle = 0;
        } else if self.idle < self.patience() {
            self.idle += 1;
        } else {
            self.go_back();
            self.stride = self.stride / 3 * 2;
            self.idle = 0;
        }
    }

    // Counts a step; whether a span is over and the goal out of sight: it isn't reached where as many
    // spans as the pace has gain as much as this one.
    fn is_hopeless(&mut self, goal: u64) -> bool
        ensures tried { self.new.tried ≡ self.old.tried }
        ensures best { self.new.best ≡ self.old.best }
        ensures best_sum { self.new.best_sum ≡ self.old.best_sum }
        ensures pace { self.new.pace ≡ self.old.pace }
    {
        if self.walked < self.pace.span {
            self.walked += 1;
            return false;
        }
        let gained = self.best_sum.saturating_sub(self.mark);
        self.mark = self.best_sum;
        self.walked = 1;
        gained.saturating_mul(self.pace.spans as i64) < gap_to(goal, self.best_sum)
    }

    // Counts a step towards this goal; whether there are none left, or the goal is out of sight.
    fn is_over(&mut self, goal: u64) -> bool
        ensures tried { self.new.tried ≡ self.old.tried }
        ensures best { self.new.best ≡ self.old.best }
        ensures best_sum { self.new.best_sum ≡ self.old.best_sum }
        ensures fewer { OnFalse result (self.new.pace.steps + 1 ≡ self.old.pace.steps) }
    {
        if self.is_hopeless(goal) || self.pace.steps == 0 {
            return true;
        }
        self.pace.steps -= 1;
        false
    }

    /// Raises the prices by what came of those that were tried: the sum of their least lines and the
    /// prices, in hundredths of a minute, and how often missing ships stand in the lines. The goal is a
    /// cost in minutes. The better ones are kept. Whether there are other prices to try: there are none
    /// after as many steps as the pace allows, where each missing ship stands in the lines once, or where
    /// the goal is out of sight. A step whose lines gave new cuts doesn't count: the sum says less of the
    /// prices then, which may reach more with the cuts.
    pub fn raise(
        &mut self,
        missing: &[u8],
        stands: &Stands,
        sum: i64,
        goal: u64,
        is_cut: bool,
    ) -> bool
        ensures weighed { IsWeighed self.old sum self.new }
        ensures shape { length self.new.tried.ships ≡ length self.old.tried.ships }
        ensures fewer { OnTrue result (self.new.pace.steps + (if is_cut then 0 else 1) ≡ self.old.pace.steps) }
        ensures same { OnFalse result (self.new.tried ≡ self.old.tried) }
    {
        self.weigh(sum);
        self.recent.note(stands);
        turn(&mut self.direction, missing, stands, self.pace.kept);
        self.triples.turn(stands, self.pace.kept);
        let norm = self.triples.with_squares(norm_of(&self.direction));
        if norm <= 0 || !is_cut && self.is_over(goal) {
            return false;
        }
        if self.begins_at_best() {
            self.go_back();
        }
        let reach = self
            .stride
            .saturating_mul(gap_to(goal, sum))
            .saturating_mul(4);
        let step = Step { reach, norm };
        go(&mut self.exact, &self.direction, missing, step);
        self.triples.go(step);
        self.tried = self.prices();
        true
    }

    // The whole prices of the exact ones.
    fn prices(&self) -> Prices
        ensures { length result.ships ≡ length self.now.tried.ships }
    {
        let ships = self.tried.as_slice().len();
        self.triples.with(prices_of(&self.exact, ships))
    }

    // Goes back to the best prices so far, to ascend from there at another pace, with triples too.
    fn go_on(&mut self, pace: Pace)
        ensures best { self.new.best ≡ self.old.best }
        ensures best_sum { self.new.best_sum ≡ self.old.best_sum }
        ensures tried { self.new.tried ≡ self.old.tried }
        ensures pace { self.new.pace ≡ pace }
    {
        self.go_back();
        self.direction = [0; SHIPS];
        self.triples.free();
        self.stride = FURTHER_STRIDE;
        self.idle = 0;
        self.mark = i64::MIN;
        self.walked = pace.span;
        self.pace = pace;
    }

    /// Begins a further ascent from the best prices so far, at this pace and with smaller steps: triples
    /// that groups of the least lines had more than once of late get a price, and from now on the prices of
    /// all triples are raised. Whether there are such triples; else all is as before.
    pub fn widen(&mut self, pace: Pace) -> bool
        ensures best { self.new.best ≡ self.old.best }
        ensures best_sum { self.new.best_sum ≡ self.old.best_sum }
        ensures shape { length self.new.tried.ships ≡ length self.old.tried.ships }
    {
        let ships = self.tried.as_slice().len() as u8;
        let picks = picked(&self.recent, &self.triples, ships);
        if picks.is_empty() {
            return false;
        }
        self.go_on(pace);
        self.triples.add_all(picks.as_slice());
        self.tried = self.prices();
        true
    }
}
