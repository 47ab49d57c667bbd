//! The commands, each with its options.

/// Options of `solve` and `resume`.
#[derive(Clone, Copy)]
pub struct SolveOptions {
    /// How many nodes the search may use, 1 to 1,000,000; 100,000 where it isn't given.
    pub nodes: u32,
    /// How many cases of one deck a placer may try, 1 to 200,000; else 20,000.
    pub turns: u32,
    /// How many workers search, 1 to `WORKERS`; else 2.
    pub workers: u8,
    /// Print a dossier where the plan is optimal.
    pub dossier: bool,
    /// Print an open dossier where the search ends open.
    pub keep: bool,
}

/// Options of `lot`, which makes an instance from a number.
#[derive(Clone, Copy)]
pub struct LotOptions {
    /// The number that the instance is made from, 0 to 4,294,967,295; 1 where it isn't given.
    pub number: u32,
    /// How many ships it has, 1 to `SHIPS`; else 12.
    pub ships: u8,
    /// How many chambers it has, 1 to `CHAMBERS`; else 2.
    pub chambers: u8,
}

/// Options of `trial`, which solves a made instance.
#[derive(Clone, Copy)]
pub struct TrialOptions {
    /// The instance.
    pub lot: LotOptions,
    /// How many nodes the search may use, 1 to 1,000,000; 100,000 where it isn't given.
    pub nodes: u32,
    /// How many cases of one deck a placer may try, 1 to 200,000; else 20,000.
    pub turns: u32,
}

/// The rest of a day that is planned anew, and the minute from which on: 0 to 1,000,000.
#[derive(Clone, Copy)]
pub enum DayRest {
    /// The rest after the lockages that start before the minute, of a day that is known beforehand.
    Known(u32),
    /// The rest after all that has begun at the minute, of a day as it is lived.
    Lived(u32),
}

/// Options of `replan`.
#[derive(Clone, Copy)]
pub struct ReplanOptions {
    /// The rest that is planned anew; its minute is always given.
    pub rest: DayRest,
    /// How many nodes the search may use, 1 to 1,000,000; 100,000 where it isn't given.
    pub nodes: u32,
    /// How many cases of one deck a placer may try, 1 to 200,000; else 20,000.
    pub turns: u32,
    /// How many workers search, 1 to `WORKERS`; else 2.
    pub workers: u8,
    /// Print a dossier of the rest where it is optimal.
    pub dossier: bool,
}

/// What the program is asked to do.
#[derive(Clone, Copy)]
pub enum Command {
    /// Plan an instance.
    Solve(SolveOptions),
    /// Check a dossier.
    Check,
    /// Make an instance from a number.
    Lot(LotOptions),
    /// Make an instance and solve it.
    Trial(TrialOptions),
    /// Judge a plan.
    Judge,
    /// Tell the day of a plan.
    Play,
    /// Plan anew from a minute on.
    Replan(ReplanOptions),
    /// Check an open dossier and print what it proves.
    Lower,
    /// Go on from an open dossier.
    Resume(SolveOptions),
}
