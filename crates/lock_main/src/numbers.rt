//! What a search tells of itself as it goes, in whole numbers.
use arrayvec::ArrayString;
use gates::Point;
use std::fmt;
use std::fmt::Write as _;
use std::sync::atomic::AtomicU64;
use std::sync::atomic::Ordering::SeqCst;

// A cost that no plan has.
const NO_PLAN: u64 = u64::MAX;

// Room for a line of words and four numbers.
const LINE: usize = 128;

// The line of these words, each with its number behind it.
fn line_of(told: &[(&str, u64)]) -> Result<ArrayString<LINE>, fmt::Error> {
    let mut line = ArrayString::new();
    for (word, number) in told {
        write!(line, "{word} {number}")?;
    }
    line.write_str("\n")?;
    Ok(line)
}

/// Nodes used, rounds of prices, cuts known, the first and the last cost below which no plan is, and the best
/// plan's cost, both in minutes.
#[derive(Drop)]
pub(crate) struct Numbers {
    nodes: AtomicU64,
    rounds: AtomicU64,
    cuts: AtomicU64,
    first_low: AtomicU64,
    low: AtomicU64,
    cost: AtomicU64,
}

impl Numbers {
    /// Nothing was told yet.
    pub(crate) fn new() -> Numbers {
        Numbers {
            nodes: AtomicU64::new(0),
            rounds: AtomicU64::new(0),
            cuts: AtomicU64::new(0),
            first_low: AtomicU64::new(0),
            low: AtomicU64::new(0),
            cost: AtomicU64::new(NO_PLAN),
        }
    }

    /// Notes what one thread tells.
    pub(crate) fn note(&self, point: Point) {
        match point {
            Point::Took(_) => {
                self.nodes.fetch_add(1, SeqCst);
            }
            Point::Ahead(count) => {
                self.nodes.fetch_add(count as u64, SeqCst);
            }
            Point::Used(count) => self.nodes.store(count as u64, SeqCst),
            Point::Knows(cuts) => self.note_round(cuts),
            Point::Read(cost) => {
                self.cost.fetch_min(cost, SeqCst);
            }
            Point::Low(low) => self.note_low(low),
            _ => {}
        }
    }

    fn note_round(&self, cuts: u64) {
        self.rounds.fetch_add(1, SeqCst);
        self.cuts.fetch_max(cuts, SeqCst);
    }

    fn note_low(&self, low: u64) {
        let _ = self.first_low.compare_exchange(0, low, SeqCst, SeqCst);
        self.low.fetch_max(low, SeqCst);
    }

    /// Whether some plan's cost was told.
    pub(crate) fn have_plan(&self) -> bool {
        self.cost.load(SeqCst) < NO_PLAN
    }

    /// The line that tells how far a search is.
    pub(crate) fn line(&self) -> Result<ArrayString<LINE>, fmt::Error> {
        line_of(&[
            ("nodes", self.nodes.load(SeqCst)),
            (" cost", self.cost.load(SeqCst)),
            (" low", self.low.load(SeqCst)),
        ])
    }

    /// The line that tells how a search ended.
    pub(crate) fn last_line(&self) -> Result<ArrayString<LINE>, fmt::Error> {
        line_of(&[
            ("ended nodes", self.nodes.load(SeqCst)),
            (" rounds", self.rounds.load(SeqCst)),
            (" cuts", self.cuts.load(SeqCst)),
            (" first low", self.first_low.load(SeqCst)),
        ])
    }
}
