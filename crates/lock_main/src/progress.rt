//! How far a search is, told on standard error while it runs and at its end.
use crate::numbers::Numbers;
use gates::{Gate, Point};
use std::env;
use std::io::Write as _;
use std::sync::atomic::AtomicU64;
use std::sync::atomic::Ordering::SeqCst;
use std::time::Instant;

// The variable of the environment that asks for it.
const ASKING: &str = "GLOCK_PROGRESS";

// Seconds from one line to the next.
const PERIOD: u64 = 1;

/// A gate that lets all pass at once, and writes a line once a second where that is asked for: nodes taken,
/// the best cost and a cost below which no plan is, both in minutes. Faults of writing are let go.
#[derive(Drop)]
pub(crate) struct ProgressGate<'r> {
    rt: &'r HostRuntime,
    begun: Option<Instant>,
    due: AtomicU64,
    numbers: Numbers,
}

impl<'r> ProgressGate<'r> {
    /// A gate that nobody has called. It never writes where the environment doesn't ask for it, or there is
    /// no clock. Inlined, the room for a variable's name would be on the stack of the whole run.
    #[inline(never)]
    pub(crate) fn new(rt: &'r HostRuntime) -> ProgressGate<'r> {
        let begun = match env::var(rt, ASKING) {
            Ok(_) => Instant::now(rt).ok(),
            Err(_) => None,
        };
        ProgressGate {
            rt,
            begun,
            due: AtomicU64::new(0),
            numbers: Numbers::new(),
        }
    }

    // Whether a line is due, which one caller alone is told.
    fn is_due(&self, begun: Instant) -> bool {
        let due = self.due.load(SeqCst);
        match begun.elapsed(self.rt) {
            Ok(gone) => {
                let now = gone.as_secs();
                let next = now.saturating_add(PERIOD);
                now >= due && self.due.compare_exchange(due, next, SeqCst, SeqCst).is_ok()
            }
            Err(_) => false,
        }
    }

    fn write(&self, line: &str) {
        let _ = self.rt.stderr().write(line.as_bytes());
    }

    /// Writes the numbers of the search that has ended, if there was one and the environment asks for it.
    pub(crate) fn end(&self) {
        if self.begun.is_some()
            && self.numbers.have_plan()
            && let Ok(line) = self.numbers.last_line()
        {
            self.write(line.as_str());
        }
    }
}

impl Gate for ProgressGate<'_> {
    fn at(&self, _worker: u8, point: Point) {
        let Some(begun) = self.begun else {
            return;
        };
        self.numbers.note(point);
        if self.numbers.have_plan()
            && self.is_due(begun)
            && let Ok(line) = self.numbers.line()
        {
            self.write(line.as_str());
        }
    }
}
