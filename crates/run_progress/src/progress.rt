// A gate that says on a terminal how far a run has come.
use nc_outside::{Gate, Point};
use std::io::IsTerminal;
use std::rt::Stderr;
use std::sync::Wait;
use std::sync::atomic::{AtomicBool, AtomicU64, Ordering};
use std::time::{Clock, Instant};

// After so many milliseconds of a run something is shown, and then so many apart.
const FIRST: u64 = 1000;

const APART: u64 = 500;

/// A gate that is always open, and counts the calls that pass it. Where standard error is a terminal, a run of more than a second shows
/// there how many of them were made, at most twice a second; the times are our own choice.
#[derive(Drop)]
pub struct Progress<'a, C: Clock> {
    clock: &'a C,
    terminal: Stderr,
    // When the run began. None where nothing is to be shown.
    begun: Option<Instant>,
    made: AtomicU64,
    // The most that can be made; 0 where that isn't known.
    known: AtomicU64,
    // When the line is due, in milliseconds from the beginning.
    due: AtomicU64,
    stands: AtomicBool,
}

impl<'a, C: Clock> Progress<'a, C> {
    pub fn new(clock: &'a C, terminal: Stderr) -> Self {
        let begun = if terminal.is_terminal() {
            Instant::now(clock).ok()
        } else {
            None
        };
        Progress {
            clock,
            terminal,
            begun,
            made: AtomicU64::new(0),
            known: AtomicU64::new(0),
            due: AtomicU64::new(FIRST),
            stands: AtomicBool::new(false),
        }
    }

    /// Whether anything is shown.
    pub fn is_shown(&self) -> bool {
        self.begun.is_some()
    }

    /// Learns of more calls that a run has.
    pub fn expect(&self, calls: u64) {
        self.known.fetch_add(calls, Ordering::SeqCst);
    }

    /// Takes the line away.
    pub fn clear(&self) {
        if self.stands.swap(false, Ordering::SeqCst) {
            let _ = self.terminal.eprint("\r\x1B[K");
        }
    }

    // Shows the line, where it is due.
    fn show(&self) {
        if self.begun.is_some_and(|begun| self.is_due(begun)) {
            self.stands.store(true, Ordering::SeqCst);
            self.write();
        }
    }

    // Whether it is time to show the line, which then is due later again.
    fn is_due(&self, begun: Instant) -> bool {
        let Ok(since) = begun.elapsed(self.clock) else {
            return false;
        };
        let now = u64::try_from(since.as_millis()).unwrap_or(0);
        let due = self.due.load(Ordering::SeqCst);
        let next = now.saturating_add(APART);
        due <= now
            && self
                .due
                .compare_exchange(due, next, Ordering::SeqCst, Ordering::SeqCst)
                .is_ok()
    }

    fn write(&self) {
        let made = self.made.load(Ordering::SeqCst);
        let known = self.known.load(Ordering::SeqCst);
        let _ = if known > 0 {
            let made = made.min(known);
            eprint!(self.terminal; "\r\x1B[Kncrun: {made} of at most {known} calls")
        } else {
            eprint!(self.terminal; "\r\x1B[Kncrun: {made} calls")
        };
    }
}

impl<C: Clock + Sync> Gate for Progress<'_, C> {
    fn pass<R: Wait>(&self, _rt: &R, at: Point) {
        match at {
            Point::RankStep(..) => {
                self.show();
                self.made.fetch_add(1, Ordering::SeqCst);
            }
            Point::Arrival(taken) => {
                self.made.store(taken, Ordering::SeqCst);
                self.show();
            }
            Point::Window(..) => self.show(),
            Point::Reading(..) => {}
        }
    }
}
