//! When lines are due.

use std::sync::atomic::{AtomicU64, Ordering};

/// How many milliseconds pass before the first line, and then from one line to the next.
const PAUSE: u64 = 1_000;

/// When something began of which a line is told once a second, and when the next one is due.
#[derive(Drop)]
pub struct Pace {
    /// When it began, in milliseconds of the clock, or 0.
    begun: AtomicU64,
    /// When the next line is due.
    due: AtomicU64,
}

impl Pace {
    /// It has not begun.
    pub fn new() -> Pace {
        Pace {
            begun: AtomicU64::new(0),
            due: AtomicU64::new(0),
        }
    }

    /// It begins, as if it had not before.
    pub fn begin(&self, now: u64) {
        self.begun.store(now, Ordering::SeqCst);
        self.put_off(now);
    }

    /// It begins, unless it has before.
    pub fn begin_once(&self, now: u64) {
        let first = self
            .begun
            .compare_exchange(0, now, Ordering::SeqCst, Ordering::SeqCst);
        if first.is_ok() {
            self.put_off(now);
        }
    }

    /// The next line is due as long after that time as after a line.
    pub fn put_off(&self, now: u64) {
        self.due.store(now.saturating_add(PAUSE), Ordering::SeqCst);
    }

    /// How many milliseconds have passed since it began.
    pub fn passed(&self, now: u64) -> u64 {
        now.saturating_sub(self.begun.load(Ordering::SeqCst))
    }

    /// Whether a line is due, which is then told by the one that asked.
    pub fn is_due(&self, now: u64) -> bool {
        let due = self.due.load(Ordering::SeqCst);
        let next = now.saturating_add(PAUSE);
        now >= due
            && self
                .due
                .compare_exchange(due, next, Ordering::SeqCst, Ordering::SeqCst)
                .is_ok()
    }
}
