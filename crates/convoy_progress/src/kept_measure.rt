//! How times are told beside numbers of ticks.

use convoy_commands::{Duration, TimeUnit};
use convoy_times::Measure;
use std::alloc::{AllocError, Global};
use std::sync::atomic::{AtomicU64, Ordering};

/// How times are told, for several threads.
#[derive(Drop)]
pub struct KeptMeasure {
    /// How many nanoseconds a tick lasts, or 0 where that is not known.
    tick: AtomicU64,
    /// How many nanoseconds the unit has in which times are told, or 0.
    unit: AtomicU64,
}

impl KeptMeasure {
    /// The length of a tick is not known.
    pub fn new() -> KeptMeasure {
        KeptMeasure {
            tick: AtomicU64::new(0),
            unit: AtomicU64::new(0),
        }
    }

    /// Times are told so from here on; not at all where the length of a tick is not known.
    pub fn keep(&self, measure: Option<Measure>) {
        let (tick, unit) = match measure {
            Some(measure) => (measure.tick.nanoseconds(), measure.unit.nanoseconds()),
            None => (0, 0),
        };
        self.tick.store(tick, Ordering::SeqCst);
        self.unit.store(unit, Ordering::SeqCst);
    }

    /// What is told of so many ticks as a time, after a word, in brackets; nothing where the length of a tick is not known.
    pub fn lasting(&self, alloc: Global, word: &str, ticks: u32) -> Result<String, AllocError> {
        match self.measure() {
            Some(known) => in_brackets(alloc, word, known, ticks),
            None => Ok(String::new(alloc)),
        }
    }

    /// How times are told; None where the length of a tick is not known.
    fn measure(&self) -> Option<Measure> {
        let unit = unit_of(self.unit.load(Ordering::SeqCst))?;
        let tick = Duration::from_nanoseconds(self.tick.load(Ordering::SeqCst))?;
        Some(Measure { tick, unit })
    }
}

/// So many ticks as a time, after a word, in brackets.
fn in_brackets(
    alloc: Global,
    word: &str,
    measure: Measure,
    ticks: u32,
) -> Result<String, AllocError> {
    let unit = measure.unit.word();
    let time = measure.text(alloc, ticks)?;
    format!(in alloc; " ({word}{time} {unit})")
}

/// The unit that has so many nanoseconds, if one has.
fn unit_of(nanoseconds: u64) -> Option<TimeUnit> {
    let units = [
        TimeUnit::Seconds,
        TimeUnit::Milliseconds,
        TimeUnit::Microseconds,
        TimeUnit::Nanoseconds,
    ];
    units
        .iter()
        .find(|unit| unit.nanoseconds() == nanoseconds)
        .copied()
}
