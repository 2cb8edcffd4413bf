//! How far a search over the placements of a plan has come, as a line.

use super::kept_measure::KeptMeasure;
use super::pace::Pace;
use convoy_best_plan::Stage;
use convoy_times::Measure;
use std::alloc::{AllocError, Global};
use std::sync::atomic::{AtomicBool, AtomicU32, AtomicU64, Ordering};

/// How far a search over placements has come: what the progresses of the searches inside it share.
#[derive(Drop)]
pub struct Placing {
    pace: Pace,
    /// Whether such a search is under way.
    is_under_way: AtomicBool,
    /// Whether a line was told of it.
    told: AtomicBool,
    /// The place of the choice that is searched for, counted from 1, or 0 where a certificate is made.
    place: AtomicU64,
    /// How many placements there are.
    placements: AtomicU64,
    /// How many of them are passed.
    passed: AtomicU64,
    /// Whether there is a choice so far.
    is_found: AtomicBool,
    /// The latency of that choice that counts, in ticks.
    latency: AtomicU32,
    /// Whether deadlines count, and the one of that latency.
    is_judged: AtomicBool,
    deadline: AtomicU32,
    measure: KeptMeasure,
}

impl Placing {
    /// None is under way.
    pub fn new() -> Placing {
        Placing {
            pace: Pace::new(),
            is_under_way: AtomicBool::new(false),
            told: AtomicBool::new(false),
            place: AtomicU64::new(0),
            placements: AtomicU64::new(0),
            passed: AtomicU64::new(0),
            is_found: AtomicBool::new(false),
            latency: AtomicU32::new(0),
            is_judged: AtomicBool::new(false),
            deadline: AtomicU32::new(0),
            measure: KeptMeasure::new(),
        }
    }

    /// A search over so many placements begins.
    pub fn begin(&self, now: u64, stage: Stage, placements: u64) {
        let place = match stage {
            Stage::Choice(told) => (told as u64).saturating_add(1),
            Stage::Certificate => 0,
        };
        self.pace.begin(now);
        self.told.store(false, Ordering::SeqCst);
        self.place.store(place, Ordering::SeqCst);
        self.placements.store(placements, Ordering::SeqCst);
        self.passed.store(0, Ordering::SeqCst);
        self.is_found.store(false, Ordering::SeqCst);
        self.is_under_way.store(true, Ordering::SeqCst);
    }

    /// So many placements more are passed.
    pub fn pass(&self, placements: u64) {
        self.passed.fetch_add(placements, Ordering::SeqCst);
    }

    /// This is the latency that counts of the best choice so far, with its deadline where deadlines count.
    pub fn choose(&self, measure: Option<Measure>, latency: u32, deadline: Option<u32>) {
        self.measure.keep(measure);
        self.latency.store(latency, Ordering::SeqCst);
        self.is_judged.store(deadline.is_some(), Ordering::SeqCst);
        self.deadline.store(deadline.unwrap_or(0), Ordering::SeqCst);
        self.is_found.store(true, Ordering::SeqCst);
    }

    /// The search has ended. Answers whether a line was told of it.
    pub fn end(&self) -> bool {
        self.is_under_way.store(false, Ordering::SeqCst);
        self.told.load(Ordering::SeqCst)
    }

    /// Whether a search over placements is under way.
    pub fn is_under_way(&self) -> bool {
        self.is_under_way.load(Ordering::SeqCst)
    }

    /// Whether a line is due, which is then told by the one that asked.
    pub fn is_due(&self, now: u64) -> bool {
        let is_due = self.pace.is_due(now);
        if is_due {
            self.told.store(true, Ordering::SeqCst);
        }
        is_due
    }

    /// What is told at that time.
    pub fn line(&self, alloc: Global, now: u64) -> Result<String, AllocError> {
        let stage = self.stage(alloc)?;
        let passed = self.passed.load(Ordering::SeqCst);
        let placements = self.placements.load(Ordering::SeqCst);
        let are = if placements == 1 {
            "placement is"
        } else {
            "placements are"
        };
        let seconds = self.pace.passed(now) / 1_000;
        let best = self.best(alloc)?;
        format!(in alloc; "{stage}{passed} of {placements} {are} passed in {seconds} s{best}")
    }

    /// For what it is, where that is not the best choice of all.
    fn stage(&self, alloc: Global) -> Result<String, AllocError> {
        match self.place.load(Ordering::SeqCst) {
            0 => format!(in alloc; "certificate: "),
            1 => Ok(String::new(alloc)),
            place => format!(in alloc; "place {place}: "),
        }
    }

    /// What is told of the best choice so far; nothing where there is none.
    fn best(&self, alloc: Global) -> Result<String, AllocError> {
        if !self.is_found.load(Ordering::SeqCst) {
            return Ok(String::new(alloc));
        }
        let latency = self.latency.load(Ordering::SeqCst);
        if !self.is_judged.load(Ordering::SeqCst) {
            return self.best_by(alloc, "has at most", latency);
        }
        let deadline = self.deadline.load(Ordering::SeqCst);
        if latency <= deadline {
            self.best_by(alloc, "is within its deadlines by", deadline - latency)
        } else {
            self.best_by(alloc, "is beyond a deadline by at most", latency - deadline)
        }
    }

    /// What is told of it by so many ticks.
    fn best_by(&self, alloc: Global, how: &str, ticks: u32) -> Result<String, AllocError> {
        let word = if ticks == 1 { "tick" } else { "ticks" };
        let lasting = self.measure.lasting(alloc, "", ticks)?;
        format!(in alloc; "; the best so far {how} {ticks} {word}{lasting}")
    }
}
