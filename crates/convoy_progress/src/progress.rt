//! How far a long search has come, told on standard error, and when its time is over.

use super::kept_measure::KeptMeasure;
use super::pace::Pace;
use super::placing::Placing;
use convoy_arguments::Verdict;
use convoy_best_plan::{PlanWatch, Stage};
use convoy_commands::{Bounds, Gate, Watch};
use convoy_task_list::Task;
use convoy_times::Measure;
use std::alloc::{AllocError, Global};
use std::io::{Stderr, Write};
use std::sync::atomic::{AtomicBool, AtomicU32, AtomicU64, Ordering};
use std::time::Clock;

/// How many branches a worker takes up between two looks at the clock, where they are quick, less 1.
const FEW: u64 = 1_023;

/// Where progress is told.
#[derive(Clone, Copy, PartialEq, Eq)]
pub enum Screen {
    /// Nowhere.
    Off,
    /// On a terminal, each line in the place of the last one.
    Terminal,
    /// Line by line.
    Stream,
}

/// Where progress is told, by what the command line asks for, and by whether standard error is a terminal. Of
/// a batch nothing is told: its blocks show how far it is, and as a table it is written at its end.
pub fn screen_for(verdict: &Verdict, is_terminal: bool) -> Screen {
    match verdict {
        Verdict::Batch { .. }
        | Verdict::Ask {
            task: Task::BatchTable { .. },
            ..
        } => Screen::Off,
        Verdict::Ask { manner, .. } if !manner.is_quiet => {
            if is_terminal {
                Screen::Terminal
            } else if manner.tells_progress {
                Screen::Stream
            } else {
                Screen::Off
            }
        }
        _ => Screen::Off,
    }
}

/// What the progresses of all searches share: how far the search over placements has come in which they are, and the table of
/// which they make the rows, where several are made at a time.
#[derive(Drop)]
pub struct Together {
    placing: Placing,
    /// It began with the first search.
    pace: Pace,
    /// How many searches have ended.
    ended: AtomicU64,
    /// Whether a line was told.
    told: AtomicBool,
}

impl Together {
    /// No search has begun.
    pub fn new() -> Together {
        Together {
            placing: Placing::new(),
            pace: Pace::new(),
            ended: AtomicU64::new(0),
            told: AtomicBool::new(false),
        }
    }
}

/// Tells on standard error how far a search has come, once a second, and tells the search when its time is over. Where
/// several rows of a table are made at a time, how many searches have ended is told in its place; and while placements are
/// searched, how many of them are passed.
#[derive(Drop)]
pub struct Progress<'a, R> {
    rt: &'a R,
    alloc: Global,
    stderr: Stderr,
    screen: Screen,
    /// What it shares with others.
    together: &'a Together,
    /// Whether one row is made at a time.
    is_alone: bool,
    /// Whether the search goes by stamp bounds.
    by_stamps: AtomicBool,
    /// Whether it goes by leads.
    by_leads: AtomicBool,
    pace: Pace,
    /// When the time of the search is over, or the greatest number where none stops it.
    deadline: AtomicU64,
    /// Whether the search was told that its time is over.
    over: AtomicBool,
    /// Whether some search was told so, and was left open.
    stopped: AtomicBool,
    /// How many branches were taken up, as far as they are counted.
    spent: AtomicU64,
    limit: AtomicU64,
    measure: KeptMeasure,
    least: AtomicU32,
    /// The greatest number where no bound is known.
    most: AtomicU32,
    /// Whether a line was told of this search.
    told: AtomicBool,
}

impl<'a, R: Clock> Progress<'a, R> {
    /// Progress of a search on that screen, together with others, unless it is alone.
    pub fn new(
        rt: &'a R,
        alloc: Global,
        stderr: Stderr,
        screen: Screen,
        together: &'a Together,
        is_alone: bool,
    ) -> Progress<'a, R> {
        Progress {
            rt,
            alloc,
            stderr,
            screen,
            together,
            is_alone,
            by_stamps: AtomicBool::new(false),
            by_leads: AtomicBool::new(false),
            pace: Pace::new(),
            deadline: AtomicU64::new(u64::MAX),
            over: AtomicBool::new(false),
            stopped: AtomicBool::new(false),
            spent: AtomicU64::new(0),
            limit: AtomicU64::new(0),
            measure: KeptMeasure::new(),
            least: AtomicU32::new(0),
            most: AtomicU32::new(0),
            told: AtomicBool::new(false),
        }
    }

    /// Whether some search was left open that was told that its time is over.
    pub fn is_stopped(&self) -> bool {
        self.stopped.load(Ordering::Relaxed)
    }

    /// The clock in milliseconds, or 0 where there is none: then no time is ever over.
    fn now(&self) -> u64 {
        match self.rt.monotonic() {
            Ok(time) => u64::try_from(time.as_millis()).unwrap_or(u64::MAX),
            Err(_) => 0,
        }
    }

    /// Begins to count anew, for a search by those bounds.
    fn start(&self, bounds: Bounds, limit: u64, least: u32, most: u32) {
        self.pace.begin(self.now());
        self.by_stamps
            .store(bounds == Bounds::Stamp, Ordering::Relaxed);
        self.by_leads
            .store(bounds == Bounds::Lead, Ordering::Relaxed);
        self.spent.store(0, Ordering::Relaxed);
        self.limit.store(limit, Ordering::Relaxed);
        self.least.store(least, Ordering::Relaxed);
        self.most.store(most, Ordering::Relaxed);
    }

    /// Of how many branches of a worker one is counted, less 1: one less than a power of two.
    fn skipped(&self) -> u64 {
        if self.by_leads.load(Ordering::Relaxed) {
            0
        } else {
            FEW
        }
    }

    /// By what the search goes, in words.
    fn way(&self) -> &'static str {
        if self.by_leads.load(Ordering::Relaxed) {
            "by leads"
        } else if self.by_stamps.load(Ordering::Relaxed) {
            "by stamp bounds"
        } else {
            "by plain bounds"
        }
    }

    /// Writes a line where one is due.
    fn tell(&self, spent: u64) {
        let now = self.now();
        if self.together.placing.is_under_way() {
            self.tell_placing(now);
            return;
        }
        if !self.is_alone {
            self.tell_together(now);
            return;
        }
        if self.pace.is_due(now) {
            self.told.store(true, Ordering::Relaxed);
            self.write(self.line(spent, now));
        }
    }

    /// Writes a line on all rows where one is due.
    fn tell_together(&self, now: u64) {
        if self.together.pace.is_due(now) {
            self.together.told.store(true, Ordering::SeqCst);
            self.write(self.line_together(now));
        }
    }

    /// Writes a line on placements where one is due.
    fn tell_placing(&self, now: u64) {
        if self.together.placing.is_due(now) {
            self.write(self.together.placing.line(self.alloc, now));
        }
    }

    /// Writes a line, if there is memory for it.
    fn write(&self, line: Result<String, AllocError>) {
        if let Ok(line) = line {
            let written = match self.screen {
                Screen::Terminal => format!(in self.alloc; "\r{line}\x1b[K"),
                Screen::Stream | Screen::Off => format!(in self.alloc; "{line}\n"),
            };
            if let Ok(text) = written {
                let _ = (&self.stderr).write_all(text.as_bytes());
            }
        }
    }

    /// What is told of all rows at that time.
    fn line_together(&self, now: u64) -> Result<String, AllocError> {
        let ended = self.together.ended.load(Ordering::SeqCst);
        let seconds = self.together.pace.passed(now) / 1_000;
        let searches = if ended == 1 {
            "search has"
        } else {
            "searches have"
        };
        format!(in self.alloc; "{ended} {searches} ended in {seconds} s")
    }

    /// Ends the line that was told of all rows, if one was, where the next one would stand in its place.
    pub fn finish(&self) {
        if self.together.told.load(Ordering::SeqCst) {
            self.end_line();
        }
    }

    /// Ends the last line, where the next one would stand in its place.
    fn end_line(&self) {
        if self.screen == Screen::Terminal {
            let _ = (&self.stderr).write_all(b"\n");
        }
    }

    /// What is told after that many branches at that time.
    fn line(&self, spent: u64, now: u64) -> Result<String, AllocError> {
        let limit = self.limit.load(Ordering::Relaxed);
        let least = self.least.load(Ordering::Relaxed);
        let most = self.most.load(Ordering::Relaxed);
        let rate = spent.saturating_mul(1_000) / self.pace.passed(now).max(1);
        let spent = spent.min(limit);
        let tickets = if limit == 1 { "ticket" } else { "tickets" };
        let way = self.way();
        if most == u32::MAX {
            let ticks = if least == 1 { "tick" } else { "ticks" };
            let lasting = self.measure.lasting(self.alloc, "", least)?;
            return format!(in self.alloc;
                "{spent} of {limit} {tickets} {way}, {rate} a second; at least {least} {ticks}{lasting}"
            );
        }
        let lasting = self.measure.lasting(self.alloc, "at most ", most)?;
        format!(in self.alloc;
            "{spent} of {limit} {tickets} {way}, {rate} a second; between {least} and {most} ticks{lasting}"
        )
    }
}

/// The progresses of so many searches at a time, where there are several: as many of them as there is memory for.
pub fn several_for<'a, R: Clock>(
    rt: &'a R,
    alloc: Global,
    stderr: Stderr,
    screen: Screen,
    together: &'a Together,
    jobs: u32,
) -> Vec<Progress<'a, R>> {
    let mut several = Vec::new(alloc);
    if jobs < 2 {
        return several;
    }
    for _ in 0..jobs {
        let progress = Progress::new(rt, alloc, stderr, screen, together, false);
        if several.push(progress).is_err() {
            break;
        }
    }
    several
}

impl<'a, R: Clock> Gate for Progress<'a, R> {
    fn before_branch(&self, worker: u32, nth: u64) {
        let skipped = self.skipped();
        if self.screen == Screen::Off || nth & skipped != 0 {
            return;
        }
        let counted = skipped.saturating_add(1);
        let spent = self.spent.fetch_add(counted, Ordering::Relaxed);
        if worker == 0 {
            self.tell(spent.saturating_add(counted));
        }
    }

    fn is_over(&self) -> bool {
        let is_over = self.now() >= self.deadline.load(Ordering::Relaxed);
        if is_over {
            self.over.store(true, Ordering::Relaxed);
        }
        is_over
    }

    fn begins_anew(&self, bounds: Bounds, limit: u64, least: u32, most: u32) {
        self.start(bounds, limit, least, most);
    }
}

impl<'a, R: Clock> Watch for Progress<'a, R> {
    fn starts(&self, seconds: Option<u32>) {
        let deadline = match seconds {
            Some(seconds) => self
                .now()
                .saturating_add(u64::from(seconds).saturating_mul(1_000)),
            None => u64::MAX,
        };
        self.deadline.store(deadline, Ordering::Relaxed);
        self.over.store(false, Ordering::Relaxed);
    }

    fn begins(
        &self,
        measure: Option<Measure>,
        bounds: Bounds,
        limit: u64,
        least: u32,
        most: Option<u32>,
    ) {
        self.measure.keep(measure);
        self.together.pace.begin_once(self.now());
        self.start(bounds, limit, least, most.unwrap_or(u32::MAX));
    }

    fn ends(&self, is_open: bool) {
        if is_open && self.over.load(Ordering::Relaxed) {
            self.stopped.store(true, Ordering::Relaxed);
        }
        self.together.ended.fetch_add(1, Ordering::SeqCst);
        if self.told.swap(false, Ordering::Relaxed) {
            self.end_line();
        }
    }
}

impl<'a, R: Clock> PlanWatch for Progress<'a, R> {
    fn begins_placing(&self, stage: Stage, placements: u64) {
        self.together.placing.begin(self.now(), stage, placements);
    }

    fn passes(&self, placements: u64) {
        self.together.placing.pass(placements);
        if self.screen != Screen::Off {
            self.tell_placing(self.now());
        }
    }

    fn chooses(&self, measure: Option<Measure>, latency: u32, deadline: Option<u32>) {
        self.together.placing.choose(measure, latency, deadline);
    }

    fn ends_placing(&self) {
        if self.together.placing.end() {
            self.end_line();
            self.together.told.store(false, Ordering::SeqCst);
        }
        self.together.pace.put_off(self.now());
    }
}
