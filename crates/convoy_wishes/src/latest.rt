use super::event::{EVENTS, Event, Gap};
use std::alloc::{AllocError, Global};

/// A tick for each event, by its place.
pub(crate) type EventTicks = [i64; EVENTS];

/// A tick after all others.
const NEVER: i64 = 1 << 40;

/// How often at most an event passes its tick on before a wish is given up.
const MOST_STEPS: usize = 4_096;

/// A gap that is kept, with the number of the one before it that has the same later event.
#[derive(Clone, Copy)]
struct Kept {
    gap: Gap,
    other: Option<usize>,
}

/// Wishes that are kept, one after the other, each where ticks are left that keep it with all before it; and
/// the latest such tick of each event. A wish is one gap or several, which are kept together or not at all.
#[derive(Drop)]
pub(crate) struct Latest {
    ticks: EventTicks,
    kept: Vec<Kept>,
    /// For each event, by its place, the number of the last gap of which it is the later event.
    last: [Option<usize>; EVENTS],
    /// The events whose ticks fell, and have been or are to be passed on.
    fallen: Vec<Event>,
    /// Whether an event, by its place, is to be passed on.
    waits: [bool; EVENTS],
    /// How many gaps, and which ticks, there were before the wish that is being told.
    before: Mark,
}

/// Where the keeping of wishes stood, to come back to.
#[derive(Clone, Copy)]
pub(crate) struct Mark {
    count: usize,
    ticks: EventTicks,
}

impl Latest {
    /// No wish, and no event but the start of time at any tick that is known.
    pub(crate) fn new(alloc: Global) -> Latest {
        let mut ticks = [NEVER; EVENTS];
        ticks[0] = 0;
        Latest {
            ticks,
            kept: Vec::new(alloc),
            last: [None; EVENTS],
            fallen: Vec::new(alloc),
            waits: [false; EVENTS],
            before: Mark { count: 0, ticks },
        }
    }

    /// The latest tick of each event.
    pub(crate) fn ticks(&self) -> &EventTicks {
        &self.ticks
    }

    /// The latest tick of an event.
    fn tick(&self, event: Event) -> i64 {
        let ticks = &self.ticks;
        ticks[event.place()]
    }

    /// Adds a gap to the wish that is being told. The error is that memory ran out.
    pub(crate) fn add(&mut self, gap: Gap) -> Result<(), AllocError> {
        let place = gap.later.place();
        let number = self.kept.len();
        let other = self.last[place];
        self.kept.push(Kept { gap, other })?;
        self.last[place] = Some(number);
        let tick = self.tick(gap.later).saturating_sub(gap.ticks);
        self.lower(gap.earlier, tick)
    }

    /// Keeps the wish that was told since the last one, if ticks are left that do; whether there are. The
    /// error is that memory ran out.
    pub(crate) fn keep(&mut self) -> Result<bool, AllocError> {
        let kept = self.settle()?;
        if kept {
            self.before = self.mark();
        } else {
            let before = self.before;
            self.back_to(&before);
        }
        self.fallen.clear();
        self.waits = [false; EVENTS];
        Ok(kept)
    }

    /// Where the keeping of wishes stands.
    pub(crate) fn mark(&self) -> Mark {
        Mark {
            count: self.kept.len(),
            ticks: self.ticks,
        }
    }

    /// Forgets all wishes that were kept since.
    pub(crate) fn back_to(&mut self, mark: &Mark) {
        for _ in mark.count..self.kept.len() {
            if let Some(kept) = self.kept.pop() {
                self.last[kept.gap.later.place()] = kept.other;
            }
        }
        self.ticks = mark.ticks;
        self.before = *mark;
    }

    /// Lets an event come by that tick.
    fn lower(&mut self, event: Event, tick: i64) -> Result<(), AllocError> {
        let place = event.place();
        if tick < self.tick(event) {
            self.ticks[place] = tick;
            if !self.waits[place] {
                self.waits[place] = true;
                self.fallen.push(event)?;
            }
        }
        Ok(())
    }

    /// Passes on what has fallen until nothing more falls; whether the start of time did not.
    fn settle(&mut self) -> Result<bool, AllocError> {
        for step in 0..MOST_STEPS {
            if self.tick(Event::start()) < 0 {
                return Ok(false);
            }
            let Some(event) = self.fallen.get(step).copied() else {
                return Ok(true);
            };
            self.waits[event.place()] = false;
            self.pass_on(event)?;
        }
        Ok(false)
    }

    /// Lets each event come by what an event that has fallen leaves it.
    fn pass_on(&mut self, event: Event) -> Result<(), AllocError> {
        let mut next = self.last[event.place()];
        for _ in 0..self.kept.len() {
            let Some(kept) = next.and_then(|number| self.kept.get(number).copied()) else {
                break;
            };
            let tick = self.tick(event).saturating_sub(kept.gap.ticks);
            self.lower(kept.gap.earlier, tick)?;
            next = kept.other;
        }
        Ok(())
    }

    /// The earliest tick of each event that keeps all wishes.
    pub(crate) fn earliest(&self) -> EventTicks {
        let mut ticks = [0; EVENTS];
        for _ in 0..EVENTS {
            if !self.raise(&mut ticks) {
                break;
            }
        }
        ticks
    }

    /// Raises ticks once by each gap; whether one rose.
    fn raise(&self, ticks: &mut EventTicks) -> bool {
        let mut rose = false;
        for kept in &self.kept {
            let gap = kept.gap;
            let tick = ticks[gap.earlier.place()].saturating_add(gap.ticks);
            if ticks[gap.later.place()] < tick {
                ticks[gap.later.place()] = tick;
                rose = true;
            }
        }
        rose
    }
}
