use super::mark::issue_tick;
use super::sheet::{LEFT, RIGHT};
use crate::Picture;
use convoy_scenario::lookup::window;
use convoy_scenario::{Scenario, Time};
use std::alloc::{AllocError, Global};

/// How many ticks without anything under way are not cut out.
const LONGEST_IDLE: u32 = 4;

/// In real time, time without anything under way is not cut out either where it is at most one of so many
/// parts of the time in which something is.
const IDLE_PARTS: u32 = 16;

/// How wide a cut is drawn at most; all cuts together take half of the width at most.
const WIDEST_CUT: u32 = 500;

/// How wide a tick is drawn at most.
const WIDEST_TICK: u32 = 700;

/// How wide a tick is at least where all are equally wide, as in whole ticks they always are. Narrower ones
/// fill the lanes, so that one may be wider by 1 than the next.
const NARROWEST_TICK: u32 = 7;

/// How far apart two messages are drawn in one tick at most.
const WIDEST_SHIFT: u32 = 60;

/// Ticks in which something is under way, with no idle time to be cut between them.
#[derive(Clone, Copy)]
pub struct Stretch {
    pub first: u32,
    pub last: u32,
    /// Where its first tick stands.
    pub left: u32,
}

/// Where ticks stand across the sheet: those of idle time are cut out.
#[derive(Drop)]
pub struct Scale {
    stretches: Vec<Stretch>,
    /// How many ticks the stretches have together.
    ticks: u32,
    /// How wide these are together.
    width: u32,
    /// The ticks in which something happens, in order.
    moments: Vec<u32>,
    time: Time,
    /// How many messages have room side by side in a tick.
    messages: u32,
}

impl Scale {
    /// The scale of a picture, across the whole width for lanes.
    pub(crate) fn of(
        alloc: Global,
        scenario: &Scenario,
        picture: &Picture,
    ) -> Result<Scale, AllocError> {
        let spans = busy_spans(alloc, scenario, picture)?;
        let busy = ticks_of(&busy_stretches(alloc, &spans, 0)?);
        let idle = longest_idle(scenario.time(), busy);
        let stretches = busy_stretches(alloc, &spans, idle)?;
        let ticks = ticks_of(&stretches).max(1);
        let cut = cut_width(stretches.len());
        let mut scale = Scale {
            width: width_of_ticks(ticks, room_beside_cuts(stretches.len(), cut)),
            stretches,
            ticks,
            moments: moments_of(alloc, &spans)?,
            time: scenario.time(),
            messages: u32::try_from(scenario.message_count()).unwrap_or(1),
        };
        scale.lay_out(cut);
        Ok(scale)
    }

    /// Gives each stretch its place, one after the other, with cuts of that width between them.
    fn lay_out(&mut self, cut: u32) {
        let (width, all) = (self.width, self.ticks);
        let mut left = LEFT;
        for stretch in &mut self.stretches {
            let ticks = stretch.last.saturating_sub(stretch.first);
            stretch.left = left;
            left = left
                .saturating_add(part_of(width, ticks, all))
                .saturating_add(cut);
        }
    }

    /// The stretches, from left to right.
    pub fn stretches(&self) -> &[Stretch] {
        self.stretches.as_slice()
    }

    /// How wide so many ticks are.
    pub fn width_of(&self, ticks: u32) -> u32 {
        part_of(self.width, ticks, self.ticks)
    }

    /// How wide so long a time is, of which a tick has that many parts.
    pub(crate) fn width_of_part(&self, long: u64, tick: u64) -> u32 {
        let (tick, width) = (tick.max(1), u64::from(self.width));
        let whole = width.saturating_mul(long / tick);
        let rest = width.saturating_mul(long % tick) / tick;
        let wide = whole.saturating_add(rest) / u64::from(self.ticks.max(1));
        u32::try_from(wide).unwrap_or(u32::MAX)
    }

    /// The last tick of all; 0 where there is none.
    pub(crate) fn last(&self) -> u32 {
        match self.stretches.last() {
            Some(stretch) => stretch.last,
            None => 0,
        }
    }

    /// Where a stretch ends.
    pub fn right_of(&self, stretch: &Stretch) -> u32 {
        self.after(stretch, stretch.last)
    }

    /// Where a tick stands; the end of the sheet's lanes for one that is in no stretch.
    pub fn x_of(&self, tick: u32) -> u32 {
        for stretch in &self.stretches {
            if stretch.first <= tick && tick <= stretch.last {
                return self.after(stretch, tick);
            }
        }
        RIGHT
    }

    /// Where a tick of a stretch stands.
    fn after(&self, stretch: &Stretch, tick: u32) -> u32 {
        let ticks = tick.saturating_sub(stretch.first);
        stretch.left.saturating_add(self.width_of(ticks))
    }

    /// Where a message stands in a tick: what happens in one tick goes by the numbers of the messages.
    pub fn place(&self, tick: u32, message: usize) -> u32 {
        let number = u32::try_from(message).unwrap_or(0);
        let shift = (self.room_at(tick) / 2 / self.messages.max(1)).min(WIDEST_SHIFT);
        self.x_of(tick).saturating_add(number.saturating_mul(shift))
    }

    /// How much room there is for what happens in a tick: all of a whole tick, and in real time what
    /// there is up to the next tick in which something happens.
    fn room_at(&self, tick: u32) -> u32 {
        match self.time {
            Time::Ticks => self.width_of(1),
            Time::Real => match self.moments.iter().find(|moment| **moment > tick) {
                Some(next) => self.x_of(*next).saturating_sub(self.x_of(tick)),
                None => WIDEST_TICK,
            },
        }
    }
}

/// How wide some of all ticks are, which are that wide together.
fn part_of(width: u32, some: u32, all: u32) -> u32 {
    let wide = u64::from(width).saturating_mul(u64::from(some)) / u64::from(all.max(1));
    u32::try_from(wide).unwrap_or(u32::MAX)
}

/// How many ticks without anything under way are not cut out, where something is under way in so many.
fn longest_idle(time: Time, busy: u32) -> u32 {
    match time {
        Time::Ticks => LONGEST_IDLE,
        Time::Real => (busy / IDLE_PARTS).max(LONGEST_IDLE),
    }
}

/// How many ticks the stretches have together.
fn ticks_of(stretches: &[Stretch]) -> u32 {
    let mut ticks: u32 = 0;
    for stretch in stretches {
        ticks = ticks.saturating_add(stretch.last.saturating_sub(stretch.first));
    }
    ticks
}

/// The first and the last ticks of these spans, in order.
fn moments_of(alloc: Global, spans: &[(u32, u32)]) -> Result<Vec<u32>, AllocError> {
    let mut moments = Vec::new(alloc);
    for (first, last) in spans {
        moments.push(*first)?;
        moments.push(*last)?;
    }
    moments.sort()?;
    Ok(moments)
}

/// From when to when something is under way, in the order of their first ticks: each packet, and each
/// message as it is issued, and at the first and the last tick at which it may be.
fn busy_spans(
    alloc: Global,
    scenario: &Scenario,
    picture: &Picture,
) -> Result<Vec<(u32, u32)>, AllocError> {
    let mut spans = flight_spans(alloc, picture)?;
    for message in 0..scenario.message_count() {
        let (first, last) = window(scenario, message);
        for tick in [first, issue_tick(picture, message), last] {
            spans.push((tick, tick))?;
        }
    }
    spans.sort()?;
    Ok(spans)
}

/// From when to when each packet is under way.
fn flight_spans(alloc: Global, picture: &Picture) -> Result<Vec<(u32, u32)>, AllocError> {
    let mut spans = Vec::new(alloc);
    for flight in picture.flights() {
        spans.push((flight.sent, flight.arrival))?;
    }
    Ok(spans)
}

/// The stretches of these spans, with no places yet: what is so long idle at most is no end of one.
fn busy_stretches(
    alloc: Global,
    spans: &[(u32, u32)],
    idle: u32,
) -> Result<Vec<Stretch>, AllocError> {
    let mut stretches: Vec<Stretch> = Vec::new(alloc);
    for (first, last) in spans {
        if !is_longer(&mut stretches, *first, *last, idle) {
            stretches.push(Stretch {
                first: *first,
                last: *last,
                left: LEFT,
            })?;
        }
    }
    Ok(stretches)
}

/// Makes the last stretch longer by a span that begins soon enough for that, and answers whether it does.
fn is_longer(stretches: &mut [Stretch], first: u32, last: u32, idle: u32) -> bool {
    match stretches.last_mut() {
        Some(stretch) if first <= stretch.last.saturating_add(idle) => {
            stretch.last = stretch.last.max(last);
            true
        }
        _ => false,
    }
}

/// How many cuts there are between so many stretches.
fn cuts_between(stretches: usize) -> u32 {
    u32::try_from(stretches.saturating_sub(1)).unwrap_or(u32::MAX)
}

/// How wide a cut is between so many stretches.
fn cut_width(stretches: usize) -> u32 {
    ((RIGHT - LEFT) / 2 / cuts_between(stretches).max(1)).min(WIDEST_CUT)
}

/// How much of the width for lanes so many stretches have, with cuts of that width between them.
fn room_beside_cuts(stretches: usize, cut: u32) -> u32 {
    (RIGHT - LEFT).saturating_sub(cuts_between(stretches).saturating_mul(cut))
}

/// How wide so many ticks are together, so that they fill that room with the cuts between them.
fn width_of_ticks(ticks: u32, room: u32) -> u32 {
    let tick = (room / ticks.max(1)).min(WIDEST_TICK);
    if tick >= NARROWEST_TICK {
        ticks.saturating_mul(tick)
    } else {
        room
    }
}
