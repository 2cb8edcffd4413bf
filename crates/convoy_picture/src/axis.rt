use super::scale::{Scale, Stretch};
use super::widths::width_of;
use convoy_scenario::AllocResult;
use convoy_times::Measure;
use std::alloc::Global;

/// How far two numbers on the axis are from one another at least.
const GAP: u32 = 70;

/// How far two lines down the lanes are from one another at least.
const NEAREST: u32 = 300;

/// How many digits a step has at most.
const MOST_DIGITS: u32 = 19;

/// How many digits a number may have after the point.
const MOST_DECIMALS: u32 = 9;

/// A number on the axis.
#[derive(Drop)]
pub struct Numeral {
    /// Where it stands, from the left.
    pub across: u32,
    pub text: String,
}

/// The numbers that stand along the lanes: times, or where the length of a tick is not known ticks.
#[derive(Drop)]
pub struct Axis {
    /// What they count.
    pub word: &'static str,
    numerals: Vec<Numeral>,
}

impl Axis {
    /// The axis of a scale: the multiples of a step, as many as have room.
    pub(crate) fn of(alloc: Global, scale: &Scale, measure: Option<Measure>) -> AllocResult<Axis> {
        let count = Count::of(measure);
        let step = step_of(alloc, scale, count)?;
        let mut axis = Axis {
            word: count.word,
            numerals: Vec::new(alloc),
        };
        for stretch in scale.stretches() {
            axis.push_multiples(alloc, scale, count, stretch, step)?;
        }
        Ok(axis)
    }

    /// The numbers, from left to right.
    pub fn numerals(&self) -> &[Numeral] {
        self.numerals.as_slice()
    }

    /// The multiples of a step in a stretch; of a stretch without one its first tick.
    fn push_multiples(
        &mut self,
        alloc: Global,
        scale: &Scale,
        count: Count,
        stretch: &Stretch,
        step: u64,
    ) -> AllocResult<()> {
        let (first, step) = (count.at(stretch.first), step.max(1));
        let (least, most) = (first.div_ceil(step), count.at(stretch.last) / step);
        if least > most {
            return self.push(alloc, stretch.left, count, first);
        }
        for steps in least..=most {
            let value = steps.saturating_mul(step);
            let after = count.width(scale, value.saturating_sub(first));
            self.push(alloc, stretch.left.saturating_add(after), count, value)?;
        }
        Ok(())
    }

    /// A number, where it has room beside the one before it.
    fn push(&mut self, alloc: Global, across: u32, count: Count, value: u64) -> AllocResult<()> {
        let text = count.text(alloc, value)?;
        let reach = width_of(&text) / 2;
        if across.saturating_sub(reach) < self.free() {
            return Ok(());
        }
        Ok(self.numerals.push(Numeral { across, text })?)
    }

    /// From where on a further number has room.
    fn free(&self) -> u32 {
        match self.numerals.last() {
            Some(last) => last
                .across
                .saturating_add(width_of(&last.text) / 2)
                .saturating_add(GAP),
            None => 0,
        }
    }
}

/// What the numbers on the axis count, in nanoseconds, or in ticks where their length is not known.
#[derive(Clone, Copy)]
struct Count {
    /// How long a tick is.
    tick: u64,
    /// How long one is of what they count.
    one: u64,
    word: &'static str,
}

impl Count {
    /// The unit of a measure, or ticks.
    fn of(measure: Option<Measure>) -> Count {
        match measure {
            Some(measure) => Count {
                tick: measure.tick.nanoseconds(),
                one: measure.unit.nanoseconds(),
                word: measure.unit.word(),
            },
            None => Count {
                tick: 1,
                one: 1,
                word: "tick",
            },
        }
    }

    /// How long it is to a tick.
    fn at(self, tick: u32) -> u64 {
        self.tick.saturating_mul(u64::from(tick))
    }

    /// How wide so long a time is.
    fn width(self, scale: &Scale, long: u64) -> u32 {
        scale.width_of_part(long, self.tick)
    }

    /// How often the unit goes into so long a time, as a number with the digits after the point that it needs.
    fn text(self, alloc: Global, long: u64) -> AllocResult<String> {
        let one = self.one.max(1);
        let (whole, mut rest) = (long / one, long % one);
        let point = if rest > 0 { "." } else { "" };
        let mut text = format!(in alloc; "{whole}{point}")?;
        for _ in 0..MOST_DECIMALS {
            if rest > 0 {
                rest = rest.saturating_mul(10);
                let digit = rest / one;
                write!(text, "{digit}")?;
                rest %= one;
            }
        }
        Ok(text)
    }
}

/// The least step of at least a tick whose multiples have room: once, twice or five times a power of ten.
fn step_of(alloc: Global, scale: &Scale, count: Count) -> AllocResult<u64> {
    let mut power: u64 = 1;
    for _ in 1..MOST_DIGITS {
        if let Some(step) = step_from(alloc, scale, count, power)? {
            return Ok(step);
        }
        power = power.saturating_mul(10);
    }
    Ok(power)
}

/// The least of once, twice and five times a power of ten whose multiples have room, if one of these is such a step.
fn step_from(alloc: Global, scale: &Scale, count: Count, power: u64) -> AllocResult<Option<u64>> {
    for factor in [1, 2, 5] {
        let step = power.saturating_mul(factor);
        if has_room(alloc, scale, count, step)? {
            return Ok(Some(step));
        }
    }
    Ok(None)
}

/// Whether a step is at least a tick, and its multiples have room.
fn has_room(alloc: Global, scale: &Scale, count: Count, step: u64) -> AllocResult<bool> {
    let one = count.one.max(1);
    let last = count.at(scale.last()) / one;
    let widest = count.text(alloc, last.saturating_mul(one).saturating_add(step % one))?;
    let room = width_of(&widest).saturating_add(GAP).max(NEAREST);
    Ok(step >= count.tick && count.width(scale, step) >= room)
}
