//! Numbers of an axis.

/// How many numbers stand on an axis at most, but for one.
pub(crate) const MOST_NUMERALS: u32 = 8;

/// How many digits a step has at most.
const MOST_DIGITS: u32 = 19;

/// How many ticks lie between two numbers of an axis over so many ticks, each of so many nanoseconds: a round time where
/// ticks have one, and else a round number of ticks.
pub(crate) fn step_of(tick: u64, ticks: u32) -> u32 {
    match round_step(tick, ticks) {
        Some(step) => step,
        None => round_step(1, ticks).unwrap_or(u32::MAX),
    }
}

/// The least once, twice or five times a power of ten that is a whole number of ticks, and whose multiples have room.
fn round_step(tick: u64, ticks: u32) -> Option<u32> {
    let mut power: u64 = 1;
    for _ in 0..MOST_DIGITS {
        for factor in [1u64, 2, 5] {
            let step = ticks_in(power.saturating_mul(factor), tick);
            if has_room(step, ticks) {
                return Some(step);
            }
        }
        power = power.saturating_mul(10);
    }
    None
}

/// How many ticks a time takes; 0 where that is no whole number, or is too great.
fn ticks_in(time: u64, tick: u64) -> u32 {
    if time.checked_rem(tick) == Some(0) {
        u32::try_from(time.checked_div(tick).unwrap_or(0)).unwrap_or(0)
    } else {
        0
    }
}

/// Whether so many ticks have room for all multiples of a step.
fn has_room(step: u32, ticks: u32) -> bool {
    match ticks.checked_div(step) {
        Some(count) => count <= MOST_NUMERALS,
        None => false,
    }
}
