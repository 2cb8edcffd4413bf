use super::quoting::Quoted;
use convoy_scenario::{Duration, LONGEST_DURATION, TimeUnit};
use convoy_toml::WrittenTime;
use std::alloc::{AllocError, Global};
use std::fmt;

/// A duration as a hint shows it: `1500 us`.
#[derive(Clone, Copy, Drop)]
pub struct Length(pub Duration);

impl fmt::Display for Length {
    fn fmt<W: fmt::Write>(&self, f: &mut fmt::Formatter<W>) -> fmt::Result {
        let (count, unit) = (self.0.count(), self.0.unit().word());
        write!(f, "{count} {unit}")
    }
}

/// A time of a scenario as a hint shows it: `6` ticks, or where the length of a tick is known `6 ms`.
pub fn shown_time(alloc: Global, ticks: i64, tick: Option<Duration>) -> Result<String, AllocError> {
    let Some(tick) = tick else {
        return format!(in alloc; "{ticks}");
    };
    let each = Length(tick);
    match time_after(ticks, tick) {
        Some(time) => shown_length(alloc, time),
        None => format!(in alloc; "{ticks} ticks of {each}"),
    }
}

/// A time as it is written, as a hint shows it.
pub fn shown_written(
    alloc: Global,
    time: WrittenTime,
    tick: Option<Duration>,
) -> Result<String, AllocError> {
    match time {
        WrittenTime::Count(ticks) => shown_time(alloc, ticks, tick),
        WrittenTime::Lasting(duration) => shown_length(alloc, duration),
    }
}

/// A duration, as a hint shows it.
pub(crate) fn shown_length(alloc: Global, duration: Duration) -> Result<String, AllocError> {
    let length = Length(duration);
    format!(in alloc; "{length}")
}

/// How long so many ticks last; None for less than none, and where that is longer than a duration may be.
fn time_after(ticks: i64, tick: Duration) -> Option<Duration> {
    let ticks = u64::try_from(ticks).ok()?;
    Duration::from_nanoseconds(ticks.checked_mul(tick.nanoseconds())?)
}

/// What a duration is.
const RULE: &str =
    "a duration is a number and one of the units s, ms, us and ns, as \"80 ms\" or \"0.35 ms\"";

/// What is wrong with a text that is no duration, where one stands: which text, and why it is none.
pub(crate) fn hint_for_duration(
    alloc: Global,
    key: &str,
    part: &impl fmt::Display,
    text: &str,
) -> Result<String, AllocError> {
    let (shown, flaw) = (Quoted(text), flaw_of(text));
    format!(in alloc; "'{key}' in {part} is {shown}, which {flaw}: {RULE}")
}

/// Why a text is no duration.
fn flaw_of(text: &str) -> &'static str {
    let unit = unit_in(text);
    match text.as_bytes().first() {
        None => "is empty",
        Some(b'-') => "is negative",
        Some(byte) if !byte.is_ascii_digit() => "does not begin with a digit",
        Some(_) if text.contains(',') => "has a comma, where decimals follow a point",
        Some(_) if unit.is_empty() => "has no unit",
        Some(_) if begins_with_micro(unit) => "has the micro sign, which is written u here",
        Some(_) => match TimeUnit::named(unit.as_bytes()) {
            None => "has another unit",
            Some(unit) if is_too_long(text, unit) => "is longer than 1000000 s",
            Some(_) if text.contains('.') => "is no whole number of nanoseconds",
            Some(_) => "is of another form",
        },
    }
}

const _: () = prove!(LONGEST_DURATION == 1_000_000_000_000_000);

/// Whether a unit begins with the micro sign, or with the letter mu of Greek.
fn begins_with_micro(unit: &str) -> bool {
    unit.starts_with('\u{b5}') || unit.starts_with('\u{3bc}')
}

/// What follows the digits and points at the head of a text, without spaces around it.
fn unit_in(text: &str) -> &str {
    let end = number_end(text, true);
    text.get(end..).unwrap_or("").trim()
}

/// How many digits stand at the head of a text; points among them count too if it `has_points`.
fn number_end(text: &str, has_points: bool) -> usize {
    for (place, byte) in text.bytes().enumerate() {
        let is_point = has_points && byte == b'.';
        if !byte.is_ascii_digit() && !is_point {
            return place;
        }
    }
    text.len()
}

/// Whether the digits at the head of a text are too many of the unit.
fn is_too_long(text: &str, unit: TimeUnit) -> bool {
    let end = number_end(text, false);
    match text.get(..end).unwrap_or("").parse::<u64>() {
        Ok(count) => count.saturating_mul(unit.nanoseconds()) > LONGEST_DURATION,
        Err(_) => true,
    }
}
