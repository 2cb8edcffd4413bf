//! The values that a setting gives its key.

ghost use Rattle.std.specs.Prelude.{◌≡◌, ◌≤◌, ◌<◌, IfOk};
ghost use Rattle.convoy_toml.specs.Times.{ticks_in};
ghost use Rattle.convoy_sweep.specs.Values.{IsRange, given_at, given_count, givens, is_issue, lasting_ticks, need, need_reading, range_between, range_in, range_of, ticks_beside, value_at, within_last};
ghost use Rattle.convoy_sweep.specs.declared.kinds.TheConstants.{MOST_ROWS};

use super::fault::SettingFault;
use super::keys::readings;
use super::kinds::{Given, LAST_TICK, MOST_ROWS, Setting, SweepKey, ValueRange};
use convoy_scenario::Duration;
use convoy_toml::{WrittenScenario, WrittenTime};
use std::alloc::{AllocError, Global};

/// The number of ticks, unless it is too great.
fn within_last(ticks: i64) -> Result<u32, SettingFault>
    ensures { result ≡ within_last ticks }
{
    if 0 <= ticks && ticks <= i64::from(LAST_TICK) {
        Ok(ticks as u32)
    } else {
        Err(SettingFault::TooLate)
    }
}

/// How many ticks of so many nanoseconds a duration takes, if that is a whole number.
fn ticks_in(tick: u64, duration: Duration) -> Option<i64>
    ensures { result ≡ ticks_in tick duration }
{
    let length = duration.nanoseconds();
    if length.is_multiple_of(tick) {
        Some(length.checked_div(tick).unwrap_or(0) as i64)
    } else {
        None
    }
}

/// A duration in ticks of that length, of which it has to be a whole number.
fn lasting_ticks(tick: Option<u64>, duration: Duration) -> Result<u32, SettingFault>
    ensures { result ≡ lasting_ticks tick duration }
{
    let Some(tick) = tick else {
        return Err(SettingFault::Mixed);
    };
    match ticks_in(tick, duration) {
        Some(ticks) => within_last(ticks),
        None => Err(SettingFault::NotWhole),
    }
}

/// The ticks of a time that is given beside a text whose ticks have that length, be it written or not.
fn ticks_beside(is_written: bool, tick: Option<u64>, time: WrittenTime) -> Result<u32, SettingFault>
    ensures { result ≡ ticks_beside is_written tick time }
{
    match time {
        WrittenTime::Count(ticks) => {
            if tick.is_some() && !is_written {
                return Err(SettingFault::Mixed);
            }
            within_last(ticks)
        }
        WrittenTime::Lasting(duration) => lasting_ticks(tick, duration),
    }
}

/// A rule that does not hold is a fault.
fn need(holds: bool, fault: SettingFault) -> Result<(), SettingFault>
    ensures { result ≡ need holds fault }
{
    if holds { Ok(()) } else { Err(fault) }
}

/// The values of a setting: from FROM in steps up to at most TO.
fn range_of(
    is_written: bool,
    tick: Option<u64>,
    setting: &Setting,
) -> Result<ValueRange, SettingFault>
    ensures value { result ≡ range_of is_written tick setting.now }
    ensures lawful { IfOk result IsRange }
{
    let from = ticks_beside(is_written, tick, setting.from)?;
    let to = ticks_beside(is_written, tick, setting.to)?;
    let step = ticks_beside(is_written, tick, setting.step)?;
    need(1 <= step, SettingFault::NoStep)?;
    need(from <= to, SettingFault::Backwards)?;
    range_between(from, to, step)
}

/// The values from one to at most another, in steps.
fn range_between(from: u32, to: u32, step: u32) -> Result<ValueRange, SettingFault>
    requires step { 1 ≤ step }
    requires apart { from ≤ to }
    ensures value { result ≡ range_between from to step }
    ensures lawful { IfOk result IsRange }
{
    let steps = ((to - from) / step) as usize;
    need(steps < MOST_ROWS, SettingFault::TooMany)?;
    Ok(ValueRange { from, step, steps })
}

/// The value after so many steps.
fn value_at(range: ValueRange, place: usize) -> u32
    requires lawful { IsRange range }
    requires within { place ≤ range.steps }
    ensures { result ≡ value_at range place }
{
    range.from + place as u32 * range.step
}

/// A value by itself, or with the next one as the ends of a window.
fn given_at(envelope: bool, range: ValueRange, place: usize) -> Given
    requires lawful { IsRange range }
    requires within { place < given_count envelope range }
    ensures { result ≡ given_at envelope range place }
{
    Given {
        value: value_at(range, place),
        last: if envelope {
            Some(value_at(range, place + 1))
        } else {
            None
        },
    }
}

/// How many of them there are.
pub(crate) fn given_count(envelope: bool, range: ValueRange) -> usize
    requires { range.steps < MOST_ROWS }
    ensures { result ≡ given_count envelope range }
{
    if envelope {
        range.steps
    } else {
        range.steps + 1
    }
}

/// What a key is given, one after the other: the values, or the windows between them. Fails where memory runs out, and else
/// never.
pub(crate) fn givens(
    alloc: Global,
    envelope: bool,
    range: ValueRange,
) -> Result<Vec<Given>, AllocError>
    requires { IsRange range }
    ensures { IfOk result (λ given. given.items ≡ givens envelope range) }
{
    let mut givens = Vec::new(alloc);
    for place in 0..given_count(envelope, range) {
        givens.push(given_at(envelope, range, place))?;
    }
    Ok(givens)
}

/// A key that a text has, in one table.
fn need_reading(count: usize) -> Result<(), SettingFault>
    ensures { result ≡ need_reading count }
{
    match count {
        0 => Err(SettingFault::Unknown),
        1 => Ok(()),
        _ => Err(SettingFault::Ambiguous),
    }
}

/// Whether the key is a time of issue, which may be a window.
fn is_issue(key: &SweepKey) -> bool
    ensures { result ≡ is_issue key.now }
{
    matches!(key, SweepKey::At(_))
}

/// The values that a setting gives its key in a text, whose ticks have that length: one at least, or two where windows
/// between them are asked for.
pub(crate) fn range_in(
    written: &WrittenScenario,
    tick: Option<u64>,
    envelope: bool,
    setting: &Setting,
) -> Result<ValueRange, SettingFault>
    ensures value { result ≡ range_in written.now tick envelope setting.now }
    ensures lawful { IfOk result IsRange }
{
    need_reading(readings(written, &setting.key))?;
    need(!envelope || is_issue(&setting.key), SettingFault::NoWindow)?;
    let range = range_of(written.tick.is_some(), tick, setting)?;
    need(1 <= given_count(envelope, range), SettingFault::NoInterval)?;
    Ok(range)
}
