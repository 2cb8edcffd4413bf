//! Times and durations in a scenario text.

ghost use Rattle.std.specs.Prelude.{◌≡◌};
ghost use Rattle.toml.specs.View.{view, table_view};
ghost use Rattle.convoy_toml.specs.Shape.{as_duration, as_when, as_long, is_below_zero, as_tick, as_least, needs_delay, delay_of_table, need, wish, time_of_table, outage_of_table, unit_in, unit_of_table};

use super::keys::value_at;
use super::written::WrittenTime;
use convoy_scenario::{Duration, Key, ScenarioFault, Time, TimeUnit};
use toml::{Table, Value};

/// How time goes by a scenario's table: in whole ticks where the key is absent.
pub fn time_of_table(table: &Table) -> Result<Time, ScenarioFault>
    ensures { result ≡ time_of_table (table_view table.now) }
{
    let Some(value) = value_at(table, Key::Time) else {
        return Ok(Time::Ticks);
    };
    let word = value.as_str().ok_or(ScenarioFault::Shape(Key::Time))?;
    Time::named(word).ok_or(ScenarioFault::Shape(Key::Time))
}

/// The duration that a text tells, where time is real.
fn duration(value: &Value, time: Time) -> Option<Duration>
    ensures { result ≡ as_duration time (view value.now) }
{
    match time {
        Time::Ticks => None,
        Time::Real => Duration::read(value.as_str()?.as_bytes()),
    }
}

/// A number of ticks, or where time is real a duration.
pub(crate) fn time_written(value: &Value, time: Time) -> Option<WrittenTime>
    ensures { result ≡ as_when time (view value.now) }
{
    match value.as_integer() {
        Some(ticks) => Some(WrittenTime::Count(ticks)),
        None => Some(WrittenTime::Lasting(duration(value, time)?)),
    }
}

/// The time at a key.
pub(crate) fn when(table: &Table, key: Key, time: Time) -> Result<WrittenTime, ScenarioFault>
    ensures { result ≡ need key (as_when time) (table_view table.now) }
{
    let value = value_at(table, key).ok_or(ScenarioFault::Shape(key))?;
    time_written(value, time).ok_or(ScenarioFault::Shape(key))
}

/// The time at a key that may be absent.
pub(crate) fn when_written(
    table: &Table,
    key: Key,
    time: Time,
) -> Result<Option<WrittenTime>, ScenarioFault>
    ensures { result ≡ wish key (as_when time) (table_view table.now) }
{
    let Some(value) = value_at(table, key) else {
        return Ok(None);
    };
    let when = time_written(value, time).ok_or(ScenarioFault::Shape(key))?;
    Ok(Some(when))
}

/// The unit in which a value tells a duration.
fn unit_in(value: &Value) -> Option<TimeUnit>
    ensures { result ≡ unit_in (view value.now) }
{
    TimeUnit::of_text(value.as_str()?.as_bytes())
}

/// The unit in which a table writes D, where it writes that as a duration.
pub fn unit_of_table(table: &Table) -> Option<TimeUnit>
    ensures { result ≡ unit_of_table (table_view table.now) }
{
    match value_at(table, Key::Delay) {
        Some(value) => unit_in(value),
        None => None,
    }
}

/// The length of a tick: a duration above 0, where time is real.
fn tick_written(value: &Value, time: Time) -> Option<Duration>
    ensures { result ≡ as_tick time (view value.now) }
{
    let length = duration(value, time)?;
    if length.nanoseconds() >= 1 {
        Some(length)
    } else {
        None
    }
}

/// The length of a tick, where the key is there.
pub(crate) fn tick_of_table(table: &Table, time: Time) -> Result<Option<Duration>, ScenarioFault>
    ensures { result ≡ wish Key.Tick (as_tick time) (table_view table.now) }
{
    let Some(value) = value_at(table, Key::Tick) else {
        return Ok(None);
    };
    let length = tick_written(value, time).ok_or(ScenarioFault::Shape(Key::Tick))?;
    Ok(Some(length))
}

/// Whether D has to be written: in real time it may be left out where links are written, and no least delay of what
/// goes by none.
fn needs_delay(table: &Table, time: Time) -> bool
    ensures { result ≡ needs_delay time (table_view table.now) }
{
    match time {
        Time::Ticks => true,
        Time::Real => {
            value_at(table, Key::Link).is_none() || value_at(table, Key::Least).is_some()
        }
    }
}

/// D, where it is written.
pub(crate) fn delay_of_table(
    table: &Table,
    time: Time,
) -> Result<Option<WrittenTime>, ScenarioFault>
    ensures { result ≡ delay_of_table time (table_view table.now) }
{
    if needs_delay(table, time) {
        let delay = when(table, Key::Delay, time)?;
        Ok(Some(delay))
    } else {
        when_written(table, Key::Delay, time)
    }
}

/// The least delay of what goes by no link: a time, where time is real.
fn least_written(value: &Value, time: Time) -> Option<WrittenTime>
    ensures { result ≡ as_least time (view value.now) }
{
    match time {
        Time::Ticks => None,
        Time::Real => time_written(value, time),
    }
}

/// The least delay of what goes by no link, where it is written.
pub(crate) fn least_of_table(
    table: &Table,
    time: Time,
) -> Result<Option<WrittenTime>, ScenarioFault>
    ensures { result ≡ wish Key.Least (as_least time) (table_view table.now) }
{
    let Some(value) = value_at(table, Key::Least) else {
        return Ok(None);
    };
    let least = least_written(value, time).ok_or(ScenarioFault::Shape(Key::Least))?;
    Ok(Some(least))
}

/// How long the outages last in all through which latencies are told as well, where the key is there.
pub(crate) fn outage_of_table(
    table: &Table,
    time: Time,
) -> Result<Option<WrittenTime>, ScenarioFault>
    ensures { result ≡ outage_of_table time (table_view table.now) }
{
    let Some(value) = value_at(table, Key::Outage) else {
        return Ok(None);
    };
    let long = time_lasting(value, time).ok_or(ScenarioFault::Shape(Key::Outage))?;
    Ok(Some(long))
}

/// How long something lasts: a time that is none below 0.
pub(crate) fn time_lasting(value: &Value, time: Time) -> Option<WrittenTime>
    ensures { result ≡ as_long time (view value.now) }
{
    if is_below_zero(value) {
        None
    } else {
        time_written(value, time)
    }
}

/// Whether it is a number below 0.
fn is_below_zero(value: &Value) -> bool
    ensures { result ≡ is_below_zero (view value.now) }
{
    match value.as_integer() {
        Some(number) => number < 0,
        None => false,
    }
}
