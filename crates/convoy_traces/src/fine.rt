//! Times in ticks so fine that each is a whole number.

ghost use Rattle.std.specs.Prelude.{◌≡◌, ◌≤◌, ◌*◌, []};
ghost use Rattle.std.specs.List.{list_all};
ghost use Rattle.std.specs.Result.{result_map_both};
ghost use Rattle.convoy_scenario.specs.Memory.{IsUnlessMemory};
ghost use Rattle.convoy_traces.specs.Traces.{fine_from, fine_of, first_factor, is_whole};
ghost use Rattle.convoy_traces.specs.declared.fault.TraceFault.TheVariants.{Memory};

use super::fault::{Cause, LAST_TIME, TraceFault};
use super::told::{Entry, Told};
use std::alloc::Global;

/// The time of an entry, in such parts of a nanosecond.
fn parts_of(one: &Entry, factor: u16) -> u128
    ensures { result ≡ one.now.time * factor }
{
    u128::from(one.time) * u128::from(factor)
}

/// Whether the time is a whole number of such parts of a tick.
fn is_whole(tick: u64, factor: u16, one: &Entry) -> bool
    requires { 1 ≤ tick }
    ensures { result ≡ is_whole tick factor one.now }
{
    parts_of(one, factor) % u128::from(tick) == 0
}

/// Whether all times are whole numbers of such parts of a tick.
fn are_whole(tick: u64, factor: u16, entries: &[Entry]) -> bool
    requires { 1 ≤ tick }
    ensures { result ≡ list_all (is_whole tick factor) entries.now }
{
    for one in entries {
        if !is_whole(tick, factor, one) {
            return false;
        }
    }
    true
}

/// The first of the numbers up to the greatest one of which all times are whole parts of a tick.
pub(crate) fn first_factor(tick: u64, entries: &[Entry], most: u16) -> Option<u16>
    requires { 1 ≤ tick }
    ensures { result ≡ first_factor tick entries.now most 1 }
{
    for before in 0..most {
        if are_whole(tick, before + 1, entries) {
            return Some(before + 1);
        }
    }
    None
}

/// What is told, in fine ticks, unless it is too late.
fn fine_of(tick: u64, factor: u16, one: &Entry) -> Result<Told, TraceFault>
    requires { 1 ≤ tick }
    ensures { result ≡ fine_of tick factor one.now }
{
    let time = parts_of(one, factor) / u128::from(tick);
    if u128::from(LAST_TIME) < time {
        return Err(TraceFault::Line(one.line, Cause::Late));
    }
    Ok(Told {
        line: one.line,
        message: one.message,
        event: one.event,
        time: time as u32,
        stamp: one.stamp,
    })
}

/// The entries in fine ticks, in their order.
pub(crate) fn in_fine_ticks(
    alloc: Global,
    tick: u64,
    factor: u16,
    entries: &[Entry],
) -> Result<Vec<Told>, TraceFault>
    requires { 1 ≤ tick }
    ensures { IsUnlessMemory Memory (fine_from tick factor [] entries.now)
        (result_map_both (λ told. told.items) (λ fault. fault) result) }
{
    let mut told = Vec::new(alloc);
    for one in entries {
        told.push(fine_of(tick, factor, one)?)?;
    }
    Ok(told)
}
