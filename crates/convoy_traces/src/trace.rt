ghost use Rattle.std.specs.Prelude.{◌≡◌, ◌≤◌};
ghost use Rattle.std.specs.Result.{result_map_both};
ghost use Rattle.convoy_scenario.specs.Memory.{IsUnlessMemory};
ghost use Rattle.convoy_traces.specs.Traces.{most_factor, trace_of, trace_of_text};
ghost use Rattle.convoy_traces.specs.declared.fault.TraceFault.TheVariants.{Memory};

use super::clock::{Clock, tick_by};
use super::fault::TraceFault;
use super::fine::{first_factor, in_fine_ticks};
use super::reading::entries_of;
use super::told::{Entry, Told};
use convoy_scenario::{GREATEST_DELAY, Scenario};
use std::alloc::Global;
use std::marker::Model;

/// A trace of a run of a scenario: what happened to which message at which group, and when.
#[derive(Drop)]
pub struct Trace {
    factor: u16,
    told: Vec<Told>,
}

impl Model for Trace {
    ghost use Rattle.convoy_traces.specs.Traces.{Trace};

    ghost Value = { Trace };

    ghost view = { λ t. record { factor = t.factor; told = t.told.items } };
}

impl Trace {
    /// How many fine ticks a tick of the scenario has: all times of the trace are whole numbers of these.
    pub fn factor(&self) -> u16
        ensures { result ≡ self.now.factor }
    {
        self.factor
    }

    /// What is told, in the order of the lines, with times in fine ticks.
    pub fn told(&self) -> &[Told]
        ensures { result.now ≡ self.now.told }
    {
        self.told.as_slice()
    }
}

/// How many fine ticks a tick may have, so that the greatest delay is within the limits.
fn most_factor(scenario: &Scenario) -> u16
    ensures { result ≡ most_factor scenario.now }
{
    GREATEST_DELAY / scenario.delay().max(1)
}

/// The entries as a trace, in the coarsest of fine ticks.
fn trace_of(
    alloc: Global,
    scenario: &Scenario,
    clock: Clock,
    entries: &[Entry],
) -> Result<Trace, TraceFault>
    ensures { IsUnlessMemory Memory (trace_of scenario.now clock entries.now) result }
{
    let tick = tick_by(clock);
    let most = most_factor(scenario);
    let factor = first_factor(tick, entries, most).ok_or(TraceFault::TooFine(most))?;
    let told = in_fine_ticks(alloc, tick, factor, entries)?;
    Ok(Trace { factor, told })
}

/// The trace of a run of a scenario that a text is (docs/FORMATS.md, "Trace text").
///
/// A text has a line for each event: it is CSV, whose first line names the columns, or an object of JSON in each line.
/// Times are durations, or numbers of the clock's unit; without a unit they are numbers of ticks. They count
/// from tick 0 of the scenario. They become whole numbers of *fine ticks*, of which a tick has as few as that takes.
///
/// The faults are, in this order: the text has nothing in it; the first line that has one, by its cells in the order
/// message, event, group, from, time, stamp, and an event that an earlier line tells last; that the times are so fine
/// that D would be greater than 65,535 fine ticks; the first line that is too late; and that memory ran out.
#[tactic(auto, unfolding(crate::specs::Traces::trace_of_text))]
pub fn trace_of_text(
    alloc: Global,
    scenario: &Scenario,
    clock: Clock,
    text: &[u8],
) -> Result<Trace, TraceFault>
    ensures { IsUnlessMemory Memory (trace_of_text scenario.now clock text.now) result }
{
    let entries = entries_of(alloc, scenario, clock, text)?;
    trace_of(alloc, scenario, clock, &entries)
}
