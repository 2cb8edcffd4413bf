//! What is known of a text before anything is searched.

ghost use Rattle.std.specs.Prelude.{◌≡◌, ◌⊎◌, Ok, Err, IfOk, IfErr};
ghost use Rattle.convoy_draft.specs.declared.fault.ScenarioFault.TheVariants.{Memory};
ghost use Rattle.convoy_scenario.specs.Memory.{IsUnlessMemory};
ghost use Rattle.convoy_toml.specs.Reading.{deadlines_of_text, unit_written};
ghost use Rattle.convoy_sweep.specs.declared.fault.SweepFault.TheVariants.{Text};
ghost use Rattle.convoy_sweep.specs.Points.{all_made, held, listed, made_at, made_in, prepared_of, scenario_at, seen, told_at, with_second, written_at, written_of_text};

use super::changing::with_key;
use super::fault::SweepFault;
use super::kinds::{Given, Point, Setting, Sweep};
use super::points::{points_of, ranges_in};
use convoy_scenario::{Duration, Scenario, ScenarioFault};
use convoy_toml::{
    Asked, Input, WrittenScenario, asked_around, read_table, read_toml_asked, scenario_of_written,
    tick_of, written_of_table,
};
use std::alloc::{AllocError, Global};

/// A point of a sweep, with the scenario that the text makes there.
#[derive(Drop)]
pub struct Made {
    pub point: Point,
    pub scenario: Scenario,
}

/// What is known of a text before anything is searched: what it holds itself, and the points of a sweep of it, with
/// their scenarios.
#[derive(Drop)]
pub struct Prepared {
    pub input: Input,
    pub made: Vec<Made>,
}

/// Reads a text, where that is asked, and makes the scenario at each point of a sweep of it, in the order of the rows,
/// around its target where all is asked so; as windows, if that is asked. The first fault is told: of the text itself,
/// then of the first setting and of the second, and then of the first point at which the text makes no scenario.
pub fn prepare(
    alloc: Global,
    sweep: &Sweep,
    envelope: bool,
    asked: &Asked,
    text: &[u8],
) -> Result<Prepared, SweepFault>
    ensures value { IfOk result (λ prepared. prepared_of sweep.now envelope asked.now text.now ≡ Ok (seen prepared)) }
    ensures err { IfErr result (λ fault.
        (prepared_of sweep.now envelope asked.now text.now ≡ Err fault) ⊎ (fault ≡ Text Memory)) }
    ensures unit { IfOk result (λ prepared. prepared.input.unit ≡ unit_written text.now) }
    ensures deadlines { IfOk result (λ prepared.
        prepared.input.deadlines.items ≡ deadlines_of_text asked.now text.now) }
{
    let written = written_of_text(alloc, asked, text)?;
    let input = read_toml_asked(alloc, text, asked)?;
    let tick = tick_of(alloc, &written)?;
    let made = made_in(alloc, asked, sweep, envelope, written, tick)?;
    Ok(Prepared { input, made })
}

/// What a text writes of a scenario, where that is asked.
fn written_of_text(
    alloc: Global,
    asked: &Asked,
    text: &[u8],
) -> Result<WrittenScenario, ScenarioFault>
    ensures { IsUnlessMemory Memory (written_of_text asked.now text.now) result }
{
    let table = read_table(alloc, text)?;
    let written = written_of_table(alloc, &table, asked)?;
    Ok(written.scenario)
}

/// The points of a sweep of the text that is written so, with this length of a tick, and their scenarios.
fn made_in(
    alloc: Global,
    asked: &Asked,
    sweep: &Sweep,
    envelope: bool,
    written: WrittenScenario,
    tick: Option<Duration>,
) -> Result<Vec<Made>, SweepFault>
    ensures { IsUnlessMemory (Text Memory) (made_in asked.now.around sweep.now envelope written tick) (listed result) }
{
    let ranges = ranges_in(&written, length_of(&tick), envelope, sweep)?;
    let points = points_of(alloc, envelope, ranges)?;
    let held = held(tick, written);
    all_made(alloc, asked, sweep, &held, &points)
}

/// The nanoseconds of a tick, if there is one.
fn length_of(tick: &Option<Duration>) -> Option<u64>
    ensures { result ≡ tick.now }
{
    match tick {
        Some(tick) => Some(tick.nanoseconds()),
        None => None,
    }
}

/// What is written, with this length of a tick whatever its times are.
fn held(tick: Option<Duration>, written: WrittenScenario) -> WrittenScenario
    ensures { result ≡ held tick written }
{
    let mut held = written;
    held.tick = tick;
    held
}

/// These points with their scenarios, or the fault of the first that makes none.
fn all_made(
    alloc: Global,
    asked: &Asked,
    sweep: &Sweep,
    written: &WrittenScenario,
    points: &[Point],
) -> Result<Vec<Made>, SweepFault>
    ensures { IsUnlessMemory (Text Memory) (all_made asked.now.around sweep.now written.now points.now) (listed result) }
{
    let mut made = Vec::new(alloc);
    for point in points {
        let one = made_at(alloc, asked, sweep, written, *point)?;
        made.push(one)?;
    }
    Ok(made)
}

/// A point with its scenario.
fn made_at(
    alloc: Global,
    asked: &Asked,
    sweep: &Sweep,
    written: &WrittenScenario,
    point: Point,
) -> Result<Made, SweepFault>
    ensures { IsUnlessMemory (Text Memory) (made_at asked.now.around sweep.now written.now point) result }
{
    match scenario_at(alloc, asked, sweep, written, point) {
        Ok(scenario) => Ok(Made { point, scenario }),
        Err(cause) => Err(told_at(point, cause)),
    }
}

/// The fault of a point, at which what is written makes no scenario.
fn told_at(point: Point, cause: ScenarioFault) -> SweepFault
    ensures { result ≡ told_at point cause }
{
    match cause {
        ScenarioFault::Memory => SweepFault::Text(ScenarioFault::Memory),
        cause => SweepFault::Value(point, cause),
    }
}

/// The scenario at a point that is asked about: that of what is written there, or around its target.
fn scenario_at(
    alloc: Global,
    asked: &Asked,
    sweep: &Sweep,
    written: &WrittenScenario,
    point: Point,
) -> Result<Scenario, ScenarioFault>
    ensures { IsUnlessMemory Memory (scenario_at asked.now.around sweep.now written.now point) result }
{
    let changed = written_at(alloc, sweep, point, written)?;
    let scenario = scenario_of_written(alloc, &changed)?;
    asked_around(alloc, scenario, asked.around)
}

/// What is written at a point. Fails where memory runs out, and else never.
fn written_at(
    alloc: Global,
    sweep: &Sweep,
    point: Point,
    written: &WrittenScenario,
) -> Result<WrittenScenario, AllocError>
    ensures { IfOk result (λ changed. changed ≡ written_at sweep.now point written.now) }
{
    let changed = with_key(alloc, &sweep.first.key, point.first, written)?;
    with_second(alloc, &sweep.second, point.second, changed)
}

/// What is written where a second key, if there is one, has its value.
fn with_second(
    alloc: Global,
    setting: &Option<Setting>,
    given: Option<Given>,
    written: WrittenScenario,
) -> Result<WrittenScenario, AllocError>
    ensures { IfOk result (λ changed. changed ≡ with_second setting.now given written) }
{
    match (setting, given) {
        (Some(setting), Some(given)) => with_key(alloc, &setting.key, given, &written),
        (None, _) | (Some(_), None) => Ok(written),
    }
}
