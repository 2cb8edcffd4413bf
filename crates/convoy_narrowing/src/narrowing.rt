//! The windows of a region.

ghost use Rattle.std.specs.Prelude.{◌≡◌, ◌<◌, ◌≤◌, length, All, IfOk};
ghost use Rattle.std.specs.List.{fold};
ghost use Rattle.convoy_draft.specs.declared.limits.TheConstants.{MOST_GROUPS, MOST_MULTICASTS};
ghost use Rattle.convoy_intervals.specs.Boxes.{IsBox};
ghost use Rattle.convoy_regions.specs.Stages.{IsPrecedence, IsStage};
ghost use Rattle.convoy_narrowing.specs.Narrowing.{greatest_tick, least_tick, narrowed, narrowed_by};
ghost use Rattle.convoy_narrowing.specs.Narrowing.{narrowed_over, since, until};

use convoy_intervals::DelayBox;
use convoy_packets::Instance;
use convoy_regions::{Precedence, Stage};
use convoy_scenario::{MOST_GROUPS, MOST_MULTICASTS, Scenario};
use convoy_sim::MomentKind;
use convoy_sure::{LAST_ARRIVAL, LAST_SETTLING, Windows};
use std::alloc::{AllocError, Global};

/// The windows of the region of a box and some precedences: those of the box, narrowed by the precedences
/// (docs/LEADS.md, "Orders"). The error is that memory ran out.
pub fn narrowed(
    alloc: Global,
    instance: &Instance,
    delay_box: &DelayBox,
    before: &[Precedence],
) -> Result<Windows, AllocError>
    requires inside { IsBox instance.now delay_box.now }
    requires within { All (IsPrecedence instance.now) before.now }
    ensures { IfOk result (λ windows. windows
        ≡ narrowed instance.now (record { ranges = delay_box.now; before = before.now })) }
{
    let windows = Windows::of(alloc, instance, delay_box)?;
    let once = narrowed_over(alloc, instance.scenario(), windows, before)?;
    narrowed_over(alloc, instance.scenario(), once, before)
}

/// The windows narrowed by each precedence in turn.
fn narrowed_over(
    alloc: Global,
    scenario: &Scenario,
    windows: Windows,
    before: &[Precedence],
) -> Result<Windows, AllocError>
    requires { All (IsPrecedence scenario.now) before.now }
    ensures { IfOk result (λ narrower. narrower ≡ narrowed_over scenario.now windows before.now) }
{
    let mut narrower = windows;
    for pair in before {
        narrower = narrowed_by(alloc, scenario, &narrower, *pair)?;
    }
    Ok(narrower)
}

/// The windows narrowed by a precedence: its second stage is in no earlier tick than its first may be, and
/// the first is in no later one than the second may be.
fn narrowed_by(
    alloc: Global,
    scenario: &Scenario,
    windows: &Windows,
    pair: Precedence,
) -> Result<Windows, AllocError>
    requires { IsPrecedence scenario.now pair }
    ensures { IfOk result (λ narrower. narrower ≡ narrowed_by scenario.now windows.now pair) }
{
    let (first, second) = pair;
    let later = since(alloc, scenario, windows, second, least_tick(windows, first))?;
    until(
        alloc,
        scenario,
        &later,
        first,
        greatest_tick(&later, second),
    )
}

/// The least tick of a stage in windows.
fn least_tick(windows: &Windows, stage: Stage) -> u32
    requires message { stage.message < MOST_MULTICASTS }
    requires group { stage.group < MOST_GROUPS }
    ensures value { result ≡ least_tick windows.now stage }
    ensures fits { result ≤ LAST_SETTLING }
{
    match stage.kind {
        MomentKind::Arrival => windows.least_arrival(stage.message, stage.group),
        MomentKind::Commit => windows.least_settling(stage.message, stage.group),
    }
}

/// The greatest tick of a stage in windows.
fn greatest_tick(windows: &Windows, stage: Stage) -> u32
    requires message { stage.message < MOST_MULTICASTS }
    requires group { stage.group < MOST_GROUPS }
    ensures value { result ≡ greatest_tick windows.now stage }
    ensures fits { result ≤ LAST_SETTLING }
{
    match stage.kind {
        MomentKind::Arrival => windows.greatest_arrival(stage.message, stage.group),
        MomentKind::Commit => windows.greatest_settling(stage.message, stage.group),
    }
}

/// The windows cut: a stage is at that tick or later.
#[tactic(auto, using(convoy_sim::proofs::Addressed::number_of_goes))]
fn since(
    alloc: Global,
    scenario: &Scenario,
    windows: &Windows,
    stage: Stage,
    tick: u32,
) -> Result<Windows, AllocError>
    requires stage { IsStage scenario.now stage }
    requires tick { tick ≤ LAST_SETTLING }
    ensures { IfOk result (λ later. later ≡ since scenario.now windows.now stage tick) }
{
    let Stage { message, group, .. } = stage;
    match stage.kind {
        MomentKind::Arrival => {
            windows.with_arrival(alloc, scenario, message, group, LAST_ARRIVAL.min(tick))
        }
        MomentKind::Commit => windows.with_commit(alloc, message, group, tick),
    }
}

/// The windows cut: a stage is by that tick.
#[tactic(auto, using(convoy_sim::proofs::Addressed::number_of_goes))]
fn until(
    alloc: Global,
    scenario: &Scenario,
    windows: &Windows,
    stage: Stage,
    tick: u32,
) -> Result<Windows, AllocError>
    requires stage { IsStage scenario.now stage }
    requires tick { tick ≤ LAST_SETTLING }
    ensures { IfOk result (λ sooner. sooner ≡ until scenario.now windows.now stage tick) }
{
    let Stage { message, group, .. } = stage;
    match stage.kind {
        MomentKind::Arrival => windows.with_arrival_by(alloc, scenario, message, group, tick),
        MomentKind::Commit => windows.with_commit_by(alloc, scenario, message, group, tick),
    }
}
