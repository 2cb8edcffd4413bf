//! Ties that precedences leave open.

ghost use Rattle.std.specs.Prelude.{◌≡◌, ◌<◌, ◌&&◌, ◌==◌, length, All, IfNone, IfOk, IfSome, List, false, true};
ghost use Rattle.std.specs.List.{list_any, range_with_len};
ghost use Rattle.convoy_packets.specs.Assignment.{Schedule};
ghost use Rattle.convoy_intervals.specs.Boxes.{IsBox};
ghost use Rattle.convoy_regions.specs.Stages.{IsPrecedence, IsStage, Precedence, moment_of, stages_of};
ghost use Rattle.convoy_regions.specs.Regions.{Region, has_open_tie, is_decided, is_open_tie, may_come_either_way, run_of};

use super::halving::may_come_either_way;
use super::known::Known;
use super::stage::{Precedence, Stage, list_stages};
use convoy_intervals::{DelayBox, Tracked};
use convoy_packets::Instance;
use convoy_scenario::Time;
use convoy_sim::MomentKind;
use std::alloc::{AllocError, Global};

/// The first two stages, by their numbers, that fall in one tick where each packet takes its greatest delay, and
/// of which either may come first by the precedences; none where these decide each tie on which a stamp may
/// depend. The error is that memory ran out.
pub fn open_tie(
    alloc: Global,
    instance: &Instance,
    tracked: &Tracked,
    before: &[Precedence],
) -> Result<Option<(usize, usize)>, AllocError>
    requires of_scenario { tracked.now.scenario ≡ instance.now }
    requires within { All (IsPrecedence instance.now) before.now }
    ensures some { let region : Region = record { ranges = tracked.now.delay_box; before = before.now } in
        IfOk result (λ tie. IfSome tie (λ tie. is_open_tie instance.now region tie.0 tie.1 ≡ true)) }
    ensures none { let region : Region = record { ranges = tracked.now.delay_box; before = before.now } in
        IfOk result (λ tie. IfNone tie (has_open_tie instance.now region ≡ false)) }
{
    let stages = list_stages(alloc, instance.scenario())?;
    let known = Known::of(before);
    for first in 0..stages.len() {
        if let Some(second) = open_with(instance, tracked, &known, &stages, first) {
            return Ok(Some((first, second)));
        }
    }
    Ok(None)
}

/// The first stage, by its number, that forms an open tie with a stage before it in the list.
fn open_with(
    instance: &Instance,
    tracked: &Tracked,
    known: &Known,
    stages: &[Stage],
    first: usize,
) -> Option<usize>
    requires of_scenario { tracked.now.scenario ≡ instance.now }
    requires stages { stages.now ≡ stages_of instance.now }
    requires lawful { All (IsStage instance.now) stages.now }
    requires first { first < length stages.now }
    ensures some { let region : Region = record { ranges = tracked.now.delay_box; before = known.now } in
        IfSome result (λ second. is_open_tie instance.now region first second ≡ true) }
    ensures none { let region : Region = record { ranges = tracked.now.delay_box; before = known.now } in
        IfNone result (list_any (is_open_tie instance.now region first)
        (range_with_len 0 (length (stages_of instance.now))) ≡ false) }
{
    for second in first + 1..stages.len() {
        if is_open(instance, tracked, known, stages[first], stages[second]) {
            return Some(second);
        }
    }
    None
}

/// Whether two stages fall in one tick and may come either way.
fn is_open(instance: &Instance, tracked: &Tracked, known: &Known, a: Stage, b: Stage) -> bool
    requires of_scenario { tracked.now.scenario ≡ instance.now }
    requires first { IsStage instance.now a }
    requires second { IsStage instance.now b }
    ensures { let run : Schedule = run_of instance.now (record { ranges = tracked.now.delay_box; before = known.now }) in
        result ≡ (may_come_either_way known.now a b
        && ((moment_of instance.now run a).tick == (moment_of instance.now run b).tick)) }
{
    a.group == b.group
        && tick_of(instance, tracked, a) == tick_of(instance, tracked, b)
        && may_come_either_way(known, a, b)
}

/// The tick of a stage where each packet takes its greatest delay.
#[tactic(auto, unfolding(convoy_sim::specs::Times::arrive, convoy_sim::specs::Times::settle, convoy_packets::specs::Assignment::delay_of))]
fn tick_of(instance: &Instance, tracked: &Tracked, stage: Stage) -> u32
    requires of_scenario { tracked.now.scenario ≡ instance.now }
    requires stage { IsStage instance.now stage }
    ensures { (before : List Precedence) → result ≡ (moment_of instance.now
        (run_of instance.now (record { ranges = tracked.now.delay_box; before = before })) stage).tick }
{
    let _scenario = instance.scenario();
    let span = tracked.span(instance, stage.message, stage.group);
    match stage.kind {
        MomentKind::Arrival => span.arrival.1,
        MomentKind::Commit => span.settling.1,
    }
}

/// Whether some tie is open. The error is that memory ran out.
fn has_open_tie(
    alloc: Global,
    instance: &Instance,
    tracked: &Tracked,
    before: &[Precedence],
) -> Result<bool, AllocError>
    requires of_scenario { tracked.now.scenario ≡ instance.now }
    requires within { All (IsPrecedence instance.now) before.now }
    ensures { let region : Region = record { ranges = tracked.now.delay_box; before = before.now } in
        IfOk result (λ has. has ≡ has_open_tie instance.now region) }
{
    let tie = open_tie(alloc, instance, tracked, before)?;
    Ok(tie.is_some())
}

/// Whether the region of a box and some precedences is decided: the box has one delay for each packet, and in
/// real time no tie of theirs is open. The error is that memory ran out.
pub fn is_decided(
    alloc: Global,
    instance: &Instance,
    delay_box: &DelayBox,
    before: &[Precedence],
) -> Result<bool, AllocError>
    requires inside { IsBox instance.now delay_box.now }
    requires within { All (IsPrecedence instance.now) before.now }
    ensures { IfOk result (λ decided. decided
        ≡ is_decided instance.now (record { ranges = delay_box.now; before = before.now })) }
{
    if !delay_box.is_point() {
        return Ok(false);
    }
    match instance.time() {
        Time::Ticks => Ok(true),
        Time::Real => {
            let tracked = Tracked::over(alloc, instance, delay_box.copy()?)?;
            let is_open = has_open_tie(alloc, instance, &tracked, before)?;
            Ok(!is_open)
        }
    }
}
