ghost use Rattle.std.specs.Prelude.{◌≡◌, ◌<◌, [], ◌∷◌, ◌++◌, length, IfOk, IfSome, IsTrue, OnOk};
ghost use Rattle.std.specs.List.{All};
ghost use Rattle.convoy_around.specs.Around.{is_span};
ghost use Rattle.convoy_scenario.specs.Room.{HasRoom};
ghost use Rattle.convoy_scenario.specs.Scenario.{GoesTo};
ghost use Rattle.convoy_scenario.specs.Targets.{targets_at, targets_of, with_target};
ghost use Rattle.convoy_survey.specs.Findings.{MayAnswer};
ghost use Rattle.convoy_survey.specs.Surveys.{AreRowsBy, AreSurveyed, IsTarget, IsTargetPair, MayAnswerBy, TakesTargets, TellsTarget, with_rows};
ghost use denote.Ref.{Bor};

use super::finding::{Finding, Surveyed};
use super::searching::find_target;
use convoy_around::around_at;
use convoy_around::around_laws::around_forgets_targets;
use convoy_branch::Options;
use convoy_commands::Watch;
use convoy_rows::make_each;
use convoy_scenario::Scenario;
use std::alloc::{AllocError, Global};
use std::sync::Wait;
use std::thread::Threads;

/// Searches for the greatest latency of each message of a scenario at each group that it goes to, in the order of their
/// numbers, counted from the message's own issue. A message of which the window and that of another one are longer than
/// one may be has no row (docs/FORMATS.md, "Windows of the target"). Where a span is given, each search is of the
/// scenario around its target ([`scenario_at`](crate::scenario_at)), and each message has its rows.
///
/// Each search goes as [`latency_answer`](convoy_commands::latency_answer) does with these options: by
/// their limit of tickets, by their bounds or both ways, and with their number of workers. Where memory
/// runs out for one of them, that is what its row tells, and the others are searched all the same. As many
/// searches are made at a time as there are watches, and each is watched by one of them. Fails where there
/// is no memory for the rows, and else never.
pub fn survey<R: Threads + Wait + Sync, W: Watch + Sync>(
    rt: &R,
    alloc: Global,
    span: Option<u32>,
    scenario: &Scenario,
    options: &Options,
    watches: &[W],
) -> Result<Vec<Surveyed>, AllocError>
    requires watched { 0 < length watches.now }
    requires span { IfSome span (λ n. IsTrue (is_span n)) }
    ensures { IfOk result (λ rows. AreSurveyed options.now span scenario.now rows.items) }
{
    around_forgets_targets();
    let still = with_rows(alloc, span, scenario)?;
    let rows = survey_each(rt, alloc, span, &still, options, watches)?;
    Ok(rows)
}

/// The scenario of which each target has rows, in memory of its own: the same, or where a span is given the one in
/// which no message waits, so that each may be the target. Fails where memory runs out, and else never.
pub fn with_rows(
    alloc: Global,
    span: Option<u32>,
    scenario: &Scenario,
) -> Result<Scenario, AllocError>
    ensures { IfOk result (λ other. other ≡ with_rows span scenario.now) }
{
    let (message, group) = (scenario.target_message(), scenario.target_group());
    match span {
        Some(_) => around_at(alloc, scenario, 0, message, group),
        None => scenario.copy(),
    }
}

/// The rows of the targets of a scenario, each around its target where a span is given.
fn survey_each<R: Threads + Wait + Sync, W: Watch + Sync>(
    rt: &R,
    alloc: Global,
    span: Option<u32>,
    scenario: &Scenario,
    options: &Options,
    watches: &[W],
) -> Result<Vec<Surveyed>, AllocError>
    requires watched { 0 < length watches.now }
    requires span { IfSome span (λ n. IsTrue (is_span n)) }
    ensures { IfOk result (λ rows.
        AreRowsBy scenario.now (MayAnswer options.now span scenario.now) rows.items) }
{
    let find = |message: usize, group: usize, watch: &W| -> Result<Finding, AllocError>
        requires target { IsTarget scenario.now message group }
        requires span { IfSome span (λ n. IsTrue (is_span n)) }
        ensures { MayAnswer options.entry.now span scenario.entry.now message group result }
    { find_target(rt, alloc, span, scenario, message, group, options, watch) };
    let rows = survey_by(rt, alloc, scenario, watches, &find)?;
    Ok(rows)
}

/// The rows of [`survey`], each by a search of the caller's own, which is given the numbers of a message and of a group
/// that it goes to, and a watch. A row tells what `find` answers for its target, and that memory ran out just where
/// `find` answers so. Fails where there is no memory for the rows, and else never.
pub fn survey_by<
    R: Threads + Sync,
    W: Sync,
    F: Fn(usize, usize, &W) -> Result<Finding, AllocError> + Sync,
>(
    rt: &R,
    alloc: Global,
    scenario: &Scenario,
    watches: &[W],
    find: &F,
) -> Result<Vec<Surveyed>, AllocError>
    requires watched { 0 < length watches.now }
    requires takes { (watch : Bor W) → TakesTargets scenario.now (λ m g. F.pre find.now m g watch) }
    ensures { IfOk result (λ rows. AreRowsBy scenario.now (MayAnswerBy (F.post find.now)) rows.items) }
{
    let targets = targets_of(alloc, scenario)?;
    let row = |target: &(usize, usize), watch: &W| -> Surveyed
        requires { (watch : Bor W) → F.pre find.now target.now.0 target.now.1 watch }
        ensures { TellsTarget (MayAnswerBy (F.post find.entry.now)) target.now result }
    { row_by(*target, watch, find) };
    let rows = make_each(rt, alloc, watches, &targets, &row)?;
    Ok(rows)
}

/// The row of a message at a group.
fn row_by<W, F: Fn(usize, usize, &W) -> Result<Finding, AllocError>>(
    target: (usize, usize),
    watch: &W,
    find: &F,
) -> Surveyed
    requires { (watch : Bor W) → F.pre find.now target.0 target.1 watch }
    ensures { TellsTarget (MayAnswerBy (F.post find.now)) target result }
{
    let (message, group) = target;
    let finding = Finding::told(find(message, group, watch));
    Surveyed {
        message,
        group,
        finding,
    }
}

/// Each message of a scenario that may be its target, at each group that it goes to.
pub(crate) fn targets_of(
    alloc: Global,
    scenario: &Scenario,
) -> Result<Vec<(usize, usize)>, AllocError>
    ensures targets { IfOk result (λ targets. targets.items ≡ targets_of scenario.now) }
    ensures lawful { IfOk result (λ targets. All (IsTargetPair scenario.now) targets.items) }
{
    let mut targets = Vec::new(alloc);
    for message in 0..scenario.message_count() {
        push_message(scenario, message, &mut targets)?;
    }
    Ok(targets)
}

/// Appends a message at each group that it goes to, if it may be the target.
fn push_message(
    scenario: &Scenario,
    message: usize,
    targets: &mut Vec<(usize, usize)>,
) -> Result<(), AllocError>
    requires known { message < length scenario.now.multicasts }
    requires lawful { All (IsTargetPair scenario.now) targets.old.items }
    ensures targets { OnOk result (targets.new.items ≡ targets.old.items ++ targets_at scenario.now message) }
    ensures lawful { OnOk result (All (IsTargetPair scenario.now) targets.new.items) }
{
    if !scenario.may_be_target(message) {
        return Ok(());
    }
    for group in scenario.destinations(message) {
        push_target(scenario, message, *group, targets)?;
    }
    Ok(())
}

/// Appends a message at a group that it goes to; it is one that may be the target.
fn push_target(
    _scenario: &Scenario,
    message: usize,
    group: usize,
    targets: &mut Vec<(usize, usize)>,
) -> Result<(), AllocError>
    requires known { message < length _scenario.now.multicasts }
    requires addressed { GoesTo _scenario.now message group }
    requires room { HasRoom (with_target _scenario.now message group) }
    requires lawful { All (IsTargetPair _scenario.now) targets.old.items }
    ensures targets { OnOk result (targets.new.items ≡ targets.old.items ++ (message, group) ∷ []) }
    ensures lawful { OnOk result (All (IsTargetPair _scenario.now) targets.new.items) }
{
    Ok(targets.push((message, group))?)
}
