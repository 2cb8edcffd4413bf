//! What is found of each case.

ghost use Rattle.std.specs.Prelude.{◌≡◌, ◌∷◌, [], ◌++◌, unwrap_or, OnOk, Ok};
ghost use Rattle.convoy_toml.specs.Reading.{scenario_of_text_by};
ghost use Rattle.convoy_branch.specs.Outcomes.{best_of};
ghost use Rattle.convoy_commands.specs.Searches.{IsEnd};
ghost use Rattle.convoy_case_answers.specs.Founds.{FindsAll, FindsCase, GivesBack, GivesLate, GivesWay, is_proved, upper_of, way_of};

use super::found::Found;
use super::late::Late;
use convoy_branch::{Options, Outcome};
use convoy_commands::{Fault, Watch, deadline_at, search_instance};
use convoy_finish_answers::{best_schedule, finish_between};
use convoy_outage_answers::{outage_latency, span_through};
use convoy_outages::OutageFault;
use convoy_outside::outside_told;
use convoy_packets::Instance;
use convoy_replicas::{ReplicaFault, replica_ticks, replicas_of};
use convoy_scenario::Scenario;
use convoy_times::Measure;
use convoy_toml::{Asked, WrittenTime, acceptances_of_text, read_toml_asked, reply_of_text};
use std::alloc::{AllocError, Global};
use std::sync::Wait;
use std::thread::Threads;

/// What is found of each of these cases of a text.
pub(crate) fn find_all<R: Threads + Wait + Sync, W: Watch + Sync>(
    rt: &R,
    alloc: Global,
    late: &Late,
    cases: &[Asked],
    text: &[u8],
    options: &Options,
    watch: &W,
) -> Result<Vec<Found>, Fault>
    ensures { FindsAll late.now cases.now options.now text.now result }
{
    let mut founds = Vec::new(alloc);
    for (number, asked) in cases.iter().enumerate() {
        let found = found_in(rt, alloc, late, asked, number, text, options, watch)?;
        push_found(found, &mut founds)?;
    }
    Ok(founds)
}

/// Appends what is found of a case.
fn push_found(found: Found, founds: &mut Vec<Found>) -> Result<(), AllocError>
    ensures { OnOk result (founds.new.items ≡ founds.old.items ++ found ∷ []) }
{
    Ok(founds.push(found)?)
}

/// What is found of the case of that number.
fn found_in<R: Threads + Wait + Sync, W: Watch + Sync>(
    rt: &R,
    alloc: Global,
    late: &Late,
    asked: &Asked,
    number: usize,
    text: &[u8],
    options: &Options,
    watch: &W,
) -> Result<Found, Fault>
    ensures { FindsCase late.now asked.now options.now text.now number result }
{
    let input = read_toml_asked(alloc, text, asked)?;
    let measure = Measure::of(&input.scenario, options.unit(), input.unit);
    let deadline = deadline_at(&input.deadlines, input.scenario.target_message());
    let way = way_in(alloc, asked, text, &input.scenario)?;
    let instance = Instance::of(alloc, input.scenario)?;
    let outside = outside_told(&input.shares, &instance);
    let outcome = search_instance(rt, alloc, &instance, options, watch)?;
    let (least, most) = latencies_of(&outcome);
    let is_proved = is_proved(&outcome);
    let (late_least, late_most) = late_in(
        rt, alloc, late, asked, &instance, &outcome, text, options, watch,
    )?;
    let back_least = back_after(late_least, way)?;
    let back_most = back_after(late_most, way)?;
    Ok(Found {
        number,
        scenario: instance.into_scenario(),
        plain: input.plain,
        measure,
        deadline,
        outside,
        least,
        most,
        is_proved,
        late_least,
        late_most,
        way,
        back_least,
        back_most,
    })
}

/// What a search has found that the greatest latency is at least, and at most.
fn latencies_of(outcome: &Outcome) -> (u32, u32)
    ensures { result ≡ (best_of outcome.now, upper_of outcome.now) }
{
    match outcome {
        Outcome::Proved { certificate, .. } => (certificate.latency(), certificate.latency()),
        Outcome::Open { best, upper, .. } => (best.latency(), *upper),
    }
}

/// Whether the search has ended, and so found the greatest latency.
fn is_proved(outcome: &Outcome) -> bool
    ensures { result ≡ is_proved outcome.now }
{
    match outcome {
        Outcome::Proved { .. } => true,
        Outcome::Open { .. } => false,
    }
}

/// What the latency of an instance's target is at least and at most with what keeps it back, where a search has ended so.
fn late_in<R: Threads + Wait + Sync, W: Watch + Sync>(
    rt: &R,
    alloc: Global,
    late: &Late,
    _asked: &Asked,
    instance: &Instance,
    outcome: &Outcome,
    text: &[u8],
    options: &Options,
    watch: &W,
) -> Result<(u32, u32), Fault>
    requires read { scenario_of_text_by _asked.now text.now ≡ Ok instance.now }
    requires searched { IsEnd options.now instance.now outcome.now }
    ensures { GivesLate late.now _asked.now text.now instance.now (best_of outcome.now) (upper_of outcome.now) result }
{
    match late {
        Late::Nothing => Ok(latencies_of(outcome)),
        Late::Outages(outage) => {
            let span = span_through(*outage, instance.scenario())?;
            let most = outage_latency(rt, alloc, instance, span, options, watch)?;
            let (least, _) = latencies_of(outcome);
            Ok((least, most))
        }
        Late::Answers(span) => {
            let acceptances = acceptances_of_text(alloc, text)?;
            let replicas = replicas_of(alloc, span, &acceptances, instance.scenario())??;
            let start = best_schedule(instance, options, outcome)?;
            let steps = options.simulations();
            let found = finish_between(alloc, instance, &replicas, start, steps)?;
            Ok((found.least, found.most))
        }
    }
}

/// How long the word of the target's group takes at most to the client that a text names, in ticks of its scenario.
fn way_in(
    alloc: Global,
    asked: &Asked,
    text: &[u8],
    scenario: &Scenario,
) -> Result<Option<u16>, Fault>
    requires read { scenario_of_text_by asked.now text.now ≡ Ok scenario.now }
    ensures { GivesWay asked.now text.now scenario.now result }
{
    let time = reply_of_text(alloc, text, asked)?;
    let way = way_of(scenario, time)?;
    Ok(way)
}

/// How many ticks of a scenario a word takes that takes so long, where it takes some time.
fn way_of(scenario: &Scenario, time: Option<WrittenTime>) -> Result<Option<u16>, ReplicaFault>
    ensures { result ≡ way_of scenario.now time }
{
    match time {
        Some(time) => {
            let ticks = replica_ticks(scenario, time)?;
            Ok(Some(ticks))
        }
        None => Ok(None),
    }
}

/// When the word is back that takes so long, after so many ticks.
fn back_after(late: u32, way: Option<u16>) -> Result<u32, Fault>
    ensures { GivesBack late way result }
{
    match late.checked_add(ticks_of_way(way)) {
        Some(back) => Ok(back),
        None => Err(Fault::Outage(OutageFault::TooLong)),
    }
}

/// How many ticks the word takes: none where no client is named.
fn ticks_of_way(way: Option<u16>) -> u32
    ensures { result ≡ unwrap_or way 0 }
{
    match way {
        Some(way) => u32::from(way),
        None => 0,
    }
}
