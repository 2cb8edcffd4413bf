ghost use Rattle.std.specs.Prelude.{◌≡◌, true, IfErr};
ghost use Rattle.std.specs.List.{list_all};
ghost use Rattle.convoy_commands.specs.Replies.{SaysUnlessMemory, reply_of};
ghost use Rattle.convoy_case_answers.specs.CaseAnswers.{latency_of_cases_says};
ghost use Rattle.convoy_case_answers.specs.Told.{AreTotals, are_alike, between_end, cases_end, found_end, is_same_tick, of_first};

use super::cases::{asked_cases, first_asked};
use super::finding::find_all;
use super::found::Found;
use super::late::Late;
use super::telling::{cases_text, is_known};
use super::totals::Totals;
use convoy_branch::Options;
use convoy_commands::{Answer, Done, Fault, Known, Watch, judged};
use convoy_scenario::{Duration, Key, ScenarioFault};
use convoy_times::Measure;
use convoy_toml::{Asked, MOST_CASES, cases_of_text, targets_of_text};
use std::alloc::Global;
use std::sync::Wait;
use std::thread::Threads;

/// The greatest latency in all cases of a scenario text, of who sends its messages where several may, and at all groups of
/// its target where these are asked about (docs/FORMATS.md, "What `latency` writes"): as
/// [`latency_answer`](convoy_commands::latency_answer) tells it of one, and the case in which it is that; what it is with
/// what keeps the target back, as outages or the answers of replicas; and when the word of the target's group is back at
/// the client whom the text names, by which is judged how the deadline of the target is kept. Numbers are ticks, and times
/// where a tick has a length. Who watches is told of each search, by [`NoGate`](convoy_branch::NoGate) where nobody
/// cares.
///
/// The faults are those of [`read_toml_asked`](convoy_toml::read_toml_asked) and of
/// [`reply_of_text`](convoy_toml::reply_of_text), of the first case that has one; the fault of the key `from`, where there are more
/// cases than [`MOST_CASES`]; `Fault::Outage` and
/// `Fault::Replicas`, where what keeps the target back, or the word, takes a duration and it is not known how long a tick
/// is, or more ticks than may be; the fault of the key `tick`, where the cases have ticks of several lengths since it is
/// not written; and `Fault::Memory`.
pub fn latency_of_cases_answer<R: Threads + Wait + Sync, W: Watch + Sync>(
    rt: &R,
    alloc: Global,
    late: &Late,
    asked: &Asked,
    text: &[u8],
    options: &Options,
    watch: &W,
) -> Result<Answer, Fault>
    ensures { SaysUnlessMemory (latency_of_cases_says late.now asked.now options.now) text.now (reply_of result) }
{
    let count = cases_of_text(alloc, text)?;
    if count > MOST_CASES {
        return Err(Fault::Scenario(ScenarioFault::Shape(Key::From)));
    }
    let first = first_asked(late, asked)?;
    let targets = targets_of_text(alloc, text, &first)?;
    let cases = asked_cases(alloc, late, asked, &targets, count)?;
    let founds = find_all(rt, alloc, late, &cases, text, options, watch)?;
    if !are_alike(&founds) {
        return Err(Fault::Scenario(ScenarioFault::Shape(Key::Tick)));
    }
    let totals = Totals::of(&founds);
    let (measure, deadline) = (first_measure(&founds), first_deadline(&founds));
    let text = cases_text(alloc, late, &measure, deadline, &founds, &totals)?;
    let done = cases_end(late, deadline, &founds, &totals);
    Ok(Answer {
        done,
        text,
        known: known_of(late, founds),
    })
}

/// How the times of the first case are told.
fn first_measure(founds: &[Found]) -> Option<Measure>
    ensures { result ≡ of_first (λ f. f.measure) founds.now }
{
    match founds.first() {
        Some(found) => found.measure,
        None => None,
    }
}

/// The deadline of the target in the first case, where it has one.
fn first_deadline(founds: &[Found]) -> Option<u32>
    ensures { result ≡ of_first (λ f. f.deadline) founds.now }
{
    match founds.first() {
        Some(found) => found.deadline,
        None => None,
    }
}

/// The length of a tick of the first case, where it is known.
fn first_tick(founds: &[Found]) -> Option<Duration>
    ensures { result ≡ of_first (λ f. f.scenario.tick) founds.now }
{
    match founds.first() {
        Some(found) => found.scenario.tick(),
        None => None,
    }
}

/// Whether the ticks of all cases are those of the first.
fn are_alike(founds: &[Found]) -> bool
    ensures { result ≡ are_alike founds.now }
{
    let tick = first_tick(founds);
    all_have(founds, &tick)
}

/// Whether the ticks of all cases have that length, or none that is known.
fn all_have(founds: &[Found], tick: &Option<Duration>) -> bool
    ensures { result ≡ list_all (λ found. is_same_tick found.scenario.tick tick.now) founds.now }
{
    founds.iter().all(|found| found.has_tick(tick))
}

impl Found {
    /// Whether a tick of the case has that length, or neither has one that is known.
    fn has_tick(&self, tick: &Option<Duration>) -> bool
        ensures { result ≡ is_same_tick self.now.scenario.tick tick.now }
    {
        match (self.scenario.tick(), tick) {
            (None, None) => true,
            (Some(own), Some(tick)) => own.nanoseconds() == tick.nanoseconds(),
            (None, Some(_)) | (Some(_), None) => false,
        }
    }
}

/// How the command ends.
fn cases_end(late: &Late, deadline: Option<u32>, founds: &[Found], totals: &Totals) -> Done
    requires { AreTotals founds.now totals.now }
    ensures { result ≡ cases_end late.now deadline founds.now }
{
    let end = found_end(late, founds, totals);
    judged(deadline, totals.back_least, totals.back_most, end)
}

/// How it ends without a deadline.
fn found_end(late: &Late, founds: &[Found], totals: &Totals) -> Done
    requires { AreTotals founds.now totals.now }
    ensures { result ≡ found_end late.now founds.now }
{
    match late {
        Late::Answers(_) => between_end(totals.late_least, totals.late_most),
        Late::Nothing | Late::Outages(_) if is_known(founds, totals) => Done::Fine,
        Late::Nothing | Late::Outages(_) => Done::Open,
    }
}

/// How a command ends that found these numbers.
fn between_end(least: u32, most: u32) -> Done
    ensures { result ≡ between_end least most }
{
    if least == most {
        Done::Fine
    } else {
        Done::Open
    }
}

/// What is known of the scenario, where there is one case: its greatest latency too, where nothing keeps its target back.
fn known_of(late: &Late, founds: Vec<Found>) -> Option<Known> {
    let mut founds = founds;
    let found = founds.pop()?;
    if !founds.is_empty() {
        return None;
    }
    let is_plain = !late.accepts() && found.is_proved;
    Some(Known {
        scenario: found.scenario,
        greatest: is_plain.then_some(found.most),
        plain: found.plain,
    })
}
