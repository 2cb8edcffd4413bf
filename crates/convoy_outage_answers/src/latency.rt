ghost use Rattle.std.specs.Prelude.{◌≡◌, ◌++◌, IfErr, IfOk, OnOk};
ghost use Rattle.convoy_outages.specs.Spans.{span_asked};
ghost use Rattle.convoy_commands.specs.Replies.{SaysUnlessMemory, reply_of};
ghost use Rattle.convoy_outage_answers.specs.Latencies.{LastsFor, ceiling_text_if, finding_end, finding_line, latency_through_says, latency_through_text};

use super::upper::outage_latency;
use convoy_branch::Options;
use convoy_ceiling::target_ceiling;
use convoy_commands::{
    Answer, Done, Fault, Known, Watch, deadline_at, judged, push_ceiling, push_open, push_outside,
    push_ticks_line, push_verdict,
};
use convoy_outages::{Outage, OutageFault, Span, span_asked};
use convoy_outside::outside_told;
use convoy_packets::Instance;
use convoy_scenario::Scenario;
use convoy_survey::{Finding, find};
use convoy_times::Measure;
use convoy_toml::{Asked, read_toml_asked};
use std::alloc::{AllocError, Global};
use std::sync::Wait;
use std::thread::Threads;

/// The greatest latency of the scenario of a text, where that is asked, as
/// [`latency_answer`](convoy_commands::latency_answer) tells it, and a number that no latency of the target exceeds
/// through outages that last so long in all (docs/FORMATS.md, "What `latency` writes"). How latencies keep the deadline
/// of the target is judged by what the search finds that they are at least and by that number. Who watches is told of
/// each search, by [`NoGate`](convoy_branch::NoGate) where nobody cares. The faults are those of [`read_toml_asked`];
/// `Fault::Outage`, where outages last for a duration and it is not known how long a tick is, or longer than they may; and
/// `Fault::Memory`.
pub fn latency_through_answer<R: Threads + Wait + Sync, W: Watch + Sync>(
    rt: &R,
    alloc: Global,
    with_ceiling: bool,
    outage: Outage,
    asked: &Asked,
    text: &[u8],
    options: &Options,
    watch: &W,
) -> Result<Answer, Fault>
    ensures { SaysUnlessMemory (latency_through_says with_ceiling outage asked.now options.now) text.now
        (reply_of result) }
{
    let input = read_toml_asked(alloc, text, asked)?;
    let measure = Measure::of(&input.scenario, options.unit(), input.unit);
    let deadline = deadline_at(&input.deadlines, input.scenario.target_message());
    let span = span_through(outage, &input.scenario)?;
    let instance = Instance::of(alloc, input.scenario)?;
    let outside = outside_told(&input.shares, &instance);
    let finding = find(rt, alloc, &instance, options, watch)?;
    let through = outage_latency(rt, alloc, &instance, span, options, watch)?;
    // (what a search finds has a least)
    let Some(least) = finding.least() else {
        return Err(Fault::Memory);
    };
    let scenario = instance.scenario();
    let text = told(
        alloc,
        with_ceiling,
        &measure,
        deadline,
        outside,
        scenario,
        finding,
        least,
        through,
    )?;
    Ok(Answer {
        done: judged(deadline, least, through, finding_end(finding)),
        text,
        known: Some(Known {
            scenario: instance.into_scenario(),
            greatest: greatest_of(finding),
            plain: input.plain,
        }),
    })
}

/// How many ticks of a scenario the outages that are asked for last in all, or why that can't be told.
pub fn span_through(outage: Outage, scenario: &Scenario) -> Result<Span, OutageFault>
    ensures told { IfOk result (LastsFor outage scenario.now) }
    ensures refused { IfErr result (λ cause. span_asked (Some outage) scenario.now ≡ Err cause) }
{
    match span_asked(Some(outage), scenario)? {
        Some(span) => Ok(span),
        // (one that is asked for is told)
        None => unreachable!(),
    }
}

/// How the command ends without a deadline.
fn finding_end(finding: Finding) -> Done
    ensures { result ≡ finding_end finding }
{
    if finding.is_open() {
        Done::Open
    } else {
        Done::Fine
    }
}

/// The greatest latency in ticks, where the search found it.
fn greatest_of(finding: Finding) -> Option<u32> {
    match finding {
        Finding::Greatest { latency, .. } => Some(latency),
        Finding::Open { .. } | Finding::OutOfMemory => None,
    }
}

/// What is written.
#[tactic(auto, using(std::proofs::lemmas::List::append_assoc))]
fn told(
    alloc: Global,
    with_ceiling: bool,
    measure: &Option<Measure>,
    deadline: Option<u32>,
    outside: Option<u64>,
    scenario: &Scenario,
    finding: Finding,
    least: u32,
    through: u32,
) -> Result<Vec<u8>, AllocError>
    ensures { IfOk result (λ text. text.items
        ≡ latency_through_text with_ceiling measure.now deadline outside scenario.now finding least through) }
{
    let mut text = Vec::new(alloc);
    push_finding(*measure, finding, &mut text)?;
    push_ticks_line("outage-latency", *measure, through, &mut text)?;
    push_verdict(*measure, deadline, least, through, &mut text)?;
    push_outside(outside, &mut text)?;
    push_ceiling_if(with_ceiling, *measure, scenario, &mut text)?;
    Ok(text)
}

/// Appends the line of what a search found.
fn push_finding(
    measure: Option<Measure>,
    finding: Finding,
    out: &mut Vec<u8>,
) -> Result<(), AllocError>
    ensures { OnOk result (out.new.items ≡ out.old.items ++ finding_line measure finding) }
{
    match finding {
        Finding::Greatest { latency, .. } => push_ticks_line("greatest", measure, latency, out),
        Finding::Open { least, most, .. } => push_open(measure, least, most, out),
        Finding::OutOfMemory => Ok(()),
    }
}

/// Appends the line of the ceiling of a scenario's target, where that is asked for.
fn push_ceiling_if(
    with_ceiling: bool,
    measure: Option<Measure>,
    scenario: &Scenario,
    out: &mut Vec<u8>,
) -> Result<(), AllocError>
    ensures { OnOk result (out.new.items ≡ out.old.items ++ ceiling_text_if with_ceiling measure scenario.now) }
{
    if with_ceiling {
        push_ceiling(measure, target_ceiling(scenario), out)
    } else {
        Ok(())
    }
}
