ghost use Rattle.std.specs.Prelude.{◌≡◌, ◌++◌, ℕ, List, Ok, IfOk};
ghost use Rattle.convoy_toml.specs.declared.asked.Asked.{Asked};
ghost use Rattle.convoy_commands.specs.Outsides.{outside_text};
ghost use Rattle.convoy_commands.specs.Verdicts.{verdict_text};
ghost use Rattle.convoy_commands.specs.WithCeilings.{latency_says};
ghost use Rattle.convoy_commands.specs.ReplyLines.{greatest_line, open_line};
ghost use Rattle.convoy_commands.specs.Replies.{SaysUnlessMemory, reply_of};
ghost use Rattle.convoy_commands.specs.Searches.{LatencySays, SearchGives};

use super::answer::Answer;
use super::done::Done;
use super::fault::Fault;
use super::reply_lines::{push_open, push_outside, push_ticks_line, push_verdict};
use super::search::{Searched, search_text};
use super::verdict::judged;
use super::watch::Watch;
use super::with_ceiling::put_ceiling;
use convoy_branch::{Options, Outcome};
use convoy_times::Measure;
use convoy_toml::Asked;
use std::alloc::{AllocError, Global};
use std::sync::Wait;
use std::thread::Threads;

/// The greatest latency of the scenario of a text, where that is asked (docs/FORMATS.md, "What `latency` writes"), or
/// where the search does not end within its limits what it found; below it how that keeps the deadline of the target,
/// where this has one, and in at most which share of runs a packet leaves its range, where links of the text tell that of
/// their packets; and below that the ceiling of the scenario where that is asked for (docs/FORMATS.md, "What `ceiling`
/// writes"). Who watches is told of the search, by [`NoGate`](convoy_branch::NoGate) where nobody cares. The
/// faults are those of [`read_toml_asked`](convoy_toml::read_toml_asked), and `Fault::Memory`.
pub fn latency_answer<R: Threads + Wait + Sync, W: Watch + Sync>(
    rt: &R,
    alloc: Global,
    with_ceiling: bool,
    asked: &Asked,
    text: &[u8],
    options: &Options,
    watch: &W,
) -> Result<Answer, Fault>
    ensures { SaysUnlessMemory (latency_says with_ceiling asked.now options.now) text.now (reply_of result) }
{
    let searched = search_text(rt, alloc, asked, text, options, watch)?;
    let answer = latency_told(alloc, options, &searched)?;
    let Searched {
        read,
        measure,
        outcome,
        ..
    } = searched;
    let told = put_ceiling(with_ceiling, read.scenario(), measure, answer)?;
    Ok(told.with(read, greatest_of(&outcome)))
}

/// What `latency` tells of the outcome of a search for a scenario, and how it ends.
fn latency_told(alloc: Global, options: &Options, searched: &Searched) -> Result<Answer, Fault>
    ensures { (asked : Asked) (text : List ℕ) → SearchGives asked options.now text (Ok searched.now)
        → SaysUnlessMemory (LatencySays asked options.now) text (reply_of result) }
{
    let _limit = options.limit();
    let (measure, deadline, outside) = (&searched.measure, searched.deadline, searched.outside);
    match &searched.outcome {
        Outcome::Proved { certificate, .. } => {
            let latency = certificate.latency();
            Ok(Answer {
                done: judged(deadline, latency, latency, Done::Fine),
                text: greatest_text(alloc, measure, deadline, outside, latency)?,
                known: None,
            })
        }
        Outcome::Open { best, upper, .. } => {
            let least = best.latency();
            Ok(Answer {
                done: judged(deadline, least, *upper, Done::Open),
                text: open_text(alloc, measure, deadline, outside, least, *upper)?,
                known: None,
            })
        }
    }
}

/// The greatest latency in ticks, where the search found it.
fn greatest_of(outcome: &Outcome) -> Option<u32> {
    match outcome {
        Outcome::Proved { certificate, .. } => Some(certificate.latency()),
        Outcome::Open { .. } => None,
    }
}

/// The greatest latency, how it keeps the deadline, and how sure the ranges are.
#[tactic(auto, using(std::proofs::lemmas::List::append_assoc))]
fn greatest_text(
    alloc: Global,
    measure: &Option<Measure>,
    deadline: Option<u32>,
    outside: Option<u64>,
    latency: u32,
) -> Result<Vec<u8>, AllocError>
    ensures { IfOk result (λ text. text.items
        ≡ greatest_line measure.now latency
        ++ (verdict_text measure.now deadline latency latency ++ outside_text outside)) }
{
    let mut text = Vec::new(alloc);
    push_ticks_line("greatest", *measure, latency, &mut text)?;
    push_verdict(*measure, deadline, latency, latency, &mut text)?;
    push_outside(outside, &mut text)?;
    Ok(text)
}

/// The least and the most that the greatest latency may be, how it keeps the deadline, and how sure the ranges are.
#[tactic(auto, using(std::proofs::lemmas::List::append_assoc))]
fn open_text(
    alloc: Global,
    measure: &Option<Measure>,
    deadline: Option<u32>,
    outside: Option<u64>,
    best: u32,
    upper: u32,
) -> Result<Vec<u8>, AllocError>
    ensures { IfOk result (λ text. text.items
        ≡ open_line measure.now best upper
        ++ (verdict_text measure.now deadline best upper ++ outside_text outside)) }
{
    let mut text = Vec::new(alloc);
    push_open(*measure, best, upper, &mut text)?;
    push_verdict(*measure, deadline, best, upper, &mut text)?;
    push_outside(outside, &mut text)?;
    Ok(text)
}
