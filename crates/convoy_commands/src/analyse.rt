ghost use Rattle.std.specs.Prelude.{◌≡◌, ◌++◌, None, IfOk};
ghost use Rattle.convoy_commands.specs.ReplyLines.{open_line, schedule_text};
ghost use Rattle.convoy_commands.specs.Replies.{SaysUnlessMemory, reply_of};
ghost use Rattle.convoy_commands.specs.Searches.{AnalyseSays};

use super::answer::{Answer, Known};
use super::done::Done;
use super::fault::Fault;
use super::reply_lines::push_open;
use super::search::{Searched, search_text};
use super::verdict::judged;
use super::watch::Watch;
use convoy_branch::{Options, Outcome};
use convoy_certificate::certificate_laws::{texts_are_read, texts_are_short};
use convoy_certificate::{push_schedule, text_of};
use convoy_checker::tree_laws::{checked_is_valid, valid_is_greatest};
use convoy_scenario::Scenario;
use convoy_sim::Record;
use convoy_toml::Asked;
use std::alloc::{AllocError, Global};
use std::sync::Wait;
use std::thread::Threads;

/// A certificate of the greatest latency of the scenario of a text, where that is asked (docs/FORMATS.md, "What
/// `analyse` writes"), or where the search does not end within its limits what it found. Where the target has a
/// deadline, the end says how that is kept. Who watches is told of the search, by [`NoGate`](convoy_branch::NoGate)
/// where nobody cares. The faults are those of [`read_toml_asked`](convoy_toml::read_toml_asked), and `Fault::Memory`.
pub fn analyse_answer<R: Threads + Wait + Sync, W: Watch + Sync>(
    rt: &R,
    alloc: Global,
    asked: &Asked,
    text: &[u8],
    options: &Options,
    watch: &W,
) -> Result<Answer, Fault>
    ensures { SaysUnlessMemory (AnalyseSays asked.now options.now) text.now (reply_of result) }
{
    texts_are_read();
    texts_are_short();
    checked_is_valid();
    valid_is_greatest();
    let _limit = options.limit();
    let Searched {
        read,
        deadline,
        outcome,
        ..
    } = search_text(rt, alloc, asked, text, options, watch)?;
    match outcome {
        Outcome::Proved { certificate, .. } => {
            let latency = certificate.latency();
            Ok(Answer {
                done: judged(deadline, latency, latency, Done::Fine),
                text: text_of(alloc, &certificate)?,
                known: Some(Known::of(read, Some(latency))),
            })
        }
        Outcome::Open { best, upper, .. } => Ok(Answer {
            done: judged(deadline, best.latency(), upper, Done::Open),
            text: open_text(alloc, read.scenario(), &best, upper)?,
            known: Some(Known::of(read, None)),
        }),
    }
}

/// The best latency and the upper bound, and a schedule of that latency.
fn open_text(
    alloc: Global,
    scenario: &Scenario,
    best: &Record,
    upper: u32,
) -> Result<Vec<u8>, AllocError>
    ensures { IfOk result (λ text. text.items
        ≡ open_line None best.now.latency upper ++ schedule_text scenario.now best.now.schedule) }
{
    let mut text = Vec::new(alloc);
    push_open(None, best.latency(), upper, &mut text)?;
    push_schedule(alloc, scenario, best.schedule(), &mut text)?;
    Ok(text)
}
