ghost use Rattle.std.specs.Prelude.{◌≡◌, ◌==◌, ◌++◌, IfOk, OnOk, if◌then◌else◌};
ghost use Rattle.convoy_ceiling.specs.Ceiling.{ceiling_of};
ghost use Rattle.convoy_commands.specs.declared.done.Done.TheVariants.{Fine, Open};
ghost use Rattle.convoy_commands.specs.Ceilings.{CeilingSays, ceiling_text, through_line};
ghost use Rattle.convoy_commands.specs.Replies.{SaysUnlessMemory, reply_of};

use super::answer::{Answer, Known};
use super::done::Done;
use super::fault::Fault;
use super::reply_lines::{push_ceiling, push_ticks_line, push_verdict};
use super::verdict::{deadline_at, judged};
use convoy_ceiling::{Found, seek_traffic, target_ceiling};
use convoy_lines::push_number_line;
use convoy_outages::{Outage, asked_ceiling};
use convoy_scenario::{Scenario, TimeUnit};
use convoy_times::Measure;
use convoy_toml::{Asked, read_toml_asked};
use convoy_toml_writer::write_toml;
use std::alloc::{AllocError, Global};

/// The ceiling of the scenario of a text, where that is asked, and traffic that is sought by so many simulations at
/// most, with how latencies in traffic keep the deadline of the target, where this has one (docs/FORMATS.md, "What
/// `ceiling` writes"); where outages are asked for, the ceiling through these stands below it, and deadlines are judged
/// by that. Times are told in the unit that is given. The faults are those of [`read_toml_asked`]; `Fault::Outage`, where
/// outages last for a duration and it is not known how long a tick is, or longer than they may; and `Fault::Memory`.
pub fn ceiling_answer(
    alloc: Global,
    simulations: u64,
    outage: Option<Outage>,
    asked: &Asked,
    unit: Option<TimeUnit>,
    text: &[u8],
) -> Result<Answer, Fault>
    ensures { SaysUnlessMemory (CeilingSays outage asked.now unit) text.now (reply_of result) }
{
    let input = read_toml_asked(alloc, text, asked)?;
    let scenario = input.scenario;
    let message = scenario.target_message();
    let group = scenario.target_group();
    let through = asked_ceiling(&scenario, outage, message, group)?;
    let deadline = deadline_at(&input.deadlines, message);
    let measure = Measure::of(&scenario, unit, input.unit);
    let ceiling = target_ceiling(&scenario);
    let found = seek_traffic(alloc, &scenario, simulations)?;
    let text = told(
        alloc, &scenario, &measure, deadline, ceiling, through, &found,
    )?;
    let latency = found.record.latency();
    let most = through.unwrap_or(ceiling);
    let done = judged(deadline, latency, most, ending(ceiling, latency));
    Ok(Answer {
        done,
        text,
        known: Some(Known {
            scenario,
            greatest: None,
            plain: input.plain,
        }),
    })
}

/// How the command ends without a deadline: well where the latency is the ceiling.
fn ending(ceiling: u32, latency: u32) -> Done
    ensures { result ≡ (if latency == ceiling then Fine else Open) }
{
    if latency == ceiling {
        Done::Fine
    } else {
        Done::Open
    }
}

/// The ceiling of a scenario, that through outages where there is one, how latencies in traffic keep the deadline, and the
/// traffic that was found.
fn told(
    alloc: Global,
    scenario: &Scenario,
    measure: &Option<Measure>,
    deadline: Option<u32>,
    ceiling: u32,
    through: Option<u32>,
    found: &Found,
) -> Result<Vec<u8>, AllocError>
    requires ceiling { ceiling ≡ ceiling_of scenario.now }
    requires traffic { found.now.record.scenario ≡ found.now.traffic }
    ensures { IfOk result (λ text. text.items ≡ ceiling_text measure.now deadline through scenario.now found.now.record) }
{
    let mut text = Vec::new(alloc);
    push_ceiling(*measure, ceiling, &mut text)?;
    push_through(*measure, through, &mut text)?;
    let latency = found.record.latency();
    push_number_line(&mut text, "attained", latency)?;
    let most = through.unwrap_or(ceiling);
    push_verdict(*measure, deadline, latency, most, &mut text)?;
    write_toml(found.traffic.scenario(), found.record.schedule(), &mut text)?;
    Ok(text)
}

/// Appends the line of a ceiling through outages, where there is one.
fn push_through(
    measure: Option<Measure>,
    through: Option<u32>,
    out: &mut Vec<u8>,
) -> Result<(), AllocError>
    ensures { OnOk result (out.new.items ≡ out.old.items ++ through_line measure through) }
{
    match through {
        Some(ceiling) => push_ticks_line("outage-ceiling", measure, ceiling, out),
        None => Ok(()),
    }
}
