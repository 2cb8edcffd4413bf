//! The lines that tell what was accepted, and the refusal of the certificate of another scenario.

ghost use Rattle.std.specs.Prelude.{◌≡◌, ◌++◌, IfOk, OnOk};
ghost use Rattle.convoy_scenario.specs.Scenario.{group_name_at, message_at};
ghost use Rattle.convoy_text_answers.specs.AcceptedLines.{certificate_told, count_line, counts_told, delay_line, differs_line, scenario_told, target_line};

use convoy_certificate::Certificate;
use convoy_lines::{push_further_word, push_number};
use convoy_scenario::scenario_laws::targets_are_groups;
use convoy_scenario::{Part, Scenario, TimeUnit};
use convoy_times::{Measure, push_told};
use itoa::Buffer;
use std::alloc::{AllocError, Global};

/// The refusal of a valid certificate that differs in this part from what is wanted, as a line (docs/FORMATS.md,
/// "Refusals"). Fails where memory runs out, and else never.
pub fn differs_line(alloc: Global, part: Part) -> Result<Vec<u8>, AllocError>
    ensures { IfOk result (λ line. line.items ≡ differs_line part) }
{
    let mut line = Vec::new(alloc);
    line.extend_from_slice(b"refused 37 scenario differs in ")?;
    line.extend_from_slice(part.word().as_bytes())?;
    line.push(b'\n')?;
    Ok(line)
}

/// Appends what is told of an accepted certificate, with times in the unit that is asked for.
pub(crate) fn push_certificate(
    certificate: &Certificate,
    unit: Option<TimeUnit>,
    out: &mut Vec<u8>,
) -> Result<(), AllocError>
    ensures { OnOk result (out.new.items ≡ out.old.items ++ certificate_told unit certificate.now) }
{
    let scenario = certificate.scenario();
    push_scenario(scenario, Measure::of(scenario, unit, None), out)?;
    push_count_line(out, "nodes", certificate.nodes().len())
}

/// Appends what is told of a scenario.
#[tactic(auto, using(std::proofs::lemmas::List::append_assoc))]
fn push_scenario(
    scenario: &Scenario,
    measure: Option<Measure>,
    out: &mut Vec<u8>,
) -> Result<(), AllocError>
    ensures { OnOk result (out.new.items ≡ out.old.items ++ scenario_told measure scenario.now) }
{
    push_target_line(scenario, out)?;
    push_delay_line(scenario, measure, out)?;
    push_counts(scenario, out)
}

/// Appends how many groups, messages and links a scenario has.
fn push_counts(scenario: &Scenario, out: &mut Vec<u8>) -> Result<(), AllocError>
    ensures { OnOk result (out.new.items ≡ out.old.items ++ counts_told scenario.now) }
{
    push_count_line(out, "groups", scenario.group_count())?;
    push_count_line(out, "messages", scenario.message_count())?;
    push_count_line(out, "links", scenario.link_count())
}

/// Appends the line of the target: the names of its message and of its group.
fn push_target_line(scenario: &Scenario, out: &mut Vec<u8>) -> Result<(), AllocError>
    ensures { OnOk result (out.new.items ≡ out.old.items ++ target_line scenario.now) }
{
    out.extend_from_slice(b"target")?;
    push_further_word(out, target_message_name(scenario))?;
    push_further_word(out, target_group_name(scenario))?;
    out.push(b'\n')?;
    Ok(())
}

/// The name of the message of which the latency is asked.
fn target_message_name(scenario: &Scenario) -> &str
    ensures { result.now ≡ (message_at scenario.now scenario.now.target_message).name }
{
    scenario.message_name(scenario.target_message())
}

/// The name of the group at which the latency is asked.
fn target_group_name(scenario: &Scenario) -> &str
    ensures { result.now ≡ group_name_at scenario.now scenario.now.target_group }
{
    targets_are_groups();
    scenario.group_name(scenario.target_group())
}

/// Appends the line of D, in ticks and, where there is a measure, in its unit.
fn push_delay_line(
    scenario: &Scenario,
    measure: Option<Measure>,
    out: &mut Vec<u8>,
) -> Result<(), AllocError>
    ensures { OnOk result (out.new.items ≡ out.old.items ++ delay_line measure scenario.now) }
{
    let delay = u32::from(scenario.delay());
    out.extend_from_slice(b"delay ")?;
    push_number(out, delay)?;
    push_told(measure, &[delay], out)?;
    out.push(b'\n')?;
    Ok(())
}

/// Appends the line of how many there are of what a word names.
fn push_count_line(out: &mut Vec<u8>, word: &str, count: usize) -> Result<(), AllocError>
    ensures { OnOk result (out.new.items ≡ out.old.items ++ count_line word.now count) }
{
    let mut buffer = Buffer::new();
    out.extend_from_slice(word.as_bytes())?;
    push_further_word(out, buffer.format(count))?;
    out.push(b'\n')?;
    Ok(())
}
