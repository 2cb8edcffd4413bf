ghost use Rattle.std.specs.Prelude.{◌≡◌, ◌++◌, OnOk};
ghost use Rattle.convoy_commands.specs.Ceilings.{ceiling_line};
ghost use Rattle.convoy_commands.specs.Outsides.{outside_text};
ghost use Rattle.convoy_commands.specs.ReplyLines.{open_line, ticks_line};
ghost use Rattle.convoy_commands.specs.Verdicts.{verdict_text};

use super::verdict::Verdict;
use convoy_lines::push_number;
use convoy_outside::push_percent;
use convoy_times::{Measure, push_told};
use std::alloc::AllocError;

/// Appends the line of a ceiling, in ticks and, where there is a measure, in its unit
/// (docs/FORMATS.md, "What `ceiling` writes"). Fails where memory runs out, and else never; a front of the
/// line may have been appended then.
pub fn push_ceiling(
    measure: Option<Measure>,
    ceiling: u32,
    out: &mut Vec<u8>,
) -> Result<(), AllocError>
    ensures { OnOk result (out.new.items ≡ out.old.items ++ ceiling_line measure ceiling) }
{
    push_ticks_line("ceiling", measure, ceiling, out)
}

/// Appends a line of a word and a number of ticks, which is told in the unit of the measure as well where there is one.
/// Fails where memory runs out, and else never; a front of the line may have been appended then.
#[tactic(auto, using(std::proofs::lemmas::List::append_assoc))]
pub fn push_ticks_line(
    word: &str,
    measure: Option<Measure>,
    ticks: u32,
    out: &mut Vec<u8>,
) -> Result<(), AllocError>
    ensures { OnOk result (out.new.items ≡ out.old.items ++ ticks_line word.now measure ticks) }
{
    out.extend_from_slice(word.as_bytes())?;
    out.push(b' ')?;
    push_number(out, ticks)?;
    push_told(measure, &[ticks], out)?;
    out.push(b'\n')?;
    Ok(())
}

/// Appends how a greatest latency that is at least and at most so many ticks keeps a deadline, where there is one: a
/// line with what is left to it or is too much, in ticks and, where there is a measure, in its unit (docs/FORMATS.md,
/// "Deadlines"). Fails where memory runs out, and else never; a front of the line may have been appended then.
pub fn push_verdict(
    measure: Option<Measure>,
    deadline: Option<u32>,
    least: u32,
    most: u32,
    out: &mut Vec<u8>,
) -> Result<(), AllocError>
    ensures { OnOk result (out.new.items ≡ out.old.items ++ verdict_text measure deadline least most) }
{
    let Some(deadline) = deadline else {
        return Ok(());
    };
    match Verdict::of(deadline, least, most) {
        Verdict::Within => push_ticks_line("within by", measure, deadline - most, out),
        Verdict::Beyond => push_ticks_line("beyond by", measure, least - deadline, out),
        Verdict::Undecided => Ok(out.extend_from_slice(b"undecided\n")?),
    }
}

/// Appends in at most which share of runs a packet leaves its range, in billionths, where that is known: a line that tells
/// it in per cent (docs/FORMATS.md, "How sure ranges are"). Fails where memory runs out, and else never; a front of the line
/// may have been appended then.
#[tactic(auto, using(std::proofs::lemmas::List::append_assoc))]
pub fn push_outside(outside: Option<u64>, out: &mut Vec<u8>) -> Result<(), AllocError>
    ensures { OnOk result (out.new.items ≡ out.old.items ++ outside_text outside) }
{
    let Some(billionths) = outside else {
        return Ok(());
    };
    out.extend_from_slice(b"a packet leaves its range in at most ")?;
    push_percent(billionths, out)?;
    out.extend_from_slice(b" % of runs\n")?;
    Ok(())
}

/// Appends the line of a search that did not end: the least and the most that the greatest latency
/// may be, in ticks and, where there is a measure, in its unit. Fails where memory runs out, and else never; a front of the
/// line may have been appended then.
#[tactic(auto, using(std::proofs::lemmas::List::append_assoc))]
pub fn push_open(
    measure: Option<Measure>,
    least: u32,
    most: u32,
    out: &mut Vec<u8>,
) -> Result<(), AllocError>
    ensures { OnOk result (out.new.items ≡ out.old.items ++ open_line measure least most) }
{
    out.extend_from_slice(b"open ")?;
    push_number(out, least)?;
    out.push(b' ')?;
    push_number(out, most)?;
    push_told(measure, &[least, most], out)?;
    out.push(b'\n')?;
    Ok(())
}
