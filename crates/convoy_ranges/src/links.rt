//! The text of ranges.

ghost use Rattle.std.specs.Prelude.{◌≡◌, ◌+◌, ◌<◌, ◌^◌, IfOk, string_bytes};
ghost use Rattle.std.specs.Result.{result_map_both};
ghost use Rattle.convoy_scenario.specs.Memory.{IsUnlessMemory};
ghost use Rattle.convoy_ranges.specs.Answers.{links_text};
ghost use Rattle.convoy_ranges.specs.Texts.{both_text, head_text, least_rule, least_text, link_text, margin_text, most_text, told};
ghost use Rattle.convoy_ranges.specs.declared.fault.RangesFault.TheVariants.{Memory};

use super::asked::RangesAsked;
use super::fault::RangesFault;
use super::ranges::{Range, range_at};
use super::sighting::Sighting;
use convoy_draft::{AllocResult, Duration, TimeUnit};
use convoy_times::Measure;
use std::alloc::Global;

/// So many ticks in milliseconds, with the unit. Fails where memory runs out, and else never.
#[tactic(auto, unfolding(crate::specs::Texts::told))]
pub fn told(alloc: Global, asked: &RangesAsked, ticks: u32) -> AllocResult<String>
    ensures { IfOk result (λ text. string_bytes text ≡ told asked.now ticks) }
{
    let Some(tick) = Duration::from_nanoseconds(asked.rules().tick) else {
        unreachable!()
    };
    let unit = TimeUnit::Milliseconds;
    let number = Measure { tick, unit }.text(alloc, ticks)?;
    format!(in alloc; "{number} ms")
}

/// The line that says that the link leads both ways; one from a place to itself has none.
fn both_text(pair: &Sighting) -> &'static str
    ensures { result.now ≡ both_text pair.now }
{
    if pair.from.is_same(&pair.to) {
        ""
    } else {
        "both = true\n"
    }
}

/// By which rule a packet takes the least.
#[tactic(auto, unfolding(crate::specs::Texts::least_rule))]
fn least_rule(alloc: Global, asked: &RangesAsked, kilometres: Option<u32>) -> AllocResult<String>
    ensures { IfOk result (λ text. string_bytes text ≡ least_rule asked.now kilometres) }
{
    match kilometres {
        Some(distance) => {
            let speed = asked.rules().speed.kilometres();
            format!(in alloc; "{distance} km at {speed} km a millisecond")
        }
        None => String::from_str(alloc, "no distance is known"),
    }
}

/// The margin, where there is one.
#[tactic(auto, unfolding(crate::specs::Texts::margin_text))]
fn margin_text(alloc: Global, asked: &RangesAsked) -> AllocResult<String>
    ensures { IfOk result (λ text. string_bytes text ≡ margin_text asked.now) }
{
    let margin = asked.rules().margin;
    if margin == 0 {
        return Ok(String::new(alloc));
    }
    format!(in alloc; " with {margin} % more")
}

/// The line of the least.
#[tactic(auto, unfolding(crate::specs::Texts::least_text))]
fn least_text(
    alloc: Global,
    asked: &RangesAsked,
    kilometres: Option<u32>,
    least: u32,
) -> AllocResult<String>
    ensures { IfOk result (λ text. string_bytes text ≡ least_text asked.now kilometres least) }
{
    let least = told(alloc, asked, least)?;
    let rule = least_rule(alloc, asked, kilometres)?;
    format!(in alloc; "least = \"{least}\" # {rule}\n")
}

/// The line of the most, which is the rest of the round trip of a line.
#[tactic(auto, unfolding(crate::specs::Texts::most_text))]
fn most_text(
    alloc: Global,
    asked: &RangesAsked,
    line: usize,
    least: u32,
    most: u32,
) -> AllocResult<String>
    requires { least + most < 2 ^ 17 }
    ensures { IfOk result (λ text. string_bytes text ≡ most_text asked.now line least most) }
{
    let whole = told(alloc, asked, least + most)?;
    let least = told(alloc, asked, least)?;
    let most = told(alloc, asked, most)?;
    let margin = margin_text(alloc, asked)?;
    format!(in alloc;
        "most = \"{most}\" # {whole}, the round trip of line {line}{margin}, less {least} of the way back\n"
    )
}

/// The table of a pair, after an empty line.
#[tactic(auto, unfolding(crate::specs::Texts::link_text))]
fn link_text(
    alloc: Global,
    asked: &RangesAsked,
    pair: &Sighting,
    range: Range,
) -> AllocResult<String>
    requires { range.least + range.most < 2 ^ 17 }
    ensures { IfOk result (λ text. string_bytes text ≡ link_text asked.now pair.now range) }
{
    let (from, to) = (pair.from.as_str(), pair.to.as_str());
    let both = both_text(pair);
    let least = least_text(alloc, asked, pair.kilometres, range.least)?;
    let most = most_text(alloc, asked, pair.line, range.least, range.most)?;
    format!(in alloc; "\n[[link]]\nfrom = \"{from}\"\nto = \"{to}\"\n{both}{least}{most}")
}

/// What stands above the tables: the rules, and the length of a tick.
#[tactic(auto, unfolding(crate::specs::Texts::head_text))]
pub(crate) fn head_text(alloc: Global, asked: &RangesAsked) -> AllocResult<String>
    ensures { IfOk result (λ text. string_bytes text ≡ head_text asked.now) }
{
    let tick = told(alloc, asked, 1)?;
    format!(in alloc;
        "# Ranges of one way, from round trips: at least what the distance takes, at most the greatest round trip less the\n# least of the way back, in whole ticks of {tick}: the least is rounded down, the round trip up.\n"
    )
}

/// The tables of pairs, one after the other, where each has a range.
pub(crate) fn links_text(
    alloc: Global,
    asked: &RangesAsked,
    pairs: &[Sighting],
) -> Result<String, RangesFault>
    ensures { IsUnlessMemory Memory (links_text asked.now pairs.now)
        (result_map_both string_bytes (λ fault. fault) result) }
{
    let mut text = String::new(alloc);
    for pair in pairs {
        let range = range_at(asked, pair)?;
        let link = link_text(alloc, asked, pair, range)?;
        text.push_str(link.as_str())?;
    }
    Ok(text)
}
