//! The text of the links of a trace.

ghost use Rattle.std.specs.Prelude.{◌≡◌, ◌≤◌, IfOk, length, string_bytes};
ghost use Rattle.convoy_draft.specs.declared.duration.TheConstants.{LONGEST_DURATION};
ghost use Rattle.convoy_trace_ranges.specs.Shares.{AreWithin, shares_of};
ghost use Rattle.convoy_trace_ranges.specs.Texts.{from_text, head_text, least_text, link_text, margin_text, most_text, packets_text, shares_text, time_text};

use super::links::Link;
use super::ranges::TickRange;
use super::shares::{Shares, shares_of};
use convoy_draft::{AllocResult, Duration, Name, TimeUnit};
use convoy_ranges::{RangesAsked, told};
use convoy_times::Measure;
use std::alloc::Global;

/// So many nanoseconds in milliseconds, with the unit.
#[tactic(auto, unfolding(crate::specs::Texts::time_text))]
fn time_text(alloc: Global, time: u64) -> AllocResult<String>
    requires { time ≤ LONGEST_DURATION }
    ensures { IfOk result (λ text. string_bytes text ≡ time_text time) }
{
    let Some(tick) = Duration::from_nanoseconds(time) else {
        unreachable!()
    };
    let unit = TimeUnit::Milliseconds;
    let number = Measure { tick, unit }.text(alloc, 1)?;
    format!(in alloc; "{number} ms")
}

/// How many packets there are.
#[tactic(auto, unfolding(crate::specs::Texts::packets_text))]
fn packets_text(alloc: Global, count: usize) -> AllocResult<String>
    ensures { IfOk result (λ text. string_bytes text ≡ packets_text count) }
{
    if count == 1 {
        format!(in alloc; "{count} packet")
    } else {
        format!(in alloc; "{count} packets")
    }
}

/// The line that says from which group the link leads; one that leads from the clients has none.
#[tactic(auto, unfolding(crate::specs::Texts::from_text))]
fn from_text(alloc: Global, from: &Name) -> AllocResult<String>
    ensures { IfOk result (λ text. string_bytes text ≡ from_text from.now) }
{
    let name = from.as_str();
    if name.is_empty() {
        return Ok(String::new(alloc));
    }
    format!(in alloc; "from = \"{name}\"\n")
}

/// The margin, where there is one, and whether it is more or less.
#[tactic(auto, unfolding(crate::specs::Texts::margin_text))]
fn margin_text(alloc: Global, asked: &RangesAsked, word: &str) -> AllocResult<String>
    ensures { IfOk result (λ text. string_bytes text ≡ margin_text asked.now word.now) }
{
    let margin = asked.rules().margin;
    if margin == 0 {
        return Ok(String::new(alloc));
    }
    format!(in alloc; ", with {margin} % {word}")
}

/// The line of the least.
#[tactic(auto, unfolding(crate::specs::Texts::least_text))]
fn least_text(alloc: Global, asked: &RangesAsked, link: &Link, least: u32) -> AllocResult<String>
    ensures { IfOk result (λ text. string_bytes text ≡ least_text asked.now link.now least) }
{
    let least = told(alloc, asked, least)?;
    let seen = time_text(alloc, link.least())?;
    let packets = packets_text(alloc, link.delays().len())?;
    let margin = margin_text(alloc, asked, "less")?;
    format!(in alloc; "least = \"{least}\" # {seen}, the least of {packets}{margin}\n")
}

/// Within which times shares of the packets came.
#[tactic(auto, unfolding(crate::specs::Texts::shares_text))]
fn shares_text(alloc: Global, shares: Shares) -> AllocResult<String>
    requires { AreWithin shares LONGEST_DURATION }
    ensures { IfOk result (λ text. string_bytes text ≡ shares_text shares) }
{
    let half = time_text(alloc, shares.half)?;
    let most = time_text(alloc, shares.most)?;
    let nearly_all = time_text(alloc, shares.nearly_all)?;
    let all_but_few = time_text(alloc, shares.all_but_few)?;
    format!(in alloc;
        "half within {half}, 90 % within {most}, 99 % within {nearly_all}, 99.9 % within {all_but_few}"
    )
}

/// The line of the most.
#[tactic(auto, unfolding(crate::specs::Texts::most_text))]
fn most_text(alloc: Global, asked: &RangesAsked, link: &Link, most: u32) -> AllocResult<String>
    ensures { IfOk result (λ text. string_bytes text ≡ most_text asked.now link.now most) }
{
    let most = told(alloc, asked, most)?;
    let seen = time_text(alloc, link.greatest())?;
    let packets = packets_text(alloc, link.delays().len())?;
    let margin = margin_text(alloc, asked, "more")?;
    let shares = shares_text(alloc, shares_of(alloc, link.delays())?)?;
    format!(in alloc; "most = \"{most}\" # {seen}, the greatest of {packets}{margin}; {shares}\n")
}

/// The table of a link, after an empty line.
#[tactic(auto, unfolding(crate::specs::Texts::link_text))]
pub(crate) fn link_text(
    alloc: Global,
    asked: &RangesAsked,
    link: &Link,
    range: TickRange,
) -> AllocResult<String>
    ensures { IfOk result (λ text. string_bytes text ≡ link_text asked.now link.now range) }
{
    let from = from_text(alloc, link.from())?;
    let to = link.to().as_str();
    let least = least_text(alloc, asked, link, range.least)?;
    let most = most_text(alloc, asked, link, range.most)?;
    format!(in alloc; "\n[[link]]\n{from}to = \"{to}\"\n{least}{most}")
}

/// What stands above the tables: the rules, and the length of a tick.
#[tactic(auto, unfolding(crate::specs::Texts::head_text))]
pub(crate) fn head_text(alloc: Global, asked: &RangesAsked) -> AllocResult<String>
    ensures { IfOk result (λ text. string_bytes text ≡ head_text asked.now) }
{
    let tick = told(alloc, asked, 1)?;
    format!(in alloc;
        "# Ranges of the packets of a trace: at least the least time that one took, at most the greatest, each with the margin,\n# in whole ticks of {tick}: the least is rounded down, the greatest up. A packet that was not seen may take longer.\n"
    )
}
