ghost use Rattle.std.specs.Prelude.{◌≡◌, string_bytes};
ghost use Rattle.std.specs.Result.{result_map_both};
ghost use Rattle.convoy_scenario.specs.Memory.{IsUnlessMemory};
ghost use Rattle.convoy_traces.specs.declared.fault.TraceFault.TheVariants.{Memory};
ghost use Rattle.convoy_trace_ranges.specs.Answers.{trace_ranges_text, with_links};

use super::links::{Link, links_of_text};
use super::ranges::range_of;
use super::texts::{head_text, link_text};
use convoy_draft::TimeUnit;
use convoy_ranges::RangesAsked;
use convoy_traces::TraceFault;
use std::alloc::Global;

/// The ranges of the links of a trace, as tables of links that a scenario or a plan takes: one for each two places of
/// which it tells that a packet was sent at the one and came to the other, in the order in which it first tells of it,
/// each number with its rule beside it. The least is the least time that a packet took, with the margin less, rounded down
/// to whole ticks, and a tick at least; the most is the greatest, with the margin more, rounded up.
///
/// The faults are those of [`links_of_text`]; before that memory ran out comes the first link whose range is longer than
/// a scenario takes, with the line of the packet that took the most.
#[tactic(auto, unfolding(crate::specs::Answers::trace_ranges_text))]
pub fn trace_ranges_text(
    alloc: Global,
    asked: &RangesAsked,
    unit: TimeUnit,
    text: &[u8],
) -> Result<String, TraceFault>
    ensures { IsUnlessMemory Memory (trace_ranges_text asked.now unit text.now)
        (result_map_both string_bytes (λ fault. fault) result) }
{
    let links = links_of_text(alloc, Some(unit), text)?;
    let head = head_text(alloc, asked)?;
    with_links(alloc, asked, head, &links)
}

/// A text with the tables of links, where each has a range.
fn with_links(
    alloc: Global,
    asked: &RangesAsked,
    head: String,
    links: &[Link],
) -> Result<String, TraceFault>
    ensures { IsUnlessMemory Memory (with_links asked.now (string_bytes head) links.now)
        (result_map_both string_bytes (λ fault. fault) result) }
{
    let mut text = head;
    for link in links {
        let range = range_of(asked, link)?;
        let table = link_text(alloc, asked, link, range)?;
        text.push_str(table.as_str())?;
    }
    Ok(text)
}
