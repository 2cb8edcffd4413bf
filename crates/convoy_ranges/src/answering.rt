ghost use Rattle.std.specs.Prelude.{◌≡◌, string_bytes};
ghost use Rattle.std.specs.Result.{result_map_both};
ghost use Rattle.convoy_scenario.specs.Memory.{IsUnlessMemory};
ghost use Rattle.convoy_ranges.specs.Answers.{pairs_of, ranges_text};
ghost use Rattle.convoy_ranges.specs.declared.fault.RangesFault.TheVariants.{Memory};

use super::asked::RangesAsked;
use super::fault::{MOST_BYTES, RangesFault};
use super::links::{head_text, links_text};
use super::pairs;
use super::reading::sightings_of;
use super::sighting::Sighting;
use std::alloc::Global;

/// The ranges that a table of round trips gives, as tables of links that a scenario or a plan takes: one for each pair of
/// places, in the order in which they are first told, each number with its rule beside it. The least is what a signal
/// takes for the distance, or what is asked where none is known, rounded down to whole ticks; the most is the greatest
/// round trip of the pair, with the margin, rounded up to whole ticks, less the least of the way back.
///
/// A table is CSV, in one of two forms, told by its first line: `from,to,round_trip`, perhaps with `,kilometres`, and then
/// a line for each round trip; or an empty cell and names of places, and then a line for each place with its round trips
/// to these (docs/FORMATS.md, "Tables of round trips").
///
/// The faults are, in this order: the table is too long; the first line that has one, by its cells in their order, the
/// number of these first; there is no round trip; the first line of a pair that is one too many; the first pair that has
/// no range; and that memory ran out. Laws: [`range_laws`](super::range_laws).
#[tactic(auto, unfolding(crate::specs::Answers::ranges_text))]
pub fn ranges_text(alloc: Global, asked: &RangesAsked, table: &[u8]) -> Result<String, RangesFault>
    ensures { IsUnlessMemory Memory (ranges_text asked.now table.now)
        (result_map_both string_bytes (λ fault. fault) result) }
{
    let pairs = pairs_of(alloc, table)?;
    let links = links_text(alloc, asked, &pairs)?;
    let mut text = head_text(alloc, asked)?;
    text.push_str(links.as_str())?;
    Ok(text)
}

/// The pairs of a table: there is one at least.
fn pairs_of(alloc: Global, table: &[u8]) -> Result<Vec<Sighting>, RangesFault>
    ensures { IsUnlessMemory Memory (pairs_of table.now)
        (result_map_both (λ pairs. pairs.items) (λ fault. fault) result) }
{
    if table.len() > MOST_BYTES {
        return Err(RangesFault::TooLong);
    }
    let seen = sightings_of(alloc, table)?;
    if seen.is_empty() {
        return Err(RangesFault::Empty);
    }
    pairs::pairs_of(alloc, &seen)
}
