//! The range that the packets of a link give.

ghost use Rattle.std.specs.Prelude.{◌≡◌, ◌≤◌};
ghost use Rattle.convoy_draft.specs.declared.duration.TheConstants.{LONGEST_DURATION};
ghost use Rattle.convoy_ranges.specs.Rules.{AreRules};
ghost use Rattle.convoy_trace_ranges.specs.Ranges.{least_of, most_of, range_of};

use super::links::Link;
use convoy_draft::GREATEST_DELAY;
use convoy_ranges::{RangeRules, RangesAsked, round_trip_of};
use convoy_traces::{Cause, TraceFault};

/// What a packet may take, in ticks.
#[derive(Clone, Copy)]
pub struct TickRange {
    pub least: u32,
    pub most: u32,
}

/// How many ticks a packet takes at least, of which the least that was seen took so many nanoseconds.
fn least_of(rules: RangeRules, least: u64) -> u64
    requires rules { AreRules rules }
    requires within { least ≤ LONGEST_DURATION }
    ensures { result ≡ least_of rules least }
{
    let share = 100_u64.saturating_sub(u64::from(rules.margin));
    (least * share / (100 * rules.tick)).max(1)
}

/// How many ticks a packet takes at most, of which the greatest that was seen took so many nanoseconds.
fn most_of(rules: RangeRules, greatest: u64) -> u64
    requires rules { AreRules rules }
    requires within { greatest ≤ LONGEST_DURATION }
    ensures { result ≡ most_of rules greatest }
{
    round_trip_of(rules, greatest).max(1)
}

/// The range of a link.
pub(crate) fn range_of(asked: &RangesAsked, link: &Link) -> Result<TickRange, TraceFault>
    ensures { result ≡ range_of asked.now link.now }
{
    let rules = asked.rules();
    let least = least_of(rules, link.least());
    let most = most_of(rules, link.greatest());
    if most > u64::from(GREATEST_DELAY) {
        return Err(TraceFault::Line(link.line(), Cause::Wide));
    }
    Ok(TickRange {
        least: least as u32,
        most: most as u32,
    })
}
