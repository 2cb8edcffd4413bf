ghost use Rattle.std.specs.Prelude.{◌≡◌, ◌<◌, ◌≤◌, ◌*◌, length, Err, IfErr, IfOk};
ghost use Rattle.convoy_scenario.specs.WellFormed.{IsScenario};
ghost use Rattle.convoy_outages.specs.Spans.{IsThrough, span_asked};
ghost use Rattle.convoy_outages.specs.OutageCeiling.{IsCeilingThrough, IsUpperThrough, ceiling_through, outage_ceiling_at, slowest_to_commit};

use crate::outage_laws::outage_ceiling_holds;
use crate::{Outage, OutageFault, Span, span_asked};
use convoy_ceiling::{goes_to, longest_to_commit};
use convoy_scenario::Scenario;

/// The ceiling of a message at a group through outages that last so many ticks in all, in ticks: whatever messages of the
/// scenario's kinds are issued, of any number and at any ticks, none of this message's kind has a greater latency at the
/// group where packets keep the links but for outages (docs/PROTOCOL.md, "Outages"). Of the scenario's messages only the
/// senders and the destinations count.
pub fn outage_ceiling(scenario: &Scenario, span: Span, message: usize, group: usize) -> u32
    requires { message < length scenario.now.multicasts }
    ensures value { result ≡ outage_ceiling_at scenario.now span message group }
    ensures lawful { IsScenario scenario.now }
    ensures holds { IsUpperThrough span scenario.now message group result }
{
    outage_ceiling_holds();
    longest_to_commit(scenario, message, group) + slowest_to_commit(scenario, group) + span.ticks()
}

/// The ceiling of a message at a group through outages that are asked for; none where none are. Fails as [`span_asked`]
/// does.
pub fn asked_ceiling(
    scenario: &Scenario,
    outage: Option<Outage>,
    message: usize,
    group: usize,
) -> Result<Option<u32>, OutageFault>
    requires { message < length scenario.now.multicasts }
    ensures told { IfOk result (IsThrough outage scenario.now message group) }
    ensures refused { IfErr result (λ cause. span_asked outage scenario.now ≡ Err cause) }
{
    let span = span_asked(outage, scenario)?;
    Ok(ceiling_through(scenario, span, message, group))
}

/// The ceiling through outages of a span, where there is one, and else none.
pub fn ceiling_through(
    scenario: &Scenario,
    span: Option<Span>,
    message: usize,
    group: usize,
) -> Option<u32>
    requires { message < length scenario.now.multicasts }
    ensures value { result ≡ ceiling_through span scenario.now message group }
    ensures holds { IsCeilingThrough span scenario.now message group }
{
    match span {
        Some(span) => Some(outage_ceiling(scenario, span, message, group)),
        None => None,
    }
}

/// The longest from the issue of any message to a group to its commit there.
fn slowest_to_commit(scenario: &Scenario, group: usize) -> u32
    ensures value { result ≡ slowest_to_commit scenario.now group }
    ensures lawful { IsScenario scenario.now }
    ensures fits { result ≤ 2 * u16.MAX }
{
    let mut longest = 0u32;
    for message in 0..scenario.message_count() {
        if goes_to(scenario, message, group) {
            longest = longest.max(longest_to_commit(scenario, message, group));
        }
    }
    longest
}
