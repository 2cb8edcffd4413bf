ghost use Rattle.std.specs.Prelude.{◌≡◌, ◌+◌, ◌<◌, ◌≤◌, ◌==◌, ◌^◌, ℕ, length, IfSome, unwrap_or};
ghost use Rattle.convoy_packets.specs.Assignment.{IsAssignment};
ghost use Rattle.convoy_packets.specs.Table.{table_of};
ghost use Rattle.convoy_packets.specs.declared.packet.Packet.TheVariants.{Multicast, Propose};
ghost use Rattle.convoy_scenario.specs.Scenario.{message_at, is_addressed};
ghost use Rattle.convoy_sim.specs.Run.{IsRunOf};
ghost use Rattle.convoy_timeline.specs.Causes.{explanation_of, flight_in};
ghost use Rattle.convoy_timeline.specs.ExplanationWords.{explanation_told, holder_told, holder_told_at, is_last_ahead_told};
ghost use Rattle.convoy_timeline.specs.ExplanationWords.{issue_told, last_proposal_told, last_proposer_told, propose_told};
ghost use Rattle.convoy_timeline.specs.ExplanationWords.{is_tied_before_told, tied_before_told};
ghost use Rattle.convoy_timeline.specs.RunWords.{committed_told, delivered_told, final_told, proposal_told, stamped_told};

use super::explanation::{Explanation, Flight, Holder, LastProposal};
use super::explanation_laws::{holders_hold, last_proposals_commit};
use super::told::{committed, delivered, final_stamp, proposal, stamped};
use convoy_packets::{Instance, PacketTable, Schedule};
use convoy_scenario::Scenario;
use convoy_sim::Run;
use convoy_sim::protocol_laws::{final_stamp_is_local, local_stamp_names_group};

/// Why the target of an instance is delivered when it is, in its run under a schedule
/// (docs/PROTOCOL.md).
pub fn explain(instance: &Instance, schedule: &Schedule, run: &Run) -> Explanation
    requires assignment { IsAssignment instance.now schedule.now }
    requires run { IsRunOf instance.now schedule.now run.now }
    ensures { result ≡ explanation_of instance.now schedule.now }
{
    final_stamp_is_local();
    local_stamp_names_group();
    holders_hold();
    last_proposals_commit();
    // A scenario is well formed.
    let _groups = instance.group_count();
    explain_told(instance, schedule, run)
}

/// As the run tells it.
#[tactic(auto, unfolding(crate::specs::ExplanationWords::explanation_told))]
fn explain_told(instance: &Instance, schedule: &Schedule, run: &Run) -> Explanation
    ensures { result ≡ explanation_told instance.now (table_of instance.now).packets schedule.now run.now }
{
    let (message, group) = (instance.target_message(), instance.target_group());
    let holder = holder(instance.scenario(), run, message, group);
    let awaited = holder.unwrap_or(message);
    let giver = final_stamp(run, message).group;
    Explanation {
        latency: run.latency(),
        delivered: delivered(run, message, group),
        committed: committed(run, message, group),
        stamped: stamped(run, message),
        tied: tied_before(instance.scenario(), run, message, giver),
        holder: holder.map(|message| Holder {
            message,
            proposal: proposal(run, message, group),
        }),
        last: last_proposal(instance, schedule, run, awaited, group),
    }
}

/// The message that holds a message back at a group up to its delivery.
#[tactic(auto, unfolding(crate::specs::ExplanationWords::holder_told))]
fn holder(scenario: &Scenario, run: &Run, message: usize, group: usize) -> Option<usize>
    ensures value { result ≡ holder_told scenario.now run.now message group }
    ensures known { IfSome result (λ n. n < length scenario.now.multicasts) }
{
    if committed(run, message, group) == delivered(run, message, group) {
        return None;
    }
    for other in 0..scenario.message_count() {
        if is_last_ahead(scenario, run, message, group, other) {
            return Some(other);
        }
    }
    None
}

/// Whether another message is ahead of a message at a group, and is committed there as that one is
/// delivered.
fn is_last_ahead(scenario: &Scenario, run: &Run, message: usize, group: usize, other: usize) -> bool
    requires { other < length scenario.now.multicasts }
    ensures { result ≡ is_last_ahead_told scenario.now run.now message group other }
{
    is_addressed(scenario, other, group)
        && proposal(run, other, group)
            .stamp
            .is_less(final_stamp(run, message))
        && committed(run, other, group) == delivered(run, message, group)
}

/// The message that comes to a group in the tick in which a message does, and before it.
#[tactic(auto, unfolding(crate::specs::ExplanationWords::tied_before_told))]
fn tied_before(scenario: &Scenario, run: &Run, message: usize, group: usize) -> Option<usize>
    ensures { result ≡ tied_before_told scenario.now run.now message group }
{
    for other in 0..scenario.message_count() {
        if is_tied_before(scenario, run, message, group, other) {
            return Some(other);
        }
    }
    None
}

/// Whether another message comes to a group in the tick in which a message does, and before it.
fn is_tied_before(
    scenario: &Scenario,
    run: &Run,
    message: usize,
    group: usize,
    other: usize,
) -> bool
    requires { other < length scenario.now.multicasts }
    ensures { result ≡ is_tied_before_told scenario.now run.now message group other }
{
    let (here, there) = (proposal(run, message, group), proposal(run, other, group));
    is_addressed(scenario, other, group)
        && there.tick == here.tick
        && there.stamp.is_less(here.stamp)
}

/// Whether a message goes to a group.
fn is_addressed(scenario: &Scenario, message: usize, group: usize) -> bool
    requires { message < length scenario.now.multicasts }
    ensures { result ≡ is_addressed (message_at scenario.now message) group }
{
    scenario.destinations(message).iter().any(|to| *to == group)
}

/// How the last proposal for a message comes to a group.
fn last_proposal(
    instance: &Instance,
    schedule: &Schedule,
    run: &Run,
    message: usize,
    group: usize,
) -> LastProposal
    requires { message < length instance.now.multicasts }
    ensures { result ≡ last_proposal_told instance.now (table_of instance.now).packets schedule.now run.now message group }
{
    let from = last_proposer(instance, schedule, run, message, group);
    LastProposal {
        message,
        issued: issued(instance, schedule, message),
        from,
        sent: sent(instance.table(), schedule, message, from),
        proposal: proposal(run, message, from),
        answered: answered(instance.table(), schedule, message, from, group),
        committed: committed(run, message, group),
    }
}

/// The group whose proposal for a message comes last to a group.
#[tactic(auto, unfolding(crate::specs::ExplanationWords::last_proposer_told))]
fn last_proposer(
    instance: &Instance,
    schedule: &Schedule,
    run: &Run,
    message: usize,
    group: usize,
) -> usize
    requires { message < length instance.now.multicasts }
    ensures { result ≡ last_proposer_told instance.now (table_of instance.now).packets schedule.now run.now message group }
{
    let table = instance.table();
    for from in instance.destinations(message) {
        if comes_last(table, schedule, run, message, group, *from) {
            return *from;
        }
    }
    group
}

/// Whether the proposal of a group for a message comes to another group as that one commits it.
fn comes_last(
    table: &PacketTable,
    schedule: &Schedule,
    run: &Run,
    message: usize,
    group: usize,
    from: usize,
) -> bool
    ensures { result ≡ (propose_told table.now.packets schedule.now run.now message group from
        == committed_told run.now message group) }
{
    let delay = u64::from(table.propose_delay(schedule, message, from, group));
    let tick = u64::from(proposal(run, message, from).tick) + delay;
    tick == u64::from(committed(run, message, group))
}

/// The tick at which a message is issued: the first at which it may be, and its wait.
fn issued(instance: &Instance, schedule: &Schedule, message: usize) -> u32
    requires { message < length instance.now.multicasts }
    ensures { result ≡ issue_told instance.now (table_of instance.now).packets schedule.now message }
{
    let wait = instance.table().wait_in(schedule, message);
    instance.issue_tick(message) + u32::from(wait)
}

/// The message on its way to a group.
fn sent(table: &PacketTable, schedule: &Schedule, message: usize, to: usize) -> Option<Flight>
    ensures { result ≡ flight_in table.now.packets schedule.now.delays (Multicast message to) }
{
    let packet = table.multicast_to(message, to)?;
    let delay = table.multicast_delay(schedule, message, to);
    Some(Flight { packet, delay })
}

/// The proposal of a group for the message on its way to a group.
fn answered(
    table: &PacketTable,
    schedule: &Schedule,
    message: usize,
    from: usize,
    to: usize,
) -> Option<Flight>
    ensures { result ≡ flight_in table.now.packets schedule.now.delays (Propose message from to) }
{
    let packet = table.propose(message, from, to)?;
    let delay = table.propose_delay(schedule, message, from, to);
    Some(Flight { packet, delay })
}
