ghost use Rattle.std.specs.Prelude.{◌≡◌, IfOk, find, option_copied};
ghost use Rattle.convoy_draft.specs.Checks.{is_among};
ghost use Rattle.convoy_replicas.specs.Replicas.{replica_ticks, replicas_of, seen, span_of_group, ticks_of_groups, ticks_of_replicas, within_greatest};

use convoy_scenario::naming::draft_groups;
use convoy_scenario::{GREATEST_DELAY, Name, Scenario};
use convoy_toml::{WrittenAcceptance, WrittenTime};
use std::alloc::{AllocError, Global};
use thiserror::Error;

/// Why it can't be told how many ticks a packet takes between the leader of a group and its replicas.
#[derive(Clone, Copy, Debug, PartialEq, Eq, Error)]
pub enum ReplicaFault {
    /// It takes a duration, and it is not known how long a tick does.
    #[error("a packet to a replica takes a duration, and the length of a tick is not known")]
    Unmeasured,
    /// It takes more ticks than any packet may.
    #[error("a packet to a replica takes more than {GREATEST_DELAY} ticks")]
    TooLong,
}

/// How many ticks of a scenario a packet takes at most between the leader of a group and its replicas, which takes so
/// long: a tick that has begun counts as a whole one, and the sign of a number of ticks counts for nothing.
pub fn replica_ticks(scenario: &Scenario, span: WrittenTime) -> Result<u16, ReplicaFault>
    ensures { result ≡ replica_ticks scenario.now span }
{
    within_greatest(ticks_of_replicas(length_of(scenario), span)?)
}

/// How far the replicas of each group of a scenario are, in ticks, by the numbers of the groups: as is asked of all of them, or
/// else as the text says that names a group, or no time for one that it does not name, which is one process then. Fails
/// where memory runs out, and else never; the answer in it is the fault of the first group that has one.
pub fn replicas_of(
    alloc: Global,
    span: &Option<WrittenTime>,
    acceptances: &[WrittenAcceptance],
    scenario: &Scenario,
) -> Result<Result<Vec<u16>, ReplicaFault>, AllocError>
    ensures { IfOk result (λ replicas. seen replicas ≡ replicas_of span.now acceptances.now scenario.now) }
{
    let groups = draft_groups(alloc, scenario)?;
    ticks_of_groups(alloc, span, acceptances, scenario, &groups)
}

/// The same of each of these groups.
fn ticks_of_groups(
    alloc: Global,
    span: &Option<WrittenTime>,
    acceptances: &[WrittenAcceptance],
    scenario: &Scenario,
    groups: &[Name],
) -> Result<Result<Vec<u16>, ReplicaFault>, AllocError>
    ensures { IfOk result (λ replicas. seen replicas ≡ ticks_of_groups span.now acceptances.now scenario.now groups.now) }
{
    let mut ticks = Vec::new(alloc);
    for group in groups {
        match replica_ticks(scenario, span_of_group(span, acceptances, group)) {
            Ok(replicas) => ticks.push(replicas)?,
            Err(fault) => return Ok(Err(fault)),
        }
    }
    Ok(Ok(ticks))
}

/// How far the replicas of a group are, as it is asked or written.
fn span_of_group(
    span: &Option<WrittenTime>,
    acceptances: &[WrittenAcceptance],
    group: &Name,
) -> WrittenTime
    ensures { result ≡ span_of_group span.now acceptances.now group.now }
{
    if let Some(span) = span {
        return *span;
    }
    match naming(acceptances, group) {
        Some(acceptance) => acceptance.replicas,
        None => WrittenTime::Count(0),
    }
}

/// The first of them that names a group.
fn naming<'a>(acceptances: &'a [WrittenAcceptance], group: &Name) -> Option<&'a WrittenAcceptance>
    ensures { option_copied result ≡ find (λ acceptance. is_among group.now acceptance.groups) acceptances.now }
{
    acceptances
        .iter()
        .find(|acceptance| group.is_among(&acceptance.groups))
}

/// The same where a tick lasts so many nanoseconds, if that is known, however many ticks these are.
fn ticks_of_replicas(tick: Option<u64>, span: WrittenTime) -> Result<u64, ReplicaFault>
    ensures { result ≡ ticks_of_replicas tick span }
{
    match span {
        WrittenTime::Count(ticks) => Ok(ticks.unsigned_abs()),
        WrittenTime::Lasting(duration) => {
            let tick = tick.ok_or(ReplicaFault::Unmeasured)?;
            Ok(duration.nanoseconds().div_ceil(tick.max(1)))
        }
    }
}

/// The ticks, where a packet may take so many.
fn within_greatest(ticks: u64) -> Result<u16, ReplicaFault>
    ensures { result ≡ within_greatest ticks }
{
    if ticks <= u64::from(GREATEST_DELAY) {
        Ok(ticks as u16)
    } else {
        Err(ReplicaFault::TooLong)
    }
}

/// How many nanoseconds a tick of the scenario lasts, where that is known.
fn length_of(scenario: &Scenario) -> Option<u64>
    ensures { result ≡ scenario.now.tick }
{
    match scenario.tick() {
        Some(tick) => Some(tick.nanoseconds()),
        None => None,
    }
}
