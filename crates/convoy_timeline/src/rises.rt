//! By which moments clocks rose to the time of a stamp.

ghost use Rattle.std.specs.Prelude.{◌≡◌, map, IfOk};
ghost use Rattle.convoy_sim.specs.Run.{IsRunOf};
ghost use Rattle.convoy_timeline.specs.Causes.{is_rise_to, rise_to, rises_before, stamp_explained};
ghost use Rattle.convoy_timeline.specs.RiseWords.{moments_told, rise_before, rise_told, rises_told, stamped_told_at};

use super::explanation::Rise;
use super::moments::list_moments;
use super::told::{final_stamp, proposal, stamped};
use convoy_packets::{Instance, Schedule};
use convoy_scenario::AllocResult;
use convoy_sim::protocol_laws::{final_stamp_is_local, local_stamp_names_group};
use convoy_sim::{Moment, MomentKind, Proposal, Run, Timestamp};
use std::alloc::Global;

/// Why the final stamp of an instance's target has its time, in its run under a schedule (docs/PROTOCOL.md):
/// the rises of clocks that led to it, latest first. The first is the last rise of the clock of the group that
/// gave the stamp, before it did; each further one is the same of the stamp of the rise above it. The time of
/// each of these stamps is one less than that of the stamp before, down to the time 1. Fails where memory runs
/// out, and else never.
pub fn explain_stamp(
    alloc: Global,
    instance: &Instance,
    schedule: &Schedule,
    run: &Run,
) -> AllocResult<Vec<Rise>>
    requires { IsRunOf instance.now schedule.now run.now }
    ensures { IfOk result (λ rises. rises.items ≡ stamp_explained instance.now schedule.now) }
{
    final_stamp_is_local();
    local_stamp_names_group();
    // A scenario is well formed.
    let _groups = instance.group_count();
    rises_to(alloc, instance, schedule, run, instance.target_message())
}

/// The rises of clocks that led to the time of the final stamp of a message, latest first.
#[tactic(auto, unfolding(crate::specs::RiseWords::rises_told))]
fn rises_to(
    alloc: Global,
    instance: &Instance,
    schedule: &Schedule,
    run: &Run,
    message: usize,
) -> AllocResult<Vec<Rise>>
    ensures { IfOk result (λ rises. rises.items ≡ rises_told instance.now schedule.now run.now message) }
{
    let moments = list_moments(alloc, instance, schedule, run)?;
    let rises = list_rises(alloc, run, &moments)?;
    rises_before(alloc, &rises, final_stamp(run, message))
}

/// Moments with their stamps, in the same order.
fn list_rises(alloc: Global, run: &Run, moments: &[Moment]) -> AllocResult<Vec<Rise>>
    ensures { IfOk result (λ rises. rises.items ≡ map (rise_told run.now) moments.now) }
{
    let mut rises = Vec::with_capacity(alloc, moments.len())?;
    for moment in moments {
        rises.push(rise_at(run, *moment))?;
    }
    Ok(rises)
}

/// A moment with its stamp.
fn rise_at(run: &Run, moment: Moment) -> Rise
    ensures { result ≡ rise_told run.now moment }
{
    let stamped = stamped_at(run, moment.kind, moment.message, moment.group);
    Rise { moment, stamped }
}

/// The stamp of a message as it comes to a group, or as it is committed there, and the tick at which it was
/// given.
fn stamped_at(run: &Run, kind: MomentKind, message: usize, group: usize) -> Proposal
    ensures { result ≡ stamped_told_at run.now kind message group }
{
    match kind {
        MomentKind::Arrival => proposal(run, message, group),
        MomentKind::Commit => stamped(run, message),
    }
}

/// Of all rises in the order of their moments those that lead to a stamp, latest first.
fn rises_before(alloc: Global, rises: &[Rise], stamp: Timestamp) -> AllocResult<Vec<Rise>>
    ensures { IfOk result (λ found. found.items ≡ rises_before rises.now stamp.time stamp.group) }
{
    let mut found = Vec::new(alloc);
    let mut next = stamp;
    while let Some(rise) = rise_before(rises, next) {
        found.push(rise)?;
        next = rise.stamped.stamp;
    }
    Ok(found)
}

/// The rise of the clock of a stamp's group to the time before that of the stamp.
fn rise_before(rises: &[Rise], stamp: Timestamp) -> Option<Rise>
    ensures { result ≡ rise_before rises.now stamp.time stamp.group }
{
    let time = stamp.time.checked_sub(1)?;
    rise_to(rises, time, stamp.group)
}

/// The first of some moments at a group with a stamp of that time.
fn rise_to(rises: &[Rise], time: u64, group: usize) -> Option<Rise>
    ensures { result ≡ rise_to rises.now time group }
{
    for rise in rises {
        if is_rise_to(time, group, rise) {
            return Some(*rise);
        }
    }
    None
}

/// Whether it is a moment at a group with a stamp of that time.
fn is_rise_to(time: u64, group: usize, rise: &Rise) -> bool
    ensures { result ≡ is_rise_to time group rise.now }
{
    rise.moment.group == group && rise.stamped.stamp.time == time
}
