ghost use Rattle.std.specs.Prelude.{◌≡◌, ◌<◌, ◌*◌, ◌/◌, ◌%◌, ℕ, length, map, IfOk};
ghost use Rattle.std.specs.List.{range_with_len};
ghost use Rattle.convoy_sim.specs.Progress.{progress_told, TellsAll};

use super::delivery::delivery_tick;
use super::stamps::Stamps;
use super::ticks::Ticks;
use super::timetable::Timetable;
use convoy_scenario::MOST_GROUPS;
use std::alloc::{AllocError, Global};

/// How far a message has come at a group.
#[derive(Clone, Copy)]
pub struct Progress {
    /// The tick at which it came.
    pub came: Option<u32>,
    /// The time of its local stamp, once it has come.
    pub stamp: u64,
    /// The tick at which it was committed.
    pub committed: Option<u32>,
    /// The tick at which it was delivered.
    pub delivered: Option<u32>,
}

impl Progress {
    /// It has not come.
    pub const NOWHERE: Progress = Progress {
        came: None,
        stamp: 0,
        committed: None,
        delivered: None,
    };
}

/// How far each message has come at each group when a run is over, by the place of the message at
/// the group, from the stamps that were given in the run.
pub(crate) fn list_progress(
    alloc: Global,
    times: &Timetable,
    stamps: &Stamps,
) -> Result<Vec<Progress>, AllocError>
    requires { TellsAll times.now.scenario times.now.schedule stamps.now }
    ensures { IfOk result (λ progress. progress.items
        ≡ map (λ at. progress_told times.now.scenario times.now.schedule stamps.now (at / MOST_GROUPS) (at % MOST_GROUPS))
        (range_with_len 0 (length times.now.scenario.multicasts * MOST_GROUPS))) }
{
    let places = times.scenario().message_count() * MOST_GROUPS;
    let mut progress = Vec::with_capacity(alloc, places)?;
    for at in 0..places {
        progress.push(told_at(times, stamps, at / MOST_GROUPS, at % MOST_GROUPS))?;
    }
    Ok(progress)
}

/// How far a message has come at a group when a run is over: everywhere where it has a stamp.
fn told_at(times: &Timetable, stamps: &Stamps, message: usize, group: usize) -> Progress
    requires message { message < length times.now.scenario.multicasts }
    requires group { group < MOST_GROUPS }
    requires told { TellsAll times.now.scenario times.now.schedule stamps.now }
    ensures { result ≡ progress_told times.now.scenario times.now.schedule stamps.now message group }
{
    let _scenario = times.scenario();
    let stamp = stamps.time(message, group);
    if 0 < stamp {
        Progress {
            came: Some(times.arrival(message, group)),
            stamp,
            committed: Some(times.settling(message, group)),
            delivered: Some(delivery_tick(times, stamps, message, group)),
        }
    } else {
        Progress::NOWHERE
    }
}
