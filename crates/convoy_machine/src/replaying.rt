ghost use Rattle.std.specs.Prelude.{◌≡◌, IfOk};
ghost use Rattle.std.specs.List.{All};
ghost use Rattle.convoy_scenario.specs.Memory.{IsUnlessMemory};
ghost use Rattle.convoy_machine.specs.Machine.{replayed};
ghost use Rattle.convoy_machine.specs.Replays.{IsEventOf, IsReplayed};
ghost use Rattle.convoy_machine.specs.declared.replaying.ReplayFault.TheVariants.{Memory};

use super::event::Event;
use super::machine::Core;
use convoy_checker::tree_laws::leaves_cover;
use convoy_intervals::box_laws::{halves_are_boxes, halves_partition, root_holds_all, root_is_box};
use convoy_origin::Origin;
use convoy_packets::Instance;
use std::alloc::{AllocError, Global};
use thiserror::Error;

/// Why a list of events was not replayed.
#[derive(Clone, Copy, Debug, PartialEq, Eq, Error)]
pub enum ReplayFault {
    /// An event is not lawful in the state that those before it lead to: the place of the first one,
    /// from 0. Its number is 35 (docs/FORMATS.md).
    #[error("event {0} is not lawful")]
    Unlawful(usize),
    /// Memory ran out, which says nothing of the events.
    #[error("out of memory")]
    Memory,
}

/// Replays a search of up to 16 workers as a list of events, from its start: the record of all least
/// delays is the best, every worker has seen its latency, and worker 0 has the root box as branch 0
/// (docs/PROTOCOL.md).
///
/// Answers the state that the events lead to, where each is lawful in the state before it, or else
/// the place of the first that is not.
pub fn replay(alloc: Global, instance: &Instance, events: &[Event]) -> Result<Core, ReplayFault>
    requires records { All (IsEventOf instance.now) events.now }
    ensures exact { IsUnlessMemory ReplayFault.Memory (replayed instance.now events.now) result }
    ensures state { IfOk result (IsReplayed instance.now events.now) }
{
    root_is_box();
    root_holds_all();
    halves_are_boxes();
    halves_partition();
    leaves_cover();
    let origin = Origin::of(alloc, instance)?;
    let mut core = Core::start(alloc, instance)?;
    for (place, event) in events.iter().enumerate() {
        if !core.is_lawful(alloc, &origin, event)? {
            return Err(ReplayFault::Unlawful(place));
        }
        core.follow(event)?;
    }
    Ok(core)
}

impl From<AllocError> for ReplayFault {
    ghost from_gives = { λ _ fault. fault ≡ Memory };

    fn from(_error: AllocError) -> ReplayFault {
        ReplayFault::Memory
    }
}
