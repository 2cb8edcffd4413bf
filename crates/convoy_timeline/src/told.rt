//! What a run tells, and what stands for it where the run tells nothing.

ghost use Rattle.std.specs.Prelude.{◌≡◌};
ghost use Rattle.convoy_timeline.specs.RunWords.{committed_told, delivered_told, final_told, proposal_told, stamped_told};

use convoy_sim::{Proposal, Run, Timestamp};

/// What stands for a proposal where none is told.
const NO_PROPOSAL: Proposal = Proposal {
    tick: 0,
    stamp: Timestamp::NONE,
};

/// The final stamp of a message, and the tick at which its group gave it.
pub(crate) fn stamped(run: &Run, message: usize) -> Proposal
    ensures { result ≡ stamped_told run.now message }
{
    let stamp = final_stamp(run, message);
    let tick = proposal(run, message, stamp.group).tick;
    Proposal { tick, stamp }
}

/// What a group proposes for a message, and when.
pub(crate) fn proposal(run: &Run, message: usize, group: usize) -> Proposal
    ensures { result ≡ proposal_told run.now message group }
{
    run.proposed(message, group).unwrap_or(NO_PROPOSAL)
}

/// The tick at which a group commits a message.
pub(crate) fn committed(run: &Run, message: usize, group: usize) -> u32
    ensures { result ≡ committed_told run.now message group }
{
    run.committed(message, group).unwrap_or(0)
}

/// The tick at which a group delivers a message.
pub(crate) fn delivered(run: &Run, message: usize, group: usize) -> u32
    ensures { result ≡ delivered_told run.now message group }
{
    run.delivered(message, group).unwrap_or(0)
}

/// The final stamp of a message.
pub(crate) fn final_stamp(run: &Run, message: usize) -> Timestamp
    ensures { result ≡ final_told run.now message }
{
    run.final_stamp(message).unwrap_or(Timestamp::NONE)
}
