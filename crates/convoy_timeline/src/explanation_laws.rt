//! The laws of explanations. Each is the one clause of a function that does nothing; a caller that
//! needs the law calls the function.

ghost use Rattle.convoy_timeline.specs.ExplanationLaws.{HoldersHold, LastProposalsCommit, RisesRaise};

use convoy_sim::protocol_laws::{
    delivered_after_commit, delivery_law, final_stamp_is_local, last_raise,
    local_stamp_names_group, stamps_rise, stamps_rise_past_commit,
};

/// The message that an explanation names as holding another back does so up to the delivery; where it
/// names none, the message is delivered as it is committed.
#[tactic(auto, using(crate::proofs::Holders::holders_hold))]
pub fn holders_hold()
    ensures { HoldersHold }
{
    delivery_law();
    delivered_after_commit();
}

/// The proposal that an explanation names as the last one is that of a destination of the message, and
/// comes to the group in the tick in which the message is committed there.
#[tactic(auto, using(crate::proofs::Holders::last_proposals_commit))]
pub fn last_proposals_commit()
    ensures { LastProposalsCommit }
{}

/// Each rise that an explanation tells is the last of its group's clock before the group gave the stamp above
/// it: the clock stood lower before, and the time of the next stamp there is one more. The last rise told is to
/// the time 1.
#[tactic(auto, using(crate::proofs::ClockRises::rises_raise))]
pub fn rises_raise()
    ensures { RisesRaise }
{
    last_raise();
    stamps_rise();
    stamps_rise_past_commit();
    final_stamp_is_local();
    local_stamp_names_group();
}
