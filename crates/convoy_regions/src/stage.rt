ghost use Rattle.std.specs.Prelude.{◌≡◌, ◌<◌, ◌++◌, All, IfOk, OnOk, slice_index_or};
ghost use Rattle.convoy_scenario.specs.Scenario.{is_addressed, message_at};
ghost use Rattle.convoy_packets.specs.declared.table_places.TheConstants.{PLACES};
ghost use Rattle.convoy_regions.specs.Stages.{IsStage, is_same, no_stage, stage_of, stages_in, stages_of};

use convoy_packets::PLACES;
use convoy_scenario::{MOST_GROUPS, Scenario};
use convoy_sim::MomentKind;
use std::alloc::{AllocError, Global};

/// The arrival of a message at a group, or its commit there, in whichever run.
#[derive(Clone, Copy)]
pub struct Stage {
    pub kind: MomentKind,
    /// The number of the message.
    pub message: usize,
    /// The number of the group.
    pub group: usize,
}

/// Two stages of one group, of which the first comes before the second.
pub type Precedence = (Stage, Stage);

impl Stage {
    ghost use Rattle.std.specs.Prelude.{◌≡◌};
    ghost use Rattle.convoy_regions.specs.Stages.{is_same};

    /// Whether the two are one stage.
    pub(crate) fn is_same(self, other: Stage) -> bool
        ensures { result ≡ is_same self other }
    {
        self.kind == other.kind && self.message == other.message && self.group == other.group
    }
}

/// All stages of a scenario, by number: message by message, and of each message by destination, its arrival
/// there and then its commit, as an order of ties lists their ranks. Fails where memory runs out, and else
/// never.
#[tactic(auto, unfolding(crate::specs::Stages::stages_of))]
pub fn list_stages(alloc: Global, scenario: &Scenario) -> Result<Vec<Stage>, AllocError>
    ensures value { IfOk result (λ stages. stages.items ≡ stages_of scenario.now) }
    ensures lawful { IfOk result (λ stages. All (IsStage scenario.now) stages.items) }
{
    let mut stages = Vec::new(alloc);
    for place in 0..PLACES {
        push_stages(&mut stages, scenario, place)?;
    }
    Ok(stages)
}

/// Appends the stages of a place.
fn push_stages(stages: &mut Vec<Stage>, scenario: &Scenario, place: usize) -> Result<(), AllocError>
    requires { place < PLACES }
    ensures { OnOk result (stages.new.items ≡ stages.old.items ++ stages_in scenario.now place) }
{
    let (message, group) = (place / MOST_GROUPS, place % MOST_GROUPS);
    if goes_to(scenario, message, group) {
        stages.push(stage_of(MomentKind::Arrival, message, group))?;
        stages.push(stage_of(MomentKind::Commit, message, group))?;
    }
    Ok(())
}

/// Whether a message goes to a group; a number past the last message goes nowhere.
fn goes_to(scenario: &Scenario, message: usize, group: usize) -> bool
    ensures { result ≡ is_addressed (message_at scenario.now message) group }
{
    message < scenario.message_count() && scenario.destinations(message).contains(&group)
}

/// A stage of that kind of a message at a group.
pub(crate) fn stage_of(kind: MomentKind, message: usize, group: usize) -> Stage
    ensures { result ≡ stage_of kind message group }
{
    Stage {
        kind,
        message,
        group,
    }
}

/// The stage of that number among all stages.
pub(crate) fn stage_in(stages: &[Stage], number: usize) -> Stage
    ensures { result ≡ slice_index_or stages.now number no_stage }
{
    if number < stages.len() {
        stages[number]
    } else {
        stage_of(MomentKind::Arrival, 0, 0)
    }
}
