use super::kinds::Change;
use convoy_draft::Name;
use convoy_packets::Instance;
use convoy_survey::Finding;

/// The scenario that a change makes, and what a search found of the latency that is asked there.
#[derive(Drop)]
pub struct Searched {
    pub instance: Instance,
    pub finding: Finding,
}

/// A change of a scenario that was tried.
#[derive(Drop)]
pub struct Tried {
    /// What is changed.
    pub change: Change,
    /// What a search found of the latency in the scenario that is changed so, whose messages are numbered as there; or
    /// that memory ran out.
    pub finding: Finding,
    /// The messages of its cause, [`Finding::rival`] and [`Finding::tied`], by their names.
    pub rival: Option<Name>,
    pub tied: Option<Name>,
}
