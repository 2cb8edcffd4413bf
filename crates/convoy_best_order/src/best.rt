use super::excess::Excess;
use super::spread::Spread;
use super::target::Target;

/// How late a target is with the groups as they are, and with the groups in the order that is told.
#[derive(Clone, Copy)]
pub struct Row {
    pub target: Target,
    pub before: Spread,
    pub after: Spread,
}

/// How late a target is with the groups in some order. Those that stand behind its group there may be in any order, and so
/// may those ahead of it.
#[derive(Drop)]
pub struct Reason {
    pub target: Target,
    /// The groups, by their numbers.
    pub order: Vec<usize>,
    pub spread: Spread,
    /// The greatest excess of all targets at that group there, at most: what it costs to list the group there.
    pub(crate) cost: Excess,
}

/// The best order of the groups of a scenario for some targets.
#[derive(Drop)]
pub struct Best {
    /// The groups, by their numbers.
    pub order: Vec<usize>,
    /// How late each target is before and after.
    pub rows: Vec<Row>,
    /// Why no order is better: in each one of these targets is so late as its reason says, or later.
    pub reasons: Vec<Reason>,
    /// The greatest excess is at least that in each order.
    pub least: Excess,
    /// It is at most that in the order that is told: the same as the least, unless a search may stay open.
    pub most: Excess,
}
