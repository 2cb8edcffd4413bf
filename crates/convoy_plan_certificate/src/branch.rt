/// That a target may be late: a target that counts, by its place among these, with the delays of a schedule in packet order, in
/// ticks, and the ranks of its order of ties, of which there are none where ties fall in the fixed order. It is a schedule of
/// the scenario in which the groups of the other witnesses are listed behind all others, and that of this target just before
/// these.
#[derive(Drop)]
pub struct Witness {
    pub target: usize,
    pub delays: Vec<u16>,
    pub ranks: Vec<u16>,
}

/// A node of the tree over placements, as it stands in the list of nodes. It stands over all placements that have the sites so
/// far: those of the groups that are split above it. Groups, sites and targets go by number, from 0.
#[derive(Drop)]
pub enum Branch {
    /// The placements are split by the site of this group: a tree for each of the sites that the plan lists for it follows, in
    /// their order.
    Split(usize),
    /// None of them is a placement of the plan: the two groups are at one site, and are to be apart.
    Apart(usize, usize),
    /// None is better: the longest to the commit of this target is too long, wherever the groups are that have no site yet.
    Commit(usize),
    /// The one placement that is left has no scenario.
    NoScenario,
    /// The one placement that is left is no better: in each order of the groups one of these witnesses is late.
    Late(Vec<Witness>),
}
