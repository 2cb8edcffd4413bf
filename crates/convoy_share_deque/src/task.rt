use convoy_regions::Branch;

/// A branch that was put into a deque, with its number.
#[derive(Drop)]
pub struct Task {
    /// How many branches were put into the deque before it.
    pub number: u64,
    /// The region that is left to be taken up.
    pub branch: Branch,
}
