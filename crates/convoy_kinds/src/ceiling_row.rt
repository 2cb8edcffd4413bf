/// The ceiling of a kind of messages at a group that it goes to.
#[derive(Clone, Copy, Debug, PartialEq, Eq)]
pub struct CeilingRow {
    /// The number of the kind.
    pub kind: usize,
    /// The number of the group.
    pub group: usize,
    /// The ceiling, in ticks: above it no message of the kind has a latency at the group.
    pub ceiling: u32,
    /// The number of the rival, the kind beside which it has that ceiling: a message of the one waits for one of the other.
    pub rival: usize,
}
