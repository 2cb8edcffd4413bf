/// What may cause that a message is issued.
#[derive(Clone, Copy, Debug, PartialEq, Eq, Drop)]
pub enum Event {
    /// Its cause is issued.
    Issue,
    /// Its cause arrives at the group.
    Arrival,
    /// Its cause is committed at the group.
    Commit,
    /// Its cause is delivered at the group.
    Delivery,
}
