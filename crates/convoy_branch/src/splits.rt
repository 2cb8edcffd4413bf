/// By what regions of real time are split that leads leave open. Each member of a region is in one of the halves either
/// way, so that nothing that a search promises rests on it.
#[derive(Clone, Copy, PartialEq, Eq)]
pub enum Splits {
    /// At packets, and by the orders of ties only where each packet has one delay left.
    Packets,
    /// At packets and by orders in turn.
    Orders,
}
