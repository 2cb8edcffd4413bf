/// The greatest number of a packet that a split may name: the last place of a list of `MOST_PACKETS`
/// packets.
pub const GREATEST_PACKET: u16 = 1_167;

/// The greatest number of a packet that a split may name where the text does not say how time goes: no
/// wait has a place in the schedule there, and no stamp that a group sends to itself.
pub const GREATEST_UNTIMED_PACKET: u16 = 1_023;

/// The greatest number of a moment that a split by order may name: its place in the line of the order
/// of ties.
pub const GREATEST_MOMENT: u8 = 255;

/// A node of the tree of a certificate, as it stands in the list of nodes: a split comes first, then
/// the tree of its lower half, and then that of its upper half.
#[derive(Clone, Copy, PartialEq, Eq)]
pub enum Node {
    /// The delays of a packet are split: at most `at`, and above it.
    Split { packet: u16, at: u16 },
    /// A split in real time: by the order of two moments at one group, which have these numbers in the
    /// line of the order of ties. First comes the half in which the first is before the second, then
    /// that in which the second is before the first.
    Order { first: u8, second: u8 },
    /// A leaf: the plain bound shows that no delays of its box have a greater latency.
    Bound,
    /// A leaf: its box has one delay for each packet, in real time with all their ties decided, and no
    /// greater latency.
    Point,
    /// A leaf in whole ticks: the stamp bound shows that no delays of its box have a greater latency.
    Stamp,
    /// A leaf: leads show that no delays of its box have a latency above this, in ticks, which may be
    /// less than that of the certificate.
    Lead { latency: u32 },
}

const _: () = prove!(size_of::<Node>() <= 8);
