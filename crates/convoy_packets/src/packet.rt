use convoy_scenario::{MOST_GROUPS, MOST_MULTICASTS};

/// How many packets a scenario has at most, with the waits of its messages.
pub const MOST_PACKETS: usize = MOST_MULTICASTS * (1 + MOST_GROUPS + MOST_GROUPS * MOST_GROUPS);

/// What a schedule gives a number of ticks: a packet that one place sends another, or a group itself where it has a link to
/// itself, or the wait of a message, which goes nowhere.
#[derive(Clone, Copy, PartialEq, Eq)]
pub enum Packet {
    /// The wait of a message, from the first tick at which it may be issued to its issue.
    Wait {
        message: usize,
    },
    /// The message itself, on its way from its sender to the group `to`.
    Multicast {
        message: usize,
        to: usize,
    },
    /// The local stamp of the group `from` for the message, on its way to the group `to`, which may be itself.
    Propose {
        message: usize,
        from: usize,
        to: usize,
    },
}
