use convoy_packets::Packet;
use convoy_sim::Timestamp;
use convoy_traces::Told;

/// In what a trace departs from a scenario; times are in fine ticks.
#[derive(Clone, Copy)]
pub enum Departure {
    /// The message of that number was issued then, and may be from the first time on to the second.
    Window(usize, u32, u64, u64),
    /// The packet was sent at the first time and came at the second, and may take the least to the most that follow; what
    /// a group sends itself takes no time, unless it has a link to itself that is for it.
    Packet(Packet, u32, u32, u64, u64),
    /// The run has at that moment what is told at another.
    Moment(Told, u64),
    /// The run has that stamp with what is told with another.
    Stamp(Told, Timestamp),
    /// The message is delivered at the group at that tick of the run, before the end of the trace, which tells no such
    /// delivery.
    Missing(usize, usize, u32),
}

/// Whether a trace fits a scenario, by clocks that are right within a skew.
#[derive(Clone, Copy)]
pub enum Verdict {
    /// It does. The latency of the target in that run, in fine ticks, just where its delivery is told.
    Fits(Option<u32>),
    /// No run has done what it tells: it is outside of a window or of a range, by more than such clocks explain.
    Outside(Departure),
    /// It does not, with its times by clocks that are right, for one way in which its own clocks may be wrong.
    Departs(Departure),
}
