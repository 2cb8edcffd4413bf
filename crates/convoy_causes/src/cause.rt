use super::event::Event;

/// Says when a message is issued: some time after an event of another one (docs/PROTOCOL.md, "Messages that follow
/// others").
#[derive(Clone, Copy, Debug, Drop)]
pub struct Cause {
    /// The number of the message that follows.
    pub effect: usize,
    /// The number of the message that it follows.
    pub message: usize,
    /// The event of that message that it follows.
    pub event: Event,
    /// The number of the group at which the event is; of an issue any group to which the message goes.
    pub group: usize,
    /// How many ticks after the event the message is issued at least.
    pub least: u32,
    /// How many ticks after it at most.
    pub most: u32,
}
