use convoy_scenario::Sender;

/// What is changed of a scenario.
#[derive(Clone, Copy)]
pub enum Change {
    /// Nothing.
    Nothing,
    /// The message of that number is not sent.
    Without { message: usize },
    /// What goes from the sender to the group `to` takes the least that it may take.
    AtLeast { sender: Sender, to: usize },
    /// What goes from the sender to the group `to` takes the most that it may take.
    AtMost { sender: Sender, to: usize },
}
