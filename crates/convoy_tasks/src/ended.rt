use convoy_commands::{Done, Known};

/// How a task ended whose answer was written, and what was found out on the way.
#[derive(Drop)]
pub struct Ended {
    pub done: Done,
    pub known: Option<Known>,
}
