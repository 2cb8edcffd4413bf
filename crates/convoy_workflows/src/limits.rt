/// How many ticks after what it follows a message is issued at most.
pub const GREATEST_OFFSET: u32 = 2_000_000;
