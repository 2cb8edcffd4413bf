/// The greatest value of D, the greatest delay of a packet, in ticks.
pub const GREATEST_DELAY: u16 = 65_535;

/// The greatest value of D, in ticks, where time goes in whole ticks.
pub const GREATEST_WHOLE_DELAY: u16 = 16;

/// How many groups a scenario has at most.
pub const MOST_GROUPS: usize = 8;

/// How many multicasts a scenario has at most.
pub const MOST_MULTICASTS: usize = 16;

/// How many places of clients a scenario names at most.
pub const MOST_PLACES: usize = 8;

/// How many links a scenario has at most: one from each sender, the client of no named place among them, to each group.
pub const MOST_LINKS: usize = (MOST_PLACES + 1 + MOST_GROUPS) * MOST_GROUPS;

/// The last tick that may be written as the first at which a message is issued.
pub const GREATEST_AT: u32 = 1_000_000;

/// How many ticks a message waits at most, from the first tick at which it may be issued to its issue.
pub const LONGEST_WAIT: u16 = 65_535;

/// The last tick of all at which a message is issued: it waits as long as any may from the last tick
/// that may be written for it.
pub const GREATEST_UNTIL: u32 = GREATEST_AT + LONGEST_WAIT as u32;

/// How many bytes a name has at most.
pub const LONGEST_NAME: usize = 16;
