/// The greatest number of seconds after which a search can be asked to stop.
pub const MOST_SECONDS: u32 = 1_000_000;
