/// How many jobs a batch has at most.
pub const MOST_JOBS: u32 = 1_000;
