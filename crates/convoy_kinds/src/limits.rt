/// How many tables of kinds there are at most.
pub const MOST_TABLES: usize = 16;

/// How many kinds all tables write at most; they write one at least.
pub const MOST_KINDS: usize = 4_096;
