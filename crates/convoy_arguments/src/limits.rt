/// How many reads of its input one run makes at most.
pub const MOST_READS: u64 = 134_217_728;

/// The exit status of a command line that is rejected.
pub const REJECTED: u8 = 2;

/// The exit status of a command line that asks for help.
pub(crate) const HELP: u8 = 0;
