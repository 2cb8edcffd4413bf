use convoy_certificate::LONGEST_TEXT;

/// How many bytes the text of a job has at most (docs/FORMATS.md, "Scenario text").
pub const LONGEST_JOB: usize = 65_536;

/// How many bytes the text of a certificate has at most (docs/FORMATS.md, "Certificate text").
pub const LONGEST_CERTIFICATE: usize = LONGEST_TEXT;

/// How many steps checking a certificate takes at most where the user asks for no other limit
/// (docs/FORMATS.md, "Steps").
pub const DEFAULT_STEPS: u64 = 100_000_000;

/// The highest limit of steps that the user may ask for.
pub const MOST_STEPS: u64 = 1_000_000_000_000;
