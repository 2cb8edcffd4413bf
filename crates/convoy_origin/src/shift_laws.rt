//! What it does to a run that all its issues are later. The law is the one clause of a function that does nothing; a
//! caller that needs it calls the function.

ghost use Rattle.convoy_origin.specs.Later.{RunsShift};

/// Only differences of issues matter: where all messages are issued a number of ticks later, and all else is the same,
/// everything happens so many ticks later, with the same stamps in the same order, and each latency is the same.
pub fn runs_shift()
    ensures { RunsShift }
{}
