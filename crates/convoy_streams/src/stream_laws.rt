//! The laws of devices and of jobs. Each is the one clause of a function that does nothing; a caller that needs the
//! law calls the function.

ghost use Rattle.convoy_streams.specs.StreamLaws.{EndedJobsStay, PiecesGoOn};

/// If each call moved a piece, and one call more moves some bytes, then each has moved a piece, and
/// together they moved what was moved before and then those bytes.
pub fn pieces_go_on()
    ensures { PiecesGoOn }
{}

/// A job that a divider has ended stays as it is, however the text goes on.
pub fn ended_jobs_stay()
    ensures { EndedJobsStay }
{}
