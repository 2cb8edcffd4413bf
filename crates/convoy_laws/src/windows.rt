//! What a window, in which a message may be issued at any time, says of each time in it, in either kind of time. Each law
//! is the one clause of a function that does nothing; a caller that needs the law calls the function.

ghost use Rattle.convoy_laws.specs.IssueWindows.{NarrowerWindowsAreNoSlower, RunsFitOtherWindows};
ghost use Rattle.convoy_laws.specs.IssueWindows.{SomeTimeInWindowIsAsLate, TimesInWindowAreNoSlower};

use convoy_packets::schedule_laws::{
    delays_are_within, packets_are_those_sent, places_lead_back, unsent_takes_no_time,
};
use convoy_sim::protocol_laws::{
    arrives_before_commit, issued_at_its_tick, issued_within_its_wait,
};

/// What a run does is done in a run of the scenario with other windows, too, if each message may be issued there when it is
/// issued in the run.
pub fn runs_fit_other_windows()
    ensures { RunsFitOtherWindows }
{
    packets_are_those_sent();
    places_lead_back();
    delays_are_within();
    unsent_takes_no_time();
    issued_at_its_tick();
    issued_within_its_wait();
    arrives_before_commit();
}

/// A latency that the target never exceeds is not exceeded with narrower windows either. So to widen a window never lowers
/// the greatest latency.
pub fn narrower_windows_are_no_slower()
    ensures { NarrowerWindowsAreNoSlower }
{
    runs_fit_other_windows();
    issued_within_its_wait();
}

/// A latency that the target never exceeds with a window of a message is not exceeded with the message issued at any one
/// time in the window.
pub fn times_in_window_are_no_slower()
    ensures { TimesInWindowAreNoSlower }
{
    narrower_windows_are_no_slower();
}

/// A latency that the target has with a window of a message it has with the message issued at some time in the window. So
/// the greatest latency with a window is the greatest of those with the single times in it.
pub fn some_time_in_window_is_as_late()
    ensures { SomeTimeInWindowIsAsLate }
{
    runs_fit_other_windows();
    issued_within_its_wait();
}
