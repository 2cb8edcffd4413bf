//! The laws of traces that fit. Each is the one clause of a function that does nothing; a caller that needs the law calls
//! the function.

ghost use Rattle.convoy_fits.specs.FitsLaws.{FittingRunsAreBounded, NoSkewIsNone, OutsideNeverFits, RightClocksFit};

use convoy_laws::finer::{scenarios_are_roundable, whole_ticks_are_enough};
use convoy_packets::schedule_laws::{delays_are_within, unsent_takes_no_time, waits_are_at_most};

/// A trace that tells an issue outside of its window, or a packet that took longer than it may, or less, by more than clocks
/// explain that are right within a skew, fits no run by such clocks.
pub fn outside_never_fits()
    ensures { OutsideNeverFits }
{
    delays_are_within();
    unsent_takes_no_time();
    waits_are_at_most();
}

/// By clocks that are right within a skew of 0, they are right.
pub fn no_skew_is_none()
    ensures { NoSkewIsNone }
{}

/// A trace that fits by clocks that are right fits by those that need be so only within a skew.
pub fn right_clocks_fit()
    ensures { RightClocksFit }
{}

/// In real time the latency of a run that a trace fits is at most the certified greatest, in fine ticks, however wrong the
/// clocks are.
pub fn fitting_runs_are_bounded()
    ensures { FittingRunsAreBounded }
{
    whole_ticks_are_enough();
    scenarios_are_roundable();
}
