//! What is proved of runs in which packets leave their ranges. Each law is the one clause of a function that does nothing; a
//! caller that needs the law calls the function.

ghost use Rattle.convoy_outside.specs.OutsideLaws.{LateFinerRunsAreFew, LateRunsAreFew, SharesAddUp};

use convoy_laws::finer::{scenarios_are_roundable, whole_ticks_are_enough};

/// Of any finite number of runs, in each of which each packet may or may not leave its range, where each packet does so in at
/// most its share of the runs, at most the sum of the shares has a packet that does, however the packets depend on each other.
pub fn shares_add_up()
    ensures { SharesAddUp }
{}

/// Of runs in which packets may take any times, where each packet leaves its range in at most its share of them, at most the
/// sum of the shares has a latency above one that no run exceeds in which packets keep their ranges.
pub fn late_runs_are_few()
    ensures { LateRunsAreFew }
{}

/// The same of runs in real time, in ticks that are as fine as one likes.
pub fn late_finer_runs_are_few()
    ensures { LateFinerRunsAreFew }
{
    late_runs_are_few();
    scenarios_are_roundable();
    whole_ticks_are_enough();
}
