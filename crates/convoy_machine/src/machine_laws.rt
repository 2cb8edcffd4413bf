//! The laws of the machine. Each is the one clause of a function that does nothing; a caller that needs
//! the law calls the function.

ghost use Rattle.convoy_machine.specs.MachineLaws.{RightLeavesClose};

use convoy_laws::monotone::leads_close_for_more;
use convoy_origin::widened_laws::regions_widen;
use convoy_scenario::widened_laws::widened_is_scenario;

/// A worker that has seen a latency may close each box over which some leaf is right in a certificate
/// of that latency.
pub fn right_leaves_close()
    ensures { RightLeavesClose }
{
    leads_close_for_more();
    widened_is_scenario();
    regions_widen();
}
