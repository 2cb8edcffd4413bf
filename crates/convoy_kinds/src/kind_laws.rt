//! What holds of kinds. Each law is the one clause of a function that does nothing; a caller that needs the law calls the
//! function.

ghost use Rattle.convoy_kinds.specs.KindLaws.{RivalsDecide, KindsMayBeAskedInPairs, PairsAreScenarios, TrafficOfPairsIsOfKinds};

use convoy_ceiling::ceiling_laws::ceiling_holds_for_any_kinds;

/// Kinds may be asked about one pair at a time: in no traffic of the kinds, whichever of them it has, and in whatever number,
/// does a message have a latency at a group above the greatest ceiling that its kind has there beside one other kind.
pub fn kinds_may_be_asked_in_pairs()
    ensures { KindsMayBeAskedInPairs }
{
    ceiling_holds_for_any_kinds();
}

/// A kind has its ceiling at a group beside the rival there, which goes there as well.
pub fn rivals_decide()
    ensures { RivalsDecide }
{}

/// The scenario of two kinds is well formed, where the first goes to the group.
pub fn pairs_are_scenarios()
    ensures { PairsAreScenarios }
{}

/// Traffic of two of the kinds is traffic of the kinds: so what is attained in it is attained in that.
pub fn traffic_of_pairs_is_of_kinds()
    ensures { TrafficOfPairsIsOfKinds }
{}
