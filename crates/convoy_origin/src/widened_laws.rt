//! Regions of the widened scenario, and the tables of their ranges. Each law is the one clause of a function that does
//! nothing; a caller that needs the law calls the function.

ghost use Rattle.convoy_origin.specs.WidenedBoxes.{InnerBoxesWiden};
ghost use Rattle.convoy_origin.specs.WidenedRegions.{ClosedByWidened, LeadsOfWidened};
ghost use Rattle.convoy_origin.specs.WidenedRegions.{MembersWiden, RegionsWiden};
ghost use Rattle.convoy_origin.specs.WidenedRegions.{PlainBoundOfWidened, StampBoundOfWidened};
ghost use Rattle.convoy_origin.specs.WidenedRegions.{RootWidens, WidenedIsExact};
ghost use Rattle.convoy_origin.specs.WidenedRegions.{WidenedRegionIsItself};
ghost use Rattle.convoy_origin.specs.WidenedTables.{PlainBoundIsTold, TablesWiden};

use convoy_intervals::box_laws::plain_bound_holds;
use convoy_narrowing::narrowing_laws::closed_region_holds;
use convoy_packets::schedule_laws::packets_stand_once;
use convoy_scenario::widened_laws::widened_is_scenario;
use convoy_stamps::stamp_bound_laws::stamp_bound_holds;

/// The widened region is a region of the widened scenario.
pub fn regions_widen()
    ensures { RegionsWiden }
{}

/// The widened region holds the members of the region, moved: what comes before what is the same.
pub fn members_widen()
    ensures { MembersWiden }
{}

/// The root of a scenario widens to the root of the widened scenario.
pub fn root_widens()
    ensures { RootWidens }
{}

/// A box inside another one widens to a box inside the other one's.
pub fn inner_boxes_widen()
    ensures { InnerBoxesWiden }
{}

/// Where the target does not wait, each region is its own widened region.
pub fn widened_region_is_itself()
    ensures { WidenedRegionIsItself }
{
    packets_stand_once();
}

/// Whatever closes the widened region for a latency closes the region for it.
pub fn closed_by_widened()
    ensures { ClosedByWidened }
{}

/// No latency in a region is greater than the plain bound of the widened ranges.
pub fn plain_bound_of_widened()
    ensures { PlainBoundOfWidened }
{
    closed_by_widened();
    widened_is_scenario();
    plain_bound_holds();
}

/// No latency in a region is greater than the stamp bound of the widened ranges.
pub fn stamp_bound_of_widened()
    ensures { StampBoundOfWidened }
{
    closed_by_widened();
    widened_is_scenario();
    stamp_bound_holds();
}

/// No latency in a region is greater than one for which leads close the widened region.
pub fn leads_of_widened()
    ensures { LeadsOfWidened }
{
    closed_by_widened();
    regions_widen();
    widened_is_scenario();
    closed_region_holds();
}

/// Where the target's wait has one value in a region, the widened region says neither more nor less than the region: a
/// search that splits the target's wait loses nothing in the end.
pub fn widened_is_exact()
    ensures { WidenedIsExact }
{}

/// The tables of a widened box follow from those of the box.
pub fn tables_widen()
    ensures { TablesWiden }
{}

/// The plain bound of a widened box follows from the tables of the box.
pub fn plain_bound_is_told()
    ensures { PlainBoundIsTold }
{}
