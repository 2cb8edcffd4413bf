//! The laws of trees and certificates. Each is the one clause of a function that does nothing; a
//! caller that needs the law calls the function.

ghost use Rattle.convoy_checker.specs.TreeLaws.{BoundLeavesCover, PointLeavesCover, StampLeavesCover};
ghost use Rattle.convoy_checker.specs.TreeLaws.{LeadLeavesCover, TreesCover};
ghost use Rattle.convoy_checker.specs.TreeLaws.{SplitIsTwoTrees, ValidIsGreatest, CheckedIsValid};

use convoy_intervals::box_laws::{halves_partition, members_are_assignments, root_is_box};
use convoy_origin::from_origin_laws::{
    leads_from_origin_hold, plain_from_origin_holds, stamp_from_origin_holds,
};
use convoy_regions::region_laws::{
    decided_has_one_latency, halves_are_regions, orders_partition, root_holds_all,
};

/// Where a box is closed by its plain bound, no member of it has a greater latency than the stated
/// one, in whatever order ties fall.
pub fn bound_leaves_cover()
    ensures { BoundLeavesCover }
{
    plain_from_origin_holds();
    members_are_assignments();
}

/// Where a region is closed as a point whose ties are decided, no member of it has a greater latency than the
/// stated one.
pub fn point_leaves_cover()
    ensures { PointLeavesCover }
{
    decided_has_one_latency();
}

/// Where a box is closed by its stamp bound, in whole ticks, no member of it has a greater latency than the stated
/// one.
pub fn stamp_leaves_cover()
    ensures { StampLeavesCover }
{
    stamp_from_origin_holds();
    members_are_assignments();
}

/// Where leads close a region for a latency, no member of it has a greater one.
pub fn lead_leaves_cover()
    ensures { LeadLeavesCover }
{
    leads_from_origin_hold();
    members_are_assignments();
}

/// Where a leaf of some kind closes a box for a latency, no member of it has a greater one.
pub fn leaves_cover()
    ensures bound { BoundLeavesCover }
    ensures point { PointLeavesCover }
    ensures stamp { StampLeavesCover }
    ensures lead { LeadLeavesCover }
{
    bound_leaves_cover();
    point_leaves_cover();
    stamp_leaves_cover();
    lead_leaves_cover();
}

/// Nodes over one box that begin with a split are that split, a tree over the lower half and a tree
/// over the upper half; and the other way round.
pub fn split_is_two_trees()
    ensures { SplitIsTwoTrees }
{}

/// Where a tree over the root is right for a latency, no assignment has a greater one.
pub fn trees_cover()
    ensures { TreesCover }
{
    root_is_box();
    root_holds_all();
    halves_are_regions();
    halves_partition();
    orders_partition();
    leaves_cover();
}

/// The latency of a valid certificate is the greatest of its scenario.
pub fn valid_is_greatest()
    ensures { ValidIsGreatest }
{
    trees_cover();
}

/// Checking answers the latency of a certificate just where the certificate is valid.
pub fn checked_is_valid()
    ensures { CheckedIsValid }
{}
