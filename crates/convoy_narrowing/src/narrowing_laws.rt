//! The laws of the windows of regions. Each is the one clause of a function that does nothing; a caller that
//! needs the law calls the function.

ghost use Rattle.convoy_narrowing.specs.NarrowingLaws.{ClosedAsBox, ClosedRegionHolds};
ghost use Rattle.convoy_narrowing.specs.NarrowingLaws.{NarrowedEncloseMembers};

use convoy_leads::lead_laws::{closed_holds_over_windows, leads_hold};
use convoy_sure::sure_laws::{
    cuts_by_arrival_enclose, cuts_by_commit_enclose, cuts_enclose, cuts_for_commit_enclose,
    windows_enclose_members,
};

/// The windows of a region enclose its members.
pub fn narrowed_enclose_members()
    ensures { NarrowedEncloseMembers }
{
    windows_enclose_members();
    cuts_enclose();
    cuts_by_arrival_enclose();
    cuts_for_commit_enclose();
    cuts_by_commit_enclose();
}

/// No member of a region that leads close for a latency has a greater one.
pub fn closed_region_holds()
    ensures { ClosedRegionHolds }
{
    narrowed_enclose_members();
    closed_holds_over_windows();
    leads_hold();
}

/// Where no order is told, leads close the region for the same latencies as its box.
#[tactic(auto, using(crate::proofs::RegionWindows::closed_as_box))]
pub fn closed_as_box()
    ensures { ClosedAsBox }
{}
