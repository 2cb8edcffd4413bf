//! The laws of leads. Each is the one clause of a function that does nothing; a caller that needs the
//! law calls the function.

ghost use Rattle.convoy_starts.specs.Below.{LawsBelow};
ghost use Rattle.convoy_leads.specs.LeadLaws.{BehindIsNotAhead, ClosedHoldsOverWindows, LeadsHold, ClosesAtPlain};

use convoy_sim::protocol_laws::{
    delivery_law, earlier_arrives_before_commit, final_stamp_is_local, last_raise,
    local_stamp_names_group, no_local_stamp_is_greater,
};
use convoy_stamps::stamp_bound_laws::stamps_within_reach;
pub use convoy_sure::sure_laws::sure_leads_hold;
use convoy_sure::sure_laws::{
    cuts_enclose, sure_arrivals_rise, what_is_sure_holds, windows_are_tables,
    windows_enclose_members,
};

/// The laws of the crates below on which those of leads stand.
fn laws_below()
    ensures { LawsBelow }
{
    delivery_law();
    earlier_arrives_before_commit();
    local_stamp_names_group();
    final_stamp_is_local();
    no_local_stamp_is_greater();
    last_raise();
    stamps_within_reach();
    cuts_enclose();
    sure_arrivals_rise();
    what_is_sure_holds();
}

/// Where windows enclose an assignment and are closed for a latency, it has no greater one.
pub fn closed_holds_over_windows()
    ensures { ClosedHoldsOverWindows }
{
    laws_below();
}

/// Where windows enclose an assignment, a message that arrives at a group at a tick or later, and is behind where it does,
/// is not ahead of the target.
pub fn behind_is_not_ahead()
    ensures { BehindIsNotAhead }
{
    laws_below();
}

/// No assignment in a box that leads close for a latency has a greater one.
pub fn leads_hold()
    ensures { LeadsHold }
{
    closed_holds_over_windows();
    windows_enclose_members();
}

/// Leads close each box for its plain bound.
pub fn closes_at_plain()
    ensures { ClosesAtPlain }
{
    windows_are_tables();
}
