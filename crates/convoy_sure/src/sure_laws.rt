//! The laws of windows, and of what is sure in them. Each is the one clause of a function that does
//! nothing; a caller that needs the law calls the function.

ghost use Rattle.convoy_sure.specs.Below.{LawsBelow};
ghost use Rattle.convoy_sure.specs.SureLaws.{WindowsAreTables, WindowsEncloseMembers, CutsEnclose};
ghost use Rattle.convoy_sure.specs.SureLaws.{CutsByArrivalEnclose, CutsByCommitEnclose, CutsForCommitEnclose};
ghost use Rattle.convoy_sure.specs.SureLaws.{SureArrivalsRise, WhatIsSureHolds, SureLeadsHold};

use convoy_intervals::box_laws::members_are_enclosed;
use convoy_sim::protocol_laws::{
    last_raise, no_local_stamp_is_greater, stamps_rise, stamps_rise_past_commit,
};

/// The laws of the crates below on which those of sure leads stand.
fn laws_below()
    ensures { LawsBelow }
{
    stamps_rise();
    stamps_rise_past_commit();
    no_local_stamp_is_greater();
    last_raise();
}

/// At the destinations of messages the windows of a box say what its tables say.
pub fn windows_are_tables()
    ensures { WindowsAreTables }
{}

/// The windows of a box enclose its members.
pub fn windows_enclose_members()
    ensures { WindowsEncloseMembers }
{
    members_are_enclosed();
}

/// Windows that are cut for an arrival at a tick or later enclose each schedule with such an arrival
/// that they enclosed before.
#[tactic(auto, using(crate::proofs::WindowLaws::cuts_enclose))]
pub fn cuts_enclose()
    ensures { CutsEnclose }
{}

/// The same of windows that are cut for an arrival by a tick.
#[tactic(auto, using(crate::proofs::CutLaws::cuts_by_arrival_enclose))]
pub fn cuts_by_arrival_enclose()
    ensures { CutsByArrivalEnclose }
{}

/// The same of windows that are cut for a commit at a tick or later.
#[tactic(auto, using(crate::proofs::CutLaws::cuts_for_commit_enclose))]
pub fn cuts_for_commit_enclose()
    ensures { CutsForCommitEnclose }
{}

/// The same of windows that are cut for a commit by a tick.
#[tactic(auto, using(crate::proofs::CutLaws::cuts_by_commit_enclose))]
pub fn cuts_by_commit_enclose()
    ensures { CutsByCommitEnclose }
{}

/// What surely arrives at a group after a message has a stamp of greater time there.
pub fn sure_arrivals_rise()
    ensures { SureArrivalsRise }
{
    laws_below();
}

/// What is sure of a message by tables is so in each schedule whose arrival and settling they enclose.
pub fn what_is_sure_holds()
    ensures { WhatIsSureHolds }
{
    laws_below();
}

/// The stamp of a message at the target's group exceeds each other stamp by what its table of leads
/// says, and has at least its sure time.
pub fn sure_leads_hold()
    ensures { SureLeadsHold }
{
    laws_below();
}
