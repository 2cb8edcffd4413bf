//! The law of the listed order, said of drafts: of scenarios as they are written, where groups have names.
//! Each law is the one clause of a function that does nothing; a caller that needs the law calls the
//! function.

ghost use Rattle.convoy_orders.specs.Relisted.{RelistedDraftsAreRenumbered, RelistedDraftsGiveScenarios};
ghost use Rattle.convoy_orders.specs.RelistedOrders.{CeilingOfDraftIsSame, NoOrderOfDraftIsBelow};
ghost use Rattle.convoy_orders.specs.RelistedOrders.{TargetListedLastIsBest, TargetListedLastIsLeast};

use crate::order_laws::{ceiling_is_same, last_listed_is_best, no_order_is_below};
use convoy_scenario::scenario_laws::{
    drafts_give_scenarios, order_keeps_ranges, order_keeps_what_takes_time,
};

/// A draft and the same draft with its groups listed in another order give two scenarios that are one but
/// for the numbers of the groups.
pub fn relisted_drafts_are_renumbered()
    ensures { RelistedDraftsAreRenumbered }
{
    order_keeps_ranges();
    order_keeps_what_takes_time();
}

/// What keeps the rules for a scenario keeps them with its groups listed in any other order.
pub fn relisted_drafts_give_scenarios()
    ensures { RelistedDraftsGiveScenarios }
{}

/// No latency that a draft never exceeds is exceeded with the target's group listed last.
pub fn target_listed_last_is_best()
    ensures { TargetListedLastIsBest }
{
    drafts_give_scenarios();
    relisted_drafts_are_renumbered();
    last_listed_is_best();
}

/// The greatest latency of a draft with the target's group listed last is the least of those in all orders
/// of its groups.
pub fn target_listed_last_is_least()
    ensures { TargetListedLastIsLeast }
{
    target_listed_last_is_best();
}

/// Where each of some groups of a draft has a message that is so late there in some order, with none of the
/// message's destinations but some of these groups behind it, one of these messages is so late at its group
/// in every order.
pub fn no_order_of_draft_is_below()
    ensures { NoOrderOfDraftIsBelow }
{
    drafts_give_scenarios();
    relisted_drafts_are_renumbered();
    no_order_is_below();
}

/// The ceiling of a draft does not depend on the order in which its groups are listed.
pub fn ceiling_of_draft_is_same()
    ensures { CeilingOfDraftIsSame }
{
    relisted_drafts_are_renumbered();
    ceiling_is_same();
}
