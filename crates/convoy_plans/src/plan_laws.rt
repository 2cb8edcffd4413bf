//! The laws of plans. Each is the one clause of a function that does nothing; a caller that needs a law calls its function.

ghost use Rattle.convoy_plans.specs.PlanLaws.{GroupsHaveNoLinksToThemselves, MessagesAreOfPlans, RangesAreOfSites};

/// In the scenario of a placement what goes from a place to another group of the plan may take as long as what is written
/// from site to site.
pub fn ranges_are_of_sites()
    ensures { RangesAreOfSites }
{}

/// In the scenario of a placement no group has a link to itself: neither a message that it sends to itself nor its own stamp
/// takes time.
pub fn groups_have_no_links_to_themselves()
    ensures { GroupsHaveNoLinksToThemselves }
{}

/// The scenario of each placement has the plan's messages, from where they are sent to the groups that they go to.
pub fn messages_are_of_plans()
    ensures { MessagesAreOfPlans }
{}
