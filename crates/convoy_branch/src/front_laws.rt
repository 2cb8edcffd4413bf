//! The laws of fronts. Each is the one clause of a function that does nothing; a caller that needs
//! the law calls the function.

ghost use Rattle.convoy_branch.specs.FrontLaws.{FrontsAppend, FrontsBetter, FrontsBound, FrontsFilled};
ghost use Rattle.convoy_branch.specs.FrontLaws.{OnlyLeadsHaveLeadLeaves, PlainFrontsHaveNoStamps};
ghost use Rattle.convoy_branch.specs.FrontLaws.{TurnsAreFronts, TurnsAreNodes, UppersBegin, UppersRaised};
ghost use Rattle.convoy_branch.specs.FrontLaws.{WholeFrontsAreReadable, WholeFrontsAreTrees};

use convoy_checker::tree_laws::trees_cover;

/// No schedule has a latency above the upper bound of a front.
pub fn fronts_bound()
    ensures { FrontsBound }
{
    trees_cover();
}

/// Fronts over some regions and then fronts over others are fronts over all of them.
pub fn fronts_append()
    ensures { FrontsAppend }
{}

/// A front over a region may take the place of the region where it is left.
pub fn fronts_filled()
    ensures { FrontsFilled }
{}

/// A better record leaves each node of a front right.
pub fn fronts_better()
    ensures { FrontsBetter }
{}

/// What becomes of a region in a step is a front over the region.
pub fn turns_are_fronts()
    ensures { TurnsAreFronts }
{}

/// The node of a step may stand in a certificate.
pub fn turns_are_nodes()
    ensures { TurnsAreNodes }
{}

/// With no region left a front is a tree that closes the root.
pub fn whole_fronts_are_trees()
    ensures { WholeFrontsAreTrees }
{}

/// With no region left, a front of a search by plain bounds has no stamp leaf.
pub fn plain_fronts_have_no_stamps()
    ensures { PlainFrontsHaveNoStamps }
{}

/// Only a front of a search by leads has lead leaves, with no region left.
pub fn only_leads_have_lead_leaves()
    ensures { OnlyLeadsHaveLeadLeaves }
{}

/// With no region left, the nodes of a front can be read where they are few enough for its bounds.
pub fn whole_fronts_are_readable()
    ensures { WholeFrontsAreReadable }
{}

/// Where no region is left, the upper bound is the best latency.
pub fn uppers_begin()
    ensures { UppersBegin }
{}

/// The upper bound of a region and of others starts from what the region raises the best latency to.
pub fn uppers_raised()
    ensures { UppersRaised }
{}
