//! The laws of trees that several workers search. Each is the one clause of a function that does
//! nothing; a caller that needs the law calls the function.

ghost use Rattle.convoy_share.specs.SharedTreeLaws.{OpenTreesAreFronts, PlacesAreFilled, ResultsJoin};
ghost use Rattle.convoy_share.specs.SharedTreeLaws.{TreesArePlaced, WholeTreesClose};

use convoy_branch::front_laws::{fronts_better, whole_fronts_are_trees};

/// The results of two workers are one result.
pub fn results_join()
    ensures { ResultsJoin }
{
    fronts_better();
}

/// Where each branch put was taken, once, the trees have places of their own.
pub fn trees_are_placed()
    ensures { TreesArePlaced }
{}

/// A place is filled by the tree of its number.
pub fn places_are_filled()
    ensures { PlacesAreFilled }
{}

/// Once every place is filled and no region is left, the nodes are a tree that closes the root.
pub fn whole_trees_close()
    ensures { WholeTreesClose }
{
    whole_fronts_are_trees();
}

/// Once every place is filled and regions are left, the pieces are a front.
pub fn open_trees_are_fronts()
    ensures { OpenTreesAreFronts }
{}
