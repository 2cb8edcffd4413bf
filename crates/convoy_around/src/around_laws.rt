//! The laws of scenarios around their targets. Each is the one clause of a function that does nothing; a caller that
//! needs the law calls the function.

ghost use Rattle.convoy_around.specs.AroundLaws.{AroundForgetsTargets, AroundIsScenario};

/// Around each message and each group that it goes to there is a well-formed scenario.
pub fn around_is_scenario()
    ensures { AroundIsScenario }
{}

/// A scenario around one target is, around another one, what the scenario itself is around that.
pub fn around_forgets_targets()
    ensures { AroundForgetsTargets }
{}
