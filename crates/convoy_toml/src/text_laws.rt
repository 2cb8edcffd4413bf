//! The laws of scenario texts. Each is the one clause of a function that does nothing; a caller that needs a
//! law calls its function.

ghost use Rattle.convoy_toml.specs.TextLaws.{AgreementsLengthenLinks, CommonDivisorsAreGreatest, TargetsMayBeSaid, TextsGiveScenarios, TextsHaveSpans};

use convoy_around::around_laws::around_is_scenario;
use convoy_scenario::scenario_laws::drafts_give_scenarios;

/// What a text is read as is a well-formed scenario, whatever is asked beside it.
pub fn texts_give_scenarios()
    ensures { TextsGiveScenarios }
{
    drafts_give_scenarios();
    around_is_scenario();
}

/// Where all is asked around the target, the scenario that is read has a span.
pub fn texts_have_spans()
    ensures { TextsHaveSpans }
{}

/// A text in which a target at one group is written gives the same, whether the target may be left out or not.
pub fn targets_may_be_said()
    ensures { TargetsMayBeSaid }
{}

/// The common divisor of two lengths divides both, and each number that divides both divides it.
pub fn common_divisors_are_greatest()
    ensures { CommonDivisorsAreGreatest }
{}

/// Where replicas agree, each link to such a group from another place takes what is written and what they need to agree, and
/// the group has a link to itself that takes just this; other links are as they are written.
pub fn agreements_lengthen_links()
    ensures { AgreementsLengthenLinks }
{}
