//! The laws of `check`. Each is the one clause of a function that does nothing; a caller that needs the law calls the
//! function.

ghost use Rattle.convoy_text_answers.specs.CheckLaws.{YesIsGiven, YesIsGreatest};

use convoy_certificate::certificate_laws::texts_differ;

/// Where a scenario is wanted and the answer is a yes, the number of its first line is the greatest latency of
/// that scenario, whatever is told below.
pub fn yes_is_greatest()
    ensures { YesIsGreatest }
{}

/// The text of a valid certificate of the scenario that is wanted gets a yes, and no other answer.
pub fn yes_is_given()
    ensures { YesIsGiven }
{
    texts_differ();
}
