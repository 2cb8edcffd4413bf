//! The laws of surveys and of tables of ceilings. Each is the one clause of a function that does nothing; a
//! caller that needs the law calls the function.

ghost use Rattle.convoy_survey.specs.SurveyLaws.{AroundHasEachTarget, CeilingRowsAtAllEnclose, CeilingRowsAtAllHoldThrough, CeilingRowsEnclose, RowVerdictsHold, RowsAreLatencies, RowsAtAllEnclose, RowsEnclose};

use convoy_around::around_laws::around_is_scenario;
use convoy_commands::command_laws::verdicts_hold;
use convoy_scenario::widened_laws::{room_is_decided, still_targets_have_room};

/// The number of a row is that which `latency` answers for the scenario with that target, or around it.
pub fn rows_are_latencies()
    ensures { RowsAreLatencies }
{}

/// Around each target, each message has a row at each group that it goes to.
pub fn around_has_each_target()
    ensures { AroundHasEachTarget }
{
    around_is_scenario();
    still_targets_have_room();
    room_is_decided();
}

/// The two numbers of a row enclose the greatest latency, also where the search did not end: some schedule has the
/// least, and none has a latency above the most.
pub fn rows_enclose()
    ensures { RowsEnclose }
{}

/// What the verdict on a row says holds of the scenario with that target: where it is within its deadline, no schedule has
/// a latency above that, and where it is beyond, some schedule has.
pub fn row_verdicts_hold()
    ensures { RowVerdictsHold }
{
    verdicts_hold();
}

/// The two numbers of the row of a message at all groups enclose the greatest latency at its groups: some schedule has the
/// least at one of them, and none has a latency above the most at any.
pub fn rows_at_all_enclose()
    ensures { RowsAtAllEnclose }
{}

/// The two numbers of a row of ceilings enclose what traffic of the scenario's kinds may cost: some traffic has the
/// latency that is told, and none has one above the ceiling.
pub fn ceiling_rows_enclose()
    ensures { CeilingRowsEnclose }
{}

/// The two numbers of the row of a message at all groups enclose what such traffic may cost it there: some traffic has the
/// latency that is told at one of them, and none has one above the ceiling at any.
pub fn ceiling_rows_at_all_enclose()
    ensures { CeilingRowsAtAllEnclose }
{}

/// The ceiling through outages of the row of a message at all groups holds at each of them.
#[tactic(auto, using(crate::proofs::CeilingRows::hold_through))]
pub fn ceiling_rows_at_all_hold_through()
    ensures { CeilingRowsAtAllHoldThrough }
{}
