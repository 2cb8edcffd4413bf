//! What follows from the contracts of the commands, as calls that do nothing.

ghost use Rattle.convoy_commands.specs.CommandLaws.{VerdictsHold, WrittenTextsAreTold};

use convoy_toml_writer::written_text_laws::{schedules_are_given, texts_are_read};

/// Where the text is read that is written of a scenario with a schedule, as by `ceiling` and `scenario`, a
/// run is told of that scenario and that schedule.
pub fn written_texts_are_told()
    ensures { WrittenTextsAreTold }
{
    texts_are_read();
    schedules_are_given();
}

/// Where some schedule of a scenario has the least latency that is known, and none has a greater one than the most,
/// what [`Verdict::of`](super::Verdict::of) says of a deadline holds: that no schedule has a latency above it, or that
/// some schedule has one.
pub fn verdicts_hold()
    ensures { VerdictsHold }
{}
