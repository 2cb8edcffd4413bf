//! A sweep, and its curve, as commands tell them.

ghost use Rattle.std.specs.Prelude.{◌≡◌, ◌<◌, length};
ghost use Rattle.convoy_commands.specs.Replies.{SaysUnlessMemory, reply_of};
ghost use Rattle.convoy_sweep.specs.Told.{CurveTold, SweepTold, cause_of_setting, told_of_sweep};

use super::answering::sweep_answer;
use super::curve_answering::curve_answer;
use super::fault::{SettingFault, SweepFault};
use super::kinds::{Setting, Sweep};
use convoy_branch::Options;
use convoy_commands::{Answer, Fault, SweepCause, Watch};
use convoy_tables::Format;
use convoy_toml::Asked;
use std::alloc::Global;
use std::sync::Wait;
use std::thread::Threads;

/// What [`sweep_answer`] answers, with its faults as commands tell them: those of the text; `Fault::Sweep`, where its keys
/// can't be given these values; and `Fault::Memory`.
pub fn sweep_told<R: Threads + Wait + Sync, W: Watch + Sync>(
    rt: &R,
    alloc: Global,
    format: Format,
    sweep: &Sweep,
    envelope: bool,
    asked: &Asked,
    options: &Options,
    text: &[u8],
    watches: &[W],
) -> Result<Answer, Fault>
    requires { 0 < length watches.now }
    ensures { SaysUnlessMemory (SweepTold format sweep.now envelope asked.now options.now) text.now (reply_of result) }
{
    match sweep_answer(
        rt, alloc, format, sweep, envelope, asked, options, text, watches,
    ) {
        Ok(answer) => Ok(answer),
        Err(fault) => Err(told_of_sweep(fault)),
    }
}

/// What [`curve_answer`] answers, with its faults as commands tell them: as those of [`sweep_told`].
pub fn curve_told<R: Threads + Wait + Sync, W: Watch + Sync>(
    rt: &R,
    alloc: Global,
    setting: &Setting,
    envelope: bool,
    asked: &Asked,
    options: &Options,
    text: &[u8],
    watches: &[W],
) -> Result<Answer, Fault>
    requires { 0 < length watches.now }
    ensures { SaysUnlessMemory (CurveTold setting.now envelope asked.now options.now) text.now (reply_of result) }
{
    match curve_answer(rt, alloc, setting, envelope, asked, options, text, watches) {
        Ok(answer) => Ok(answer),
        Err(fault) => Err(told_of_sweep(fault)),
    }
}

/// Why a text gives no sweep, as a command tells it.
fn told_of_sweep(fault: SweepFault) -> Fault
    ensures { result ≡ told_of_sweep fault }
{
    match fault {
        SweepFault::Text(cause) => Fault::from(cause),
        SweepFault::First(cause) | SweepFault::Second(cause) => {
            Fault::Sweep(cause_of_setting(cause))
        }
        SweepFault::SameKey => Fault::Sweep(SweepCause::KeyTwice),
        SweepFault::TooManyRows => Fault::Sweep(SweepCause::TooManyValues),
        SweepFault::Value(point, _) => { Fault::Sweep(SweepCause::NoScenario(point.first.value)) }
    }
}

/// Why a setting gives its key no values, as a command tells it.
fn cause_of_setting(cause: SettingFault) -> SweepCause
    ensures { result ≡ cause_of_setting cause }
{
    match cause {
        SettingFault::Unknown => SweepCause::UnknownKey,
        SettingFault::Ambiguous => SweepCause::SeveralTables,
        SettingFault::NoWindow => SweepCause::NoIssue,
        SettingFault::Mixed => SweepCause::MixedTimes,
        SettingFault::NotWhole => SweepCause::NotWhole,
        SettingFault::TooLate => SweepCause::BeyondLimits,
        SettingFault::NoStep => SweepCause::NoStep,
        SettingFault::Backwards => SweepCause::Backwards,
        SettingFault::TooMany => SweepCause::TooManyValues,
        SettingFault::NoInterval => SweepCause::OneValue,
    }
}
