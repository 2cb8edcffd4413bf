ghost use Rattle.std.specs.Prelude.{◌≡◌, ◌<◌, length, IfOk};
ghost use Rattle.convoy_sweep.specs.Answers.{sweep_reply};
ghost use Rattle.convoy_sweep.specs.Curves.{CurveSaysUnlessMemory, of_one};

use super::answering::end_of;
use super::copying::copy_setting;
use super::curves::curve_text;
use super::fault::SweepFault;
use super::kinds::{Setting, Sweep};
use super::preparing::{Prepared, prepare};
use super::rows::sweep_rows;
use convoy_branch::Options;
use convoy_commands::{Answer, Watch, deadline_at};
use convoy_times::Measure;
use convoy_toml::Asked;
use std::alloc::{AllocError, Global};
use std::sync::Wait;
use std::thread::Threads;

/// How the greatest latency changes with a key of a text, as an image, the text of which is SVG (docs/FORMATS.md, "What
/// `sweep` writes"): the rows that [`sweep_answer`](super::sweep_answer) tells of that key alone, each a mark above its
/// value or its window, at the latency, or from the least to the most that it may be. Where the target has a deadline that
/// is a line, and where the length of a tick is known the axes are in the unit that the options ask for or else the text
/// writes. Each value, its latency and the deadline are told in words too.
///
/// It ends as that table does, and its faults are the same.
pub fn curve_answer<R: Threads + Wait + Sync, W: Watch + Sync>(
    rt: &R,
    alloc: Global,
    setting: &Setting,
    envelope: bool,
    asked: &Asked,
    options: &Options,
    text: &[u8],
    watches: &[W],
) -> Result<Answer, SweepFault>
    requires { 0 < length watches.now }
    ensures { CurveSaysUnlessMemory setting.now envelope asked.now options.now text.now (sweep_reply result) }
{
    let sweep = of_one(setting)?;
    let Prepared { input, made } = prepare(alloc, &sweep, envelope, asked, text)?;
    let rows = sweep_rows(rt, alloc, &made, options, watches)?;
    let scenario = input.scenario;
    let deadline = deadline_at(&input.deadlines, scenario.target_message());
    let measure = Measure::of(&scenario, options.unit(), input.unit);
    let text = curve_text(alloc, measure, deadline, &setting.key, &scenario, &rows)?;
    Ok(Answer::about(end_of(deadline, &rows), text, scenario, input.plain))
}

/// The sweep of one key, in memory of its own. Fails where memory runs out, and else never.
fn of_one(setting: &Setting) -> Result<Sweep, AllocError>
    ensures { IfOk result (λ sweep. sweep ≡ of_one setting.now) }
{
    Ok(Sweep {
        first: copy_setting(setting)?,
        second: None,
    })
}
