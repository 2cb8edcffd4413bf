ghost use Rattle.std.specs.Prelude.{◌≡◌, ◌⊎◌, IfOk};
ghost use Rattle.convoy_arguments.specs.Verdicts.{EndsAtOnce, IsVerdict, WantsOnlyIfJudges};

use super::asking::{Unasked, asked_of};
use super::escaping::{are_shown, with_escapes};
use super::input::{Input, Inputs};
use super::limits::{HELP, REJECTED};
use super::manner::Manner;
use super::options::options_of;
use super::tasks::{task_of, tells_status};
use super::verdict::Verdict;
use clap::error::ErrorKind;
use clap::{ArgMatches, Error};
use convoy_command_line::{parser, without_tip};
use convoy_task_list::{CertificateTask, ScenarioTask, Task, TraceTask};
use convoy_toml::Asked;
use std::alloc::{AllocError, Global};
use std::convert::AsStr;

/// What is told where `check` would read both of its texts from standard input.
const BOTH_STANDARD: &str =
    "error: the certificate and the scenario cannot both be read from standard input: name a file for one\n";

/// What is told where `fits` would, or `ranges --check`.
const TRACE_STANDARD: &str =
    "error: the trace and the scenario cannot both be read from standard input: name a file for one\n";

/// The option for which there are no hints.
const QUIET: &str = "--quiet";

/// What is to be done for these words, the program's own name not among them.
pub fn judge<S: AsStr>(alloc: Global, words: &[S]) -> Verdict
    ensures { IsVerdict result }
{
    match verdict_of(alloc, words) {
        Ok(verdict) => verdict,
        Err(error) => rejection(
            alloc,
            &error_to_show(alloc, words, error),
            asks_for_quiet(words),
        ),
    }
}

/// Why words are rejected, told of these words with escapes in place of control characters. They are rejected as the
/// words themselves are, since no command and no option has a backslash in its name, and no value but that of a name.
fn error_to_show<S: AsStr>(alloc: Global, words: &[S], error: Error) -> Error {
    let escaped = match with_escapes(alloc, words) {
        Ok(None) => return error,
        Ok(Some(escaped)) => escaped,
        Err(failed) => return Error::from(failed),
    };
    match verdict_of(alloc, &escaped) {
        Ok(_) => error,
        Err(error) => error,
    }
}

/// Whether words that could not be parsed ask for no hints all the same.
fn asks_for_quiet<S: AsStr>(words: &[S]) -> bool {
    words.iter().any(|word| word.as_str() == QUIET)
}

/// What is to be done for a command line that is not UTF-8.
pub fn judge_bytes(alloc: Global) -> Verdict
    ensures { EndsAtOnce result }
{
    told(
        alloc,
        "error: the command line is not UTF-8\n",
        REJECTED,
        false,
    )
}

/// The verdict that ends the program with that text. A text that a terminal might obey is left out: since words are
/// told with escapes, there is none.
#[tactic(auto, using(crate::proofs::Shown::nothing_is_shown))]
fn told(alloc: Global, text: &str, status: u8, is_quiet: bool) -> Verdict
    requires { (status ≡ 0) ⊎ (status ≡ 2) }
    ensures { EndsAtOnce result }
{
    let shown = if are_shown(text) { text } else { "" };
    match String::from_str(alloc, shown) {
        Ok(text) => Verdict::Text {
            text,
            status,
            is_quiet,
        },
        Err(AllocError) => Verdict::Memory,
    }
}

/// The verdict on words that are rejected with that text.
fn rejected(alloc: Global, text: &str, is_quiet: bool) -> Verdict
    ensures { IsVerdict result }
{
    told(alloc, text, REJECTED, is_quiet)
}

/// The command that the words ask for, or a batch. The word `help` asks for what `--help` does. Without a
/// command word the command is `first`, and before `-` it may be left out, too.
fn verdict_of<S: AsStr>(alloc: Global, words: &[S]) -> Result<Verdict, Error>
    ensures { IfOk result IsVerdict }
{
    match words {
        [help] if help.as_str() == "help" => command_of(alloc, ["--help"].as_slice(), true),
        [help, command] if help.as_str() == "help" => {
            command_of(alloc, [command.as_str(), "--help"].as_slice(), true)
        }
        _ if begins_with_dash(words) => command_of(alloc, &with_first(alloc, words)?, false),
        _ => command_of(alloc, words, true),
    }
}

/// Whether the first word that is not `--quiet` is `-`.
fn begins_with_dash<S: AsStr>(words: &[S]) -> bool {
    match words.iter().find(|word| word.as_str() != QUIET) {
        Some(word) => word.as_str() == "-",
        None => false,
    }
}

/// The words after the command word `first`.
fn with_first<'a, S: AsStr>(alloc: Global, words: &'a [S]) -> Result<Vec<&'a str>, AllocError> {
    let mut all = vec![in alloc; "first"]?;
    for word in words {
        all.push(word.as_str())?;
    }
    Ok(all)
}

/// What these words ask for, of which the person wrote the command word, where there is one, or did not.
fn command_of<S: AsStr>(alloc: Global, words: &[S], names_command: bool) -> Result<Verdict, Error>
    ensures { IfOk result IsVerdict }
{
    let matches = parser(alloc)?.try_get_matches_from(words)?;
    match matches.subcommand() {
        Some((name, given)) => {
            verdict_of_command(alloc, name, given, Manner::of_command(given, names_command))
        }
        None => Ok(Verdict::Ask {
            task: Task::Scenario {
                asked: Asked::as_written(),
                what: ScenarioTask::First,
            },
            inputs: Inputs {
                text: Input::Standard,
                wanted: None,
            },
            manner: Manner::of_program(&matches),
        }),
    }
}

/// What the command of that name asks for. Where a value is none, the words are rejected.
fn verdict_of_command(
    alloc: Global,
    name: &str,
    given: &ArgMatches<'_>,
    manner: Manner,
) -> Result<Verdict, Error>
    ensures { IfOk result IsVerdict }
{
    match asked_of(alloc, name, given) {
        Ok(asked) => verdict_for(alloc, name, given, asked, manner),
        Err(Unasked::Rejected(text)) => { Ok(rejected(alloc, text.as_str(), manner.is_quiet)) }
        Err(Unasked::Memory) => Ok(Verdict::Memory),
    }
}

/// What the command of that name asks for, where this is asked of the text.
fn verdict_for(
    alloc: Global,
    name: &str,
    given: &ArgMatches<'_>,
    asked: Asked,
    manner: Manner,
) -> Result<Verdict, Error>
    ensures { IfOk result IsVerdict }
{
    let text = Input::of(alloc, given.get_str("file"))?;
    if name == "batch" && given.get_str("format").is_none() {
        return Ok(Verdict::Batch {
            tells_status: tells_status(given),
            asked,
            options: options_of(given),
            input: text,
            manner,
        });
    }
    let task = match task_of(alloc, name, given, asked) {
        Ok(task) => task,
        Err(Unasked::Rejected(text)) => {
            return Ok(rejected(alloc, text.as_str(), manner.is_quiet));
        }
        Err(Unasked::Memory) => return Ok(Verdict::Memory),
    };
    let wanted = wanted_for(alloc, &task, given)?;
    if let (Some(Input::Standard), Input::Standard) = (&wanted, &text) {
        return Ok(rejected(alloc, both_standard(&task), manner.is_quiet));
    }
    Ok(Verdict::Ask {
        task,
        inputs: Inputs { text, wanted },
        manner,
    })
}

/// What is told where both texts of a task would be read from standard input.
fn both_standard(task: &Task) -> &'static str {
    match task {
        Task::Trace(_) => TRACE_STANDARD,
        _ => BOTH_STANDARD,
    }
}

/// The input of the scenario that a certificate is to be of, where `check` names one, or by which a trace is judged; no other
/// task has one.
fn wanted_for(
    alloc: Global,
    task: &Task,
    given: &ArgMatches<'_>,
) -> Result<Option<Input>, AllocError>
    ensures { IfOk result (WantsOnlyIfJudges task.now) }
{
    match task {
        Task::Certificate {
            what: CertificateTask::Check { .. },
            ..
        }
        | Task::Trace(TraceTask::Fits { .. }) => scenario_in(alloc, given, "scenario"),
        Task::Trace(TraceTask::Beside { .. }) => scenario_in(alloc, given, "check"),
        _ => Ok(None),
    }
}

/// The input of the scenario that the option names, if it names one.
fn scenario_in(
    alloc: Global,
    given: &ArgMatches<'_>,
    option: &str,
) -> Result<Option<Input>, AllocError> {
    match given.get_str(option) {
        Some(name) => Ok(Some(Input::of(alloc, Some(name))?)),
        None => Ok(None),
    }
}

/// What is to be done where no command was found: clap's own text is to be written.
fn rejection(alloc: Global, error: &Error, is_quiet: bool) -> Verdict
    ensures { EndsAtOnce result }
{
    if error.kind() == ErrorKind::OutOfMemory {
        return Verdict::Memory;
    }
    let status = if error.exit_code() == 0 {
        HELP
    } else {
        REJECTED
    };
    match text_of(alloc, error) {
        Ok(text) => told(alloc, text.as_str(), status, is_quiet),
        Err(AllocError) => Verdict::Memory,
    }
}

/// The text for such an error: help as it is, and a rejection without a tip that misleads.
fn text_of(alloc: Global, error: &Error) -> Result<String, AllocError> {
    let text = error.to_string(alloc)?;
    if error.exit_code() == 0 {
        return Ok(text);
    }
    without_tip(alloc, text.as_str())
}
