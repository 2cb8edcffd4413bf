ghost use Rattle.std.specs.Prelude.{◌≡◌, ◌∷◌, [], ◌++◌, ◌<◌, length, IfOk, OnOk};
ghost use Rattle.std.specs.List.{list_any};
ghost use Rattle.convoy_commands.specs.Replies.{SaysUnlessMemory, reply_of};
ghost use Rattle.convoy_case_survey.specs.CaseSurveys.{case_asked, cases_end, is_case_beyond, is_case_faulty, is_case_open, survey_of_cases_says};
ghost use Rattle.convoy_case_survey.specs.Surveying.{SurveysAll, SurveysCase};

use super::surveyed_case::SurveyedCase;
use super::telling::cases_table;
use convoy_branch::Options;
use convoy_commands::{Answer, Done, Fault, Watch};
use convoy_scenario::{Key, ScenarioFault};
use convoy_survey::{Times, span_of, survey};
use convoy_tables::{Format, table_text};
use convoy_times::Measure;
use convoy_toml::{Asked, MOST_CASES, cases_of_text, read_toml_asked};
use std::alloc::{AllocError, Global};
use std::sync::Wait;
use std::thread::Threads;

/// The survey of a scenario text in which several may send a message: a table with the rows that
/// [`survey_answer`](convoy_survey::survey_answer) makes of each case, of who sends each message, one case below
/// another, and a last column that tells who sends (docs/FORMATS.md, "What `survey` writes"). Each search is watched, by
/// [`NoGate`](convoy_branch::NoGate) where nobody watches.
///
/// It ends as a survey does, by the rows of all cases. The faults are `Fault::Scenario`, where the text is that of no
/// scenario in some case, or that of the key `from`, where there are more cases than [`MOST_CASES`]; and `Fault::Memory`.
pub fn survey_of_cases_answer<R: Threads + Wait + Sync, W: Watch + Sync>(
    rt: &R,
    alloc: Global,
    format: Format,
    with_ceilings: bool,
    asked: &Asked,
    options: &Options,
    text: &[u8],
    watches: &[W],
) -> Result<Answer, Fault>
    requires { 0 < length watches.now }
    ensures { SaysUnlessMemory (survey_of_cases_says format with_ceilings asked.now options.now) text.now
        (reply_of result) }
{
    let count = cases_of_text(alloc, text)?;
    if count > MOST_CASES {
        return Err(Fault::Scenario(ScenarioFault::Shape(Key::From)));
    }
    let cases = survey_all(rt, alloc, format, asked, count, options, text, watches)?;
    let done = cases_end(&cases);
    let table = cases_table(alloc, with_ceilings, &cases)?;
    let text = table_text(alloc, &table, format)?;
    Ok(Answer {
        done,
        text,
        known: None,
    })
}

/// The surveys of so many cases of a text.
fn survey_all<R: Threads + Wait + Sync, W: Watch + Sync>(
    rt: &R,
    alloc: Global,
    format: Format,
    asked: &Asked,
    count: u64,
    options: &Options,
    text: &[u8],
    watches: &[W],
) -> Result<Vec<SurveyedCase>, Fault>
    requires { 0 < length watches.now }
    ensures { SurveysAll format asked.now count options.now text.now result }
{
    let mut cases = Vec::new(alloc);
    for number in 0..count as usize {
        let case = survey_case(rt, alloc, format, asked, number, options, text, watches)?;
        push_case(case, &mut cases)?;
    }
    Ok(cases)
}

/// Appends a case.
fn push_case(case: SurveyedCase, cases: &mut Vec<SurveyedCase>) -> Result<(), AllocError>
    ensures { OnOk result (cases.new.items ≡ cases.old.items ++ case ∷ []) }
{
    Ok(cases.push(case)?)
}

/// The survey of the case of that number.
fn survey_case<R: Threads + Wait + Sync, W: Watch + Sync>(
    rt: &R,
    alloc: Global,
    format: Format,
    asked: &Asked,
    number: usize,
    options: &Options,
    text: &[u8],
    watches: &[W],
) -> Result<SurveyedCase, Fault>
    requires { 0 < length watches.now }
    ensures { SurveysCase format asked.now number options.now text.now result }
{
    let asked = case_asked(asked, number as u64)?;
    let input = read_toml_asked(alloc, text, &asked)?;
    let scenario = input.scenario;
    // A scenario is well formed.
    let _count = scenario.message_count();
    let span = span_of(&asked, text, &scenario);
    let rows = survey(rt, alloc, span, &scenario, options, watches)?;
    let times = Times::of(format, Measure::of(&scenario, options.unit(), input.unit));
    Ok(SurveyedCase {
        number,
        scenario,
        rows,
        times,
        deadlines: input.deadlines,
    })
}

/// The case of that number, whatever its target. Fails where memory runs out, and else never.
pub fn case_asked(asked: &Asked, number: u64) -> Result<Asked, AllocError>
    ensures { IfOk result (λ case. case ≡ case_asked asked.now number) }
{
    Ok(Asked {
        case: Some(number),
        ..asked.copy()?
    })
}

/// How a survey of these cases ends.
fn cases_end(cases: &[SurveyedCase]) -> Done
    ensures { result ≡ cases_end cases.now }
{
    Done::by(
        is_one_beyond(cases),
        is_one_faulty(cases),
        is_one_open(cases),
    )
}

/// Whether a row of a case is beyond the deadline of its message.
fn is_one_beyond(cases: &[SurveyedCase]) -> bool
    ensures { result ≡ list_any is_case_beyond cases.now }
{
    cases.iter().any(|case| case.is_beyond())
}

/// Whether memory ran out for a row of a case.
fn is_one_faulty(cases: &[SurveyedCase]) -> bool
    ensures { result ≡ list_any is_case_faulty cases.now }
{
    cases.iter().any(|case| case.is_faulty())
}

/// Whether a row of a case is open.
fn is_one_open(cases: &[SurveyedCase]) -> bool
    ensures { result ≡ list_any is_case_open cases.now }
{
    cases.iter().any(|case| case.is_open())
}
