//! The table of all cases.

ghost use Rattle.std.specs.Prelude.{◌≡◌, ◌<◌, ◌++◌, length, IfOk, OnOk, string_bytes};
ghost use Rattle.convoy_case_survey.specs.CaseSurveys.{case_rows, cases_table, senders_word, sent_by};
ghost use Rattle.convoy_case_survey.specs.Surveying.{case_table};

use super::surveyed_case::SurveyedCase;
use convoy_scenario::lookup::sender_of;
use convoy_scenario::naming::{message_name, sender_word};
use convoy_scenario::{AllocResult, Scenario};
use convoy_survey::survey_table;
use convoy_tables::{Row, Table};
use std::alloc::{AllocError, Global};

/// The table of all cases, the rows of one below those of another.
pub(crate) fn cases_table(
    alloc: Global,
    with_ceilings: bool,
    cases: &[SurveyedCase],
) -> Result<Table, AllocError>
    ensures { IfOk result (λ table. table ≡ cases_table with_ceilings cases.now) }
{
    let Some((first, others)) = cases.split_first() else {
        return Ok(Table::new(alloc, Row::new(alloc)));
    };
    let mut table = case_table(alloc, with_ceilings, first)?;
    for case in others {
        table.append(case_table(alloc, with_ceilings, case)?)?;
    }
    Ok(table)
}

/// The table of a case, with one more column, which tells who sends.
fn case_table(alloc: Global, with_ceilings: bool, case: &SurveyedCase) -> Result<Table, AllocError>
    ensures { IfOk result (λ table. table ≡ case_table with_ceilings case.now) }
{
    let table = survey_table(
        alloc,
        with_ceilings,
        &case.times,
        &case.deadlines,
        &case.scenario,
        &case.rows,
    )?;
    let senders = senders_word(alloc, &case.scenario)?;
    table.with_column(alloc, "senders", &senders)
}

/// Each message and who sends it, in their order.
fn senders_word(alloc: Global, scenario: &Scenario) -> AllocResult<String>
    ensures { IfOk result (λ text. string_bytes text ≡ senders_word scenario.now) }
{
    let count = scenario.message_count();
    let mut text = sent_by(alloc, scenario, 0)?;
    for message in 1..count {
        let sent = sent_by(alloc, scenario, message)?;
        text.push_str(" ")?;
        text.push_str(&sent)?;
    }
    Ok(text)
}

/// A message and who sends it.
fn sent_by(alloc: Global, scenario: &Scenario, message: usize) -> AllocResult<String>
    requires { message < length scenario.now.multicasts }
    ensures { IfOk result (λ text. string_bytes text ≡ sent_by scenario.now message) }
{
    let name = message_name(scenario, message);
    let sender = sender_word(scenario, sender_of(scenario, message));
    format!(in alloc; "{name} {sender}")
}
