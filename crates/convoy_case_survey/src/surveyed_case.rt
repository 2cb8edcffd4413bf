ghost use Rattle.std.specs.Prelude.{◌≡◌};
ghost use Rattle.convoy_case_survey.specs.CaseSurveys.{is_case_beyond, is_case_faulty, is_case_open};

use convoy_scenario::Scenario;
use convoy_survey::{Surveyed, Times, is_row_beyond, is_row_open};

/// The survey of a case.
#[derive(Drop)]
pub(crate) struct SurveyedCase {
    /// Which case it is, from 0.
    pub number: usize,
    /// Its scenario.
    pub scenario: Scenario,
    /// The rows of its survey.
    pub rows: Vec<Surveyed>,
    /// How times are told.
    pub times: Times,
    /// The deadlines of its messages, by their numbers.
    pub deadlines: Vec<Option<u32>>,
}

impl SurveyedCase {
    /// Whether a row is beyond the deadline of its message.
    pub(crate) fn is_beyond(&self) -> bool
        ensures { result ≡ is_case_beyond self.now }
    {
        self.rows
            .iter()
            .any(|row| is_row_beyond(&self.deadlines, row))
    }

    /// Whether memory ran out for a row.
    pub(crate) fn is_faulty(&self) -> bool
        ensures { result ≡ is_case_faulty self.now }
    {
        self.rows.iter().any(|row| row.finding.is_fault())
    }

    /// Whether a row is open.
    pub(crate) fn is_open(&self) -> bool
        ensures { result ≡ is_case_open self.now }
    {
        self.rows
            .iter()
            .any(|row| is_row_open(&self.deadlines, row))
    }
}
