//! Surveys of texts in which several may send a message: the rows of each case, of who sends.
#![tactic(auto)]

pub use answering::{case_asked, survey_of_cases_answer};

mod answering;
mod surveyed_case;
mod telling;
