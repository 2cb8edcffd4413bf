//! A message at all the groups that it goes to.

ghost use Rattle.std.specs.Prelude.{◌≡◌, ◌<◌, length, All, IfOk};
ghost use Rattle.convoy_survey.specs.AtAll.{answer_at_all, at_all, cause_with, ceiling_at_all, greater, has_least, least_at_all, most_at_all, rows_of};

use super::finding::{Cause, Finding, Surveyed};
use convoy_ceiling::ceiling;
use convoy_scenario::Scenario;
use std::alloc::{AllocError, Global};

/// What is known of the greatest latency of a message at all the groups that it goes to: when a client that waits for
/// all of them has its answer.
#[derive(Clone, Copy)]
pub struct AtAll {
    /// What it is at least, in ticks; none where memory ran out at one of the groups.
    pub least: Option<u32>,
    /// What it is at most, in ticks; none where memory ran out at one of the groups.
    pub most: Option<u32>,
    /// Why it is so late in a schedule that has the least; none where memory ran out.
    pub cause: Option<Cause>,
}

impl AtAll {
    /// What is known by the rows of the message.
    pub fn of(rows: &[Surveyed]) -> AtAll
        ensures { result ≡ at_all rows.now }
    {
        let least = least_at_all(rows);
        let cause = match least {
            Some(least) => cause_with(least, rows),
            None => None,
        };
        AtAll {
            least,
            most: most_at_all(rows),
            cause,
        }
    }

    /// The words for what is known: of a fault those of its line.
    pub fn answer(self) -> &'static str
        ensures { result.now ≡ answer_at_all self.least self.most }
    {
        let (Some(least), Some(most)) = (self.least, self.most) else {
            return Finding::OutOfMemory.answer();
        };
        if least == most { "greatest" } else { "open" }
    }
}

/// The rows of a message. Fails where memory runs out, and else never.
pub fn rows_of(
    alloc: Global,
    message: usize,
    rows: &[Surveyed],
) -> Result<Vec<Surveyed>, AllocError>
    ensures { IfOk result (λ kept. kept.items ≡ rows_of message rows.now) }
{
    let mut kept = Vec::new(alloc);
    for row in rows {
        if row.message == message {
            kept.push(*row)?;
        }
    }
    Ok(kept)
}

/// The greatest ceiling of a message's rows, in ticks.
pub fn ceiling_at_all(scenario: &Scenario, rows: &[Surveyed]) -> u32
    requires { All (λ row. row.message < length scenario.now.multicasts) rows.now }
    ensures { result ≡ ceiling_at_all scenario.now rows.now }
{
    let mut greatest: u32 = 0;
    for row in rows {
        greatest = greatest.max(ceiling(scenario, row.message, row.group));
    }
    greatest
}

/// The greatest of the leasts of some rows, in ticks, where all of them are known.
fn least_at_all(rows: &[Surveyed]) -> Option<u32>
    ensures { result ≡ least_at_all rows.now }
{
    let mut least = Some(0);
    for row in rows {
        least = greater(least, row.finding.least());
    }
    least
}

/// The greatest of the mosts of some rows, in ticks, where all of them are known.
fn most_at_all(rows: &[Surveyed]) -> Option<u32>
    ensures { result ≡ most_at_all rows.now }
{
    let mut most = Some(0);
    for row in rows {
        most = greater(most, row.finding.most());
    }
    most
}

/// The greater of two numbers, where both are known.
pub fn greater(number: Option<u32>, other: Option<u32>) -> Option<u32>
    ensures { result ≡ greater number other }
{
    match (number, other) {
        (Some(number), Some(other)) => Some(number.max(other)),
        (Some(_), None) | (None, _) => None,
    }
}

/// Why the target is so late in the first of some rows that has this least.
fn cause_with(least: u32, rows: &[Surveyed]) -> Option<Cause>
    ensures { result ≡ cause_with least rows.now }
{
    for row in rows {
        if has_least(least, row) {
            return row.finding.cause();
        }
    }
    None
}

/// Whether a row has this least.
fn has_least(least: u32, row: &Surveyed) -> bool
    ensures { result ≡ has_least least row.now }
{
    match row.finding.least() {
        Some(number) => number == least,
        None => false,
    }
}
