//! How a survey ends where outages are asked for.

ghost use Rattle.std.specs.Prelude.{◌≡◌};
ghost use Rattle.std.specs.List.{list_any};
ghost use Rattle.convoy_outage_answers.specs.SurveysThrough.{end_through, is_beyond_through, is_fault_through, is_open_through, verdict_through};

use super::row_through::RowThrough;
use convoy_commands::{Done, Verdict, deadline_at};
use convoy_survey::{is_beyond, is_open_by, verdict_at};

/// How a survey with these rows ends, by the deadlines of the messages.
pub(crate) fn end_through(deadlines: &[Option<u32>], rows: &[RowThrough]) -> Done
    ensures { result ≡ end_through deadlines.now rows.now }
{
    Done::by(
        has_beyond(deadlines, rows),
        has_fault(rows),
        has_open(deadlines, rows),
    )
}

/// Whether a row is beyond the deadline of its message.
fn has_beyond(deadlines: &[Option<u32>], rows: &[RowThrough]) -> bool
    ensures { result ≡ list_any (is_beyond_through deadlines.now) rows.now }
{
    rows.iter().any(|row| is_beyond_through(deadlines, row))
}

/// Whether memory ran out for a row.
fn has_fault(rows: &[RowThrough]) -> bool
    ensures { result ≡ list_any is_fault_through rows.now }
{
    rows.iter().any(|row| is_fault_through(row))
}

/// Whether a row is open.
fn has_open(deadlines: &[Option<u32>], rows: &[RowThrough]) -> bool
    ensures { result ≡ list_any (is_open_through deadlines.now) rows.now }
{
    rows.iter().any(|row| is_open_through(deadlines, row))
}

/// The verdict on a row, where its message has a deadline.
fn verdict_through(deadlines: &[Option<u32>], row: &RowThrough) -> Option<Verdict>
    ensures { result ≡ verdict_through deadlines.now row.now }
{
    let deadline = deadline_at(deadlines, row.surveyed.message);
    verdict_at(deadline, row.surveyed.finding.least(), row.through)
}

/// Whether a row is beyond the deadline of its message.
fn is_beyond_through(deadlines: &[Option<u32>], row: &RowThrough) -> bool
    ensures { result ≡ is_beyond_through deadlines.now row.now }
{
    is_beyond(verdict_through(deadlines, row))
}

/// Whether memory ran out for a row, while its latency was sought or while that through outages was.
fn is_fault_through(row: &RowThrough) -> bool
    ensures { result ≡ is_fault_through row.now }
{
    row.surveyed.finding.is_fault() || row.through.is_none()
}

/// Whether it is not known if a row keeps the deadline of its message, or where that has none the search did not end.
fn is_open_through(deadlines: &[Option<u32>], row: &RowThrough) -> bool
    ensures { result ≡ is_open_through deadlines.now row.now }
{
    is_open_by(
        verdict_through(deadlines, row),
        row.surveyed.finding.is_open(),
    )
}
