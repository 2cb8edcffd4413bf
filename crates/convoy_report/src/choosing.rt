//! Which worst runs a report shows.

ghost use Rattle.std.specs.Prelude.{◌≡◌, IfOk};
ghost use Rattle.convoy_report.specs.Reports.{is_of_target, is_shown_besides, shown_targets};

use convoy_scenario::Scenario;
use convoy_survey::{Surveyed, is_row_beyond};
use std::alloc::{AllocError, Global};

/// How many runs are shown at most.
pub const MOST_RUNS: usize = 9;

/// The messages and groups of which the worst runs are shown: the scenario's target, and then each row beyond its
/// deadline, in their order, but no more than so many.
pub(crate) fn shown_targets(
    alloc: Global,
    scenario: &Scenario,
    deadlines: &[Option<u32>],
    rows: &[Surveyed],
) -> Result<Vec<(usize, usize)>, AllocError>
    ensures { IfOk result (λ targets. targets.items ≡ shown_targets scenario.now deadlines.now rows.now) }
{
    let mut targets = Vec::new(alloc);
    targets.push((scenario.target_message(), scenario.target_group()))?;
    for row in rows {
        if is_shown_besides(scenario, deadlines, row) {
            targets.push((row.message, row.group))?;
        }
    }
    targets.truncate(MOST_RUNS);
    Ok(targets)
}

/// Whether the run of a row is shown besides that of the target.
fn is_shown_besides(scenario: &Scenario, deadlines: &[Option<u32>], row: &Surveyed) -> bool
    ensures { result ≡ is_shown_besides scenario.now deadlines.now row.now }
{
    is_row_beyond(deadlines, row) && !is_of_target(scenario, row)
}

/// Whether a row is that of the target.
fn is_of_target(scenario: &Scenario, row: &Surveyed) -> bool
    ensures { result ≡ is_of_target scenario.now row.now }
{
    row.message == scenario.target_message() && row.group == scenario.target_group()
}
