//! The least excess of some reasons, and the greatest one of some rows.

ghost use Rattle.std.specs.Prelude.{◌≡◌, ◌<◌, length, map};
ghost use Rattle.convoy_best_order.specs.Best.{excess_of_reason, excess_of_row};
ghost use Rattle.convoy_best_order.specs.Excesses.{IsGreatestOf, IsLeastOf};

use super::best::{Reason, Row};
use super::excess::Excess;

/// The least excess of some reasons, each at least.
pub(crate) fn least_excess(reasons: &[Reason]) -> Excess
    requires { 0 < length reasons.now }
    ensures { IsLeastOf (map excess_of_reason reasons.now) result }
{
    let mut least = excess_of_reason(&reasons[0]);
    for reason in reasons {
        least = least.lesser(excess_of_reason(reason));
    }
    least
}

/// The greatest excess of some rows, each at most.
pub(crate) fn greatest_excess(rows: &[Row]) -> Excess
    requires { 0 < length rows.now }
    ensures { IsGreatestOf (map excess_of_row rows.now) result }
{
    let mut greatest = excess_of_row(&rows[0]);
    for row in rows {
        greatest = greatest.greater(excess_of_row(row));
    }
    greatest
}

/// By how much the latency of a reason exceeds its limit at least.
fn excess_of_reason(reason: &Reason) -> Excess
    ensures { result ≡ excess_of_reason reason.now }
{
    reason.target.least_excess(reason.spread)
}

/// By how much the latency of a row exceeds its limit at most.
fn excess_of_row(row: &Row) -> Excess
    ensures { result ≡ excess_of_row row.now }
{
    row.target.most_excess(row.after)
}
