ghost use Rattle.std.specs.Prelude.{◌≡◌};
ghost use Rattle.convoy_best_order.specs.Cells.{layout_of, tells_order};

use super::target::Target;
use super::targets::are_judged;
use convoy_survey::Times;
use convoy_tables::Format;
use convoy_times::Measure;

/// What columns the table of an order has.
#[derive(Clone, Copy)]
pub(crate) struct Layout {
    pub(crate) times: Times,
    /// Whether it tells how deadlines are kept.
    pub(crate) is_judged: bool,
    /// Whether each row tells the order of the groups of which it speaks.
    pub(crate) tells_order: bool,
}

impl Layout {
    /// That of a table in this format for these targets: it tells how deadlines are kept where one of them has a deadline.
    pub(crate) fn of(
        format: Format,
        with_reasons: bool,
        measure: Option<Measure>,
        targets: &[Target],
    ) -> Layout
        ensures { result ≡ layout_of format with_reasons measure targets.now }
    {
        Layout {
            times: Times::of(format, measure),
            is_judged: are_judged(targets),
            tells_order: tells_order(format, with_reasons),
        }
    }
}

/// Whether each row tells its order: in text only where reasons are told, since a line tells the best one.
fn tells_order(format: Format, with_reasons: bool) -> bool
    ensures { result ≡ tells_order format with_reasons }
{
    match format {
        Format::Text => with_reasons,
        Format::Csv | Format::Json | Format::Html => true,
    }
}
