ghost use Rattle.std.specs.Prelude.{◌≡◌};
ghost use Rattle.convoy_survey.specs.Times.{times_of};

use convoy_tables::Format;
use convoy_times::Measure;

/// How a table tells times.
#[derive(Clone, Copy)]
pub struct Times {
    /// Whether it has columns for them.
    pub are_told: bool,
    /// In which unit they are told; none where it is not known how long a tick lasts.
    pub measure: Option<Measure>,
}

impl Times {
    /// How a table in this format tells times by a measure: as CSV and as JSON it has columns of times in any case,
    /// so that the names of its columns do not depend on the scenario, and in text and in HTML where there is a measure.
    pub fn of(format: Format, measure: Option<Measure>) -> Times
        ensures { result ≡ times_of format measure }
    {
        let are_told = match format {
            Format::Text | Format::Html => measure.is_some(),
            Format::Csv | Format::Json => true,
        };
        Times { are_told, measure }
    }
}
