use convoy_survey::Surveyed;

/// A row of a survey, with a number that no latency of its target exceeds through outages.
#[derive(Clone, Copy)]
pub struct RowThrough {
    pub surveyed: Surveyed,
    /// That number, in ticks; none where memory ran out while it was sought.
    pub through: Option<u32>,
}
