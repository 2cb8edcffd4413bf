use convoy_times::Measure;

/// What is drawn at one value of a key, in ticks.
#[derive(Clone, Copy)]
pub struct Dot {
    pub value: u32,
    /// The end of a window that begins at the value, where it is one.
    pub last: Option<u32>,
    /// What the greatest latency is at least and at most; none where memory ran out.
    pub least: Option<u32>,
    pub most: Option<u32>,
}

/// The greatest latency with each value of a key.
#[derive(Clone, Copy)]
pub struct Curve<'a> {
    /// What it is of.
    pub title: &'a str,
    /// The words for the key.
    pub key: &'a str,
    /// The values, ascending.
    pub dots: &'a [Dot],
    /// The deadline, in ticks, where there is one.
    pub deadline: Option<u32>,
    /// How times are told.
    pub measure: Option<Measure>,
}
