/// What the greatest latency is at least and at most, in ticks: the same where a search has found it.
#[derive(Clone, Copy)]
pub struct Spread {
    pub least: u32,
    pub most: u32,
}
