ghost use Rattle.std.specs.Prelude.{◌≡◌};
ghost use Rattle.convoy_best_order.specs.Excesses.{greater, is_less, lesser};

/// By how much a latency exceeds its limit, both in ticks: less than nothing where it is below that.
#[derive(Clone, Copy)]
pub struct Excess {
    pub latency: u32,
    pub limit: u32,
}

impl Excess {
    /// Whether this is less than another.
    pub fn is_less(self, other: Excess) -> bool
        ensures { result ≡ is_less self other }
    {
        u64::from(self.latency) + u64::from(other.limit)
            < u64::from(other.latency) + u64::from(self.limit)
    }

    /// The lesser of two.
    pub(crate) fn lesser(self, other: Excess) -> Excess
        ensures { result ≡ lesser self other }
    {
        if other.is_less(self) { other } else { self }
    }

    /// The greater of two.
    pub(crate) fn greater(self, other: Excess) -> Excess
        ensures { result ≡ greater self other }
    {
        if self.is_less(other) { other } else { self }
    }
}
