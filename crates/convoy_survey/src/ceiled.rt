ghost use Rattle.std.specs.Prelude.{◌≡◌};
ghost use Rattle.convoy_survey.specs.Ceilings.{falls_short, is_unsought, upper_of};

/// A message at a group that it goes to, both by number, with its ceiling there and with how near to it
/// traffic was found to come.
#[derive(Clone, Copy)]
pub struct Ceiled {
    pub message: usize,
    pub group: usize,
    /// The ceiling, in ticks.
    pub ceiling: u32,
    /// The ceiling through outages, in ticks, where these are asked for.
    pub through: Option<u32>,
    /// The greatest latency that was found in traffic, in ticks; none where memory ran out while it was
    /// sought, which says nothing of traffic.
    pub attained: Option<u32>,
}

impl Ceiled {
    /// Whether memory ran out while traffic was sought.
    pub fn is_unsought(self) -> bool
        ensures { result ≡ is_unsought self }
    {
        self.attained.is_none()
    }

    /// What no latency is above, in ticks: through outages, where these are asked for.
    pub fn upper(self) -> u32
        ensures { result ≡ upper_of self }
    {
        self.through.unwrap_or(self.ceiling)
    }

    /// Whether the traffic that was found does not attain the ceiling.
    pub fn falls_short(self) -> bool
        ensures { result ≡ falls_short self }
    {
        match self.attained {
            Some(latency) => latency != self.ceiling,
            None => false,
        }
    }
}
