use super::open_case::OpenCase;

/// What leads show of a box for a latency.
#[derive(Drop)]
pub enum Shown {
    /// That no schedule of the box has a greater one.
    Closed,
    /// Nothing: the target itself may be committed too late for it. No case of a rival was looked for.
    TargetLate,
    /// Not that: of the cases of the rivals this is the first one that is open.
    Open(OpenCase),
}

impl Shown {
    ghost use Rattle.std.specs.Prelude.{◌≡◌};
    ghost use Rattle.convoy_leads.specs.Openings.{is_closed};

    /// Whether leads close the box.
    pub fn is_closed(&self) -> bool
        ensures { result ≡ is_closed self.now }
    {
        match self {
            Shown::Closed => true,
            Shown::TargetLate | Shown::Open(_) => false,
        }
    }
}
