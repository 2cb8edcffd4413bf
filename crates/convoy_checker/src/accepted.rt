use std::marker::Model;

/// That a certificate is valid: its latency is the greatest of its scenario.
#[derive(Drop)]
pub struct Accepted {
    latency: u32,
}

impl Model for Accepted {
    ghost use Rattle.std.specs.Prelude.{ℕ};

    ghost Value = { ℕ };

    ghost view = { λ a. a.latency };
}

impl Accepted {
    ghost use Rattle.std.specs.Prelude.{◌≡◌};

    /// The yes to a certificate of that latency.
    pub(crate) fn new(latency: u32) -> Accepted
        ensures { result ≡ latency }
    {
        Accepted { latency }
    }

    /// The greatest latency of the certificate's scenario, in ticks.
    pub fn latency(&self) -> u32
        ensures { result ≡ self.now }
    {
        self.latency
    }
}
