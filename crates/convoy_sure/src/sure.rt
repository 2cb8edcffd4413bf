ghost use Rattle.std.specs.Prelude.{◌≡◌, ◌≤◌, ◌<◌, All};
ghost use Rattle.convoy_sure.specs.SureLeads.{lead_at};

use convoy_scenario::{MOST_GROUPS, MOST_MULTICASTS};
use std::marker::Model;

/// What is sure of a message at the target's group: the leads over all other messages at their
/// groups, and its time (docs/LEADS.md, "Sure leads").
#[derive(Drop)]
pub struct Sure {
    pub(crate) leads: Vec<u32>,
    pub(crate) time: u32,
}

impl Model for Sure {
    ghost use Rattle.convoy_sure.specs.SureLeads.{Sure};
    ghost use Rattle.std.specs.Prelude.{◌≤◌, All};

    ghost Value = { Sure };

    ghost view = { λ s. record { leads = s.leads.items; time = s.time } };

    ghost invariant = { λ s. All (λ l. l ≤ 65535) s.leads.items × (s.time ≤ 65535) };
}

impl Sure {
    /// One more than each lead, by places; 0 where none is known ([`lead_at`] reads it).
    pub fn leads(&self) -> &[u32]
        ensures leads { result.now ≡ self.now.leads }
        ensures small { All (λ l. l ≤ u16.MAX) result.now }
    {
        &self.leads
    }

    /// Its stamp at the target's group has at least this time.
    pub fn time(&self) -> u32
        ensures value { result ≡ self.now.time }
        ensures small { result ≤ u16.MAX }
    {
        self.time
    }
}

/// One more than the lead over a message at a group, 0 where none is known.
pub fn lead_at(leads: &[u32], message: usize, group: usize) -> u32
    requires message { message < MOST_MULTICASTS }
    requires group { group < MOST_GROUPS }
    ensures { result ≡ lead_at leads.now message group }
{
    leads
        .get(message * MOST_GROUPS + group)
        .copied()
        .unwrap_or(0)
}
