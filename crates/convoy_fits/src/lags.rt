ghost use Rattle.std.specs.Prelude.{◌≡◌, ◌<◌, ◌≤◌, ◌*◌, ◌^◌};
ghost use Rattle.std.proofs.Common.{get_or};
ghost use Rattle.convoy_fits.specs.Tests.{lag_by};

use super::teller::Teller;
use std::marker::Model;

/// How much is added to what each clock tells, besides the skew that is taken off: the skew by a clock that is right, and
/// more by one that is behind.
#[derive(Drop)]
pub(crate) struct Lags {
    skew: u32,
    groups: Vec<u32>,
    clients: Vec<u32>,
}

impl Model for Lags {
    ghost use Rattle.convoy_fits.specs.Tests.{LagLists};

    ghost Value = { LagLists };

    ghost view = { λ l. record { skew = l.skew; groups = l.groups.items; clients = l.clients.items } };
}

impl Lags {
    /// The lags of the groups, by number, and of the clients, by the messages that they issue.
    pub(crate) fn new(skew: u32, groups: Vec<u32>, clients: Vec<u32>) -> Lags
        ensures { result ≡ record { skew = skew; groups = groups.items; clients = clients.items } }
    {
        Lags {
            skew,
            groups,
            clients,
        }
    }

    /// By how much clocks may be wrong.
    pub(crate) fn skew(&self) -> u32
        ensures { result ≡ self.now.skew }
    {
        self.skew
    }

    /// The lag of a clock; none is more than the skew allows.
    pub(crate) fn of(&self, teller: Teller) -> u64
        ensures value { result ≡ lag_by self.now teller }
        ensures bounded { result ≤ 2 * self.now.skew }
        ensures small { result < 2 ^ 34 }
    {
        let lag = match teller {
            Teller::Group(group) => lag_at(self.groups.as_slice(), group),
            Teller::Client(message) => lag_at(self.clients.as_slice(), message),
        };
        u64::from(lag).min(2 * u64::from(self.skew))
    }
}

/// The lag at a place; 0 where there is none.
fn lag_at(lags: &[u32], place: usize) -> u32
    ensures { result ≡ get_or lags.now place 0 }
{
    match lags.get(place) {
        Some(lag) => *lag,
        None => 0,
    }
}
