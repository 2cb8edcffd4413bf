ghost use Rattle.std.specs.Prelude.{◌≡◌, ◌<◌, ◌^◌};
ghost use Rattle.convoy_sim.specs.Keys.{key_of, kind_number, kind_of, moment_of};

use super::moment::{Moment, MomentKind};
use convoy_scenario::{MOST_GROUPS, MOST_MULTICASTS};

/// A moment as one number: its tick, its rank, its kind, its message and its group, from the highest bits to
/// the lowest. So moments are in order as their numbers are.
pub(crate) fn key_of(moment: Moment) -> u64
    requires message { moment.message < MOST_MULTICASTS }
    requires group { moment.group < MOST_GROUPS }
    ensures value { result ≡ key_of moment }
    ensures small { result < 2 ^ 48 }
{
    u64::from(moment.tick) * 65536
        + u64::from(moment.rank) * 256
        + kind_number(moment.kind) * 128
        + moment.message as u64 * 8
        + moment.group as u64
}

/// The moment of a number.
pub(crate) fn moment_of(key: u64) -> Moment
    requires { key < 2 ^ 48 }
    ensures { result ≡ moment_of key }
{
    Moment {
        tick: (key / 65536) as u32,
        rank: (key / 256 % 256) as u8,
        kind: kind_of(key / 128 % 2),
        message: (key / 8 % 16) as usize,
        group: (key % 8) as usize,
    }
}

/// Comings are numbered 0, and commits 1.
fn kind_number(kind: MomentKind) -> u64
    ensures value { result ≡ kind_number kind }
    ensures small { result < 2 }
{
    match kind {
        MomentKind::Arrival => 0,
        MomentKind::Commit => 1,
    }
}

/// The kind of that number.
fn kind_of(number: u64) -> MomentKind
    ensures { result ≡ kind_of number }
{
    if number == 0 {
        MomentKind::Arrival
    } else {
        MomentKind::Commit
    }
}
