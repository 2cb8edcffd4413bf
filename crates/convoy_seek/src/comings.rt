ghost use Rattle.std.specs.Prelude.{◌+◌, ◌<◌, ◌≤◌};

use convoy_packets::Instance;
use convoy_scenario::Time;

/// After how many delays a rival is tried to come at most in whole ticks, which is all of any range.
const MOST_IN_TICKS: u16 = 16;

/// The same in real time, where a range may have thousands: a climb finds those between them.
const MOST_IN_REAL_TIME: u16 = 8;

/// The delays after which a rival is tried to come to the target's group, in ticks: all of a range, or
/// some that lie evenly in it.
#[derive(Clone, Copy, Drop)]
pub struct Comings {
    least: u16,
    width: u16,
    steps: u16,
}

impl Comings {
    /// The delays for a message that could hold the target back. Where the target's group sends it,
    /// it comes after 0 ticks.
    pub fn of(instance: &Instance, message: usize) -> Comings {
        let (least, most) = coming_range(instance, message);
        let most_comings = most_comings(instance, message);
        let width = most.saturating_sub(least);
        Comings {
            least,
            width,
            steps: width.min(most_comings - 1),
        }
    }

    /// How many delays there are.
    pub fn count(&self) -> usize
        ensures { result ≤ u16.MAX + 1 }
    {
        usize::from(self.steps) + 1
    }

    /// The delay with a number, in ticks, the least one first.
    pub fn delay(&self, number: usize) -> u16 {
        let (width, steps) = (usize::from(self.width), usize::from(self.steps).max(1));
        let more = (width.saturating_mul(number) / steps).min(width) as u16;
        self.least.saturating_add(more)
    }

    /// The least and the greatest of the delays, in ticks.
    pub fn range(&self) -> (u16, u16)
        ensures { result.0 ≤ result.1 }
    {
        (self.least, self.least.saturating_add(self.width))
    }
}

/// After how many delays a message is tried to come at most. One that may wait comes after its least
/// delay alone: its wait brings it there at any tick, and the later it is issued, the later it is
/// committed.
fn most_comings(instance: &Instance, message: usize) -> u16
    ensures { 0 < result }
{
    if instance.table().wait(message).is_some() {
        return 1;
    }
    match instance.time() {
        Time::Ticks => MOST_IN_TICKS,
        Time::Real => MOST_IN_REAL_TIME,
    }
}

/// The least and the greatest delay after which a message arrives at the target's group, in ticks; 0
/// and 0 where the group sends the message itself and has no link to itself.
pub fn coming_range(instance: &Instance, message: usize) -> (u16, u16) {
    match instance
        .table()
        .multicast_to(message, instance.target_group())
    {
        Some(i) => instance
            .table()
            .ranges()
            .get(usize::from(i))
            .copied()
            .unwrap_or((0, 0)),
        None => (0, 0),
    }
}
