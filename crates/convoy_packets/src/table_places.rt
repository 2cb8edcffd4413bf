ghost use Rattle.std.specs.Prelude.{◌≡◌, ◌<◌};
ghost use Rattle.convoy_packets.specs.Order.{place};

use convoy_scenario::{MOST_GROUPS, MOST_MULTICASTS};

/// How many entries a table has that keeps something for each message at each group.
pub const PLACES: usize = MOST_MULTICASTS * MOST_GROUPS;

/// The place of a message at a group in such a table.
pub fn place(message: usize, group: usize) -> usize
    requires message { message < MOST_MULTICASTS }
    requires group { group < MOST_GROUPS }
    ensures value { result ≡ place message group }
    ensures within { result < PLACES }
{
    message * MOST_GROUPS + group
}
