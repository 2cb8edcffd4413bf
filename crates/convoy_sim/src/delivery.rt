ghost use Rattle.std.specs.Prelude.{◌≡◌};
ghost use Rattle.convoy_sim.specs.Delivery.{deliver};
ghost use Rattle.convoy_sim.specs.Deliveries.{TellsAhead};
ghost use Rattle.convoy_scenario.specs.Scenario.{GoesTo};

use super::stamps::Stamps;
use super::ticks::Ticks;

/// The tick at which a message is delivered at a group: that of the last commit there, of itself and
/// of the messages that are ahead of it.
pub(crate) fn delivery_tick<T: Ticks>(
    times: &T,
    stamps: &Stamps,
    message: usize,
    group: usize,
) -> u32
    requires goes { GoesTo (T.scheduled times.now).scenario message group }
    requires told { TellsAhead (T.scheduled times.now).scenario (T.scheduled times.now).schedule message group stamps.now }
    ensures { result ≡ deliver (T.scheduled times.now).scenario (T.scheduled times.now).schedule message group }
{
    let messages = times.scenario().message_count();
    let last = stamps.greatest(message);
    let mut tick = times.settling(message, group);
    for other in 0..messages {
        if stamps.is_ahead(other, group, last) {
            tick = tick.max(times.settling(other, group));
        }
    }
    tick
}
