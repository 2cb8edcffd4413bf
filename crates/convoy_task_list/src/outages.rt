ghost use Rattle.std.specs.Prelude.{◌≡◌};
ghost use Rattle.convoy_task_list.specs.Outages.{outage_by};

use convoy_outages::Outage;
use convoy_toml::WrittenTime;

/// The outages that last for that time in all, as an option or the key `outage` of a scenario text tells it: the sign of a
/// number of ticks counts for nothing.
pub fn outage_by(time: WrittenTime) -> Outage
    ensures { result ≡ outage_by time }
{
    match time {
        WrittenTime::Count(ticks) => Outage::Ticks(ticks.unsigned_abs()),
        WrittenTime::Lasting(duration) => Outage::Lasting(duration),
    }
}
