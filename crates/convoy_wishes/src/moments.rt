ghost use Rattle.std.specs.Prelude.{◌<◌, length};
ghost use Rattle.convoy_draft.specs.declared.limits.TheConstants.{MOST_GROUPS, MOST_MULTICASTS};

use convoy_packets::{Instance, PLACES, Schedule, place};
use convoy_scenario::{MOST_GROUPS, MOST_MULTICASTS};
use convoy_sure::destinations;

/// The ticks at which messages arrive at groups and are committed there under a schedule, by the place of the
/// message at the group; 0 where it does not go there.
#[derive(Drop)]
pub(crate) struct Moments {
    arrivals: [i64; PLACES],
    commits: [i64; PLACES],
}

impl Moments {
    /// Those of a schedule.
    pub(crate) fn of(instance: &Instance, schedule: &Schedule) -> Moments {
        let mut moments = Moments {
            arrivals: [0; PLACES],
            commits: [0; PLACES],
        };
        for message in 0..instance.message_count() {
            moments.write_arrivals(instance, schedule, message);
            moments.write_commits(instance, schedule, message);
        }
        moments
    }

    /// The tick at which a message arrives at a group.
    pub(crate) fn arrival(&self, message: usize, group: usize) -> i64
        requires message { message < MOST_MULTICASTS }
        requires group { group < MOST_GROUPS }
    {
        let arrivals = &self.arrivals;
        arrivals[place(message, group)]
    }

    /// The tick at which a message is committed at a group.
    pub(crate) fn commit(&self, message: usize, group: usize) -> i64
        requires message { message < MOST_MULTICASTS }
        requires group { group < MOST_GROUPS }
    {
        let commits = &self.commits;
        commits[place(message, group)]
    }

    /// Writes the ticks at which a message arrives.
    fn write_arrivals(&mut self, instance: &Instance, schedule: &Schedule, message: usize)
        requires { message < length instance.now.multicasts }
    {
        let table = instance.table();
        let wait = table.wait_in(schedule, message);
        let issued = i64::from(instance.issue_tick(message)) + i64::from(wait);
        for group in destinations(instance.scenario(), message) {
            let delay = table.multicast_delay(schedule, message, *group);
            self.arrivals[place(message, *group)] = issued + i64::from(delay);
        }
    }

    /// Writes the ticks at which a message is committed.
    fn write_commits(&mut self, instance: &Instance, schedule: &Schedule, message: usize)
        requires { message < length instance.now.multicasts }
    {
        for group in destinations(instance.scenario(), message) {
            self.commits[place(message, *group)] = self.last_proposal(
                instance, schedule, message, *group,
            );
        }
    }

    /// The tick at which the last proposal for a message comes to a group.
    fn last_proposal(
        &self,
        instance: &Instance,
        schedule: &Schedule,
        message: usize,
        group: usize,
    ) -> i64
        requires message { message < length instance.now.multicasts }
        requires group { group < MOST_GROUPS }
    {
        let mut last = 0;
        for from in destinations(instance.scenario(), message) {
            let delay = instance
                .table()
                .propose_delay(schedule, message, *from, group);
            let come = self
                .arrival(message, *from)
                .saturating_add(i64::from(delay));
            last = last.max(come);
        }
        last
    }
}
