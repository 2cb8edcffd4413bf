ghost use Rattle.std.specs.Prelude.{◌≡◌, ◌<◌, length};
ghost use Rattle.convoy_packets.specs.Assignment.{IsAssignment};

use super::cause::Cause;
use super::caused_run::CausedRun;
use super::question::Question;
use convoy_packets::Schedule;
use convoy_scenario::AllocResult;
use convoy_seek::Chance;
use std::alloc::Global;

/// How long after the event that it follows each message is to be issued, in ticks, by the place of the cause.
#[derive(Drop)]
pub(crate) struct Gaps {
    ticks: Vec<u32>,
}

impl Gaps {
    /// As long as is said. The error is that memory ran out.
    pub(crate) fn longest(alloc: Global, causes: &[Cause]) -> AllocResult<Gaps> {
        let mut ticks = Vec::with_capacity(alloc, causes.len())?;
        for cause in causes {
            ticks.push(cause.most)?;
        }
        Ok(Gaps { ticks })
    }

    /// That of the cause at a place; 0 where there is none.
    pub(crate) fn gap(&self, place: usize) -> u32 {
        self.ticks.get(place).copied().unwrap_or(0)
    }

    /// Makes it so long.
    fn set(&mut self, place: usize, gap: u32) {
        if place < self.ticks.len() {
            self.ticks[place] = gap;
        }
    }

    /// Makes all as long as is said.
    pub(crate) fn lengthen(&mut self, causes: &[Cause]) {
        for place in 0..causes.len() {
            self.set(place, causes[place].most);
        }
    }

    /// Takes over those of others.
    pub(crate) fn copy_from(&mut self, other: &Gaps) {
        for place in 0..self.ticks.len() {
            self.set(place, other.gap(place));
        }
    }

    /// Takes them over from the run of a schedule, as far as that keeps to what is said. The error is that memory ran
    /// out.
    pub(crate) fn read(&mut self, question: &Question, schedule: &Schedule) -> AllocResult<()>
        requires { IsAssignment question.now.instance.now schedule.now }
    {
        let run = CausedRun::of(question.alloc, question.instance, schedule)?;
        for place in 0..question.causes.len() {
            let cause = &question.causes[place];
            let tick = run.event_tick(cause.event, cause.message, cause.group);
            let gap = run.issue(cause.effect).saturating_sub(tick);
            self.set(place, gap.max(cause.least).min(cause.most));
        }
        Ok(())
    }

    /// Changes one by chance: two times in five to the least that is said, as often to the most, and else to any.
    pub(crate) fn change(&mut self, causes: &[Cause], chance: &mut Chance) {
        if causes.is_empty() {
            return;
        }
        let place = chance.below(causes.len());
        let cause = &causes[place];
        let width = cause.most.saturating_sub(cause.least) as usize;
        let gap = match chance.below(5) {
            0 | 1 => cause.least,
            2 | 3 => cause.most,
            _ => cause.least.saturating_add(chance.below(width + 1) as u32),
        };
        self.set(place, gap);
    }
}
