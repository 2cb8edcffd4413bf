ghost use Rattle.std.specs.Prelude.{◌<◌, length};

use crate::chance::Chance;
use crate::comings::Comings;
use crate::pattern::Pattern;
use crate::rival::{Rival, list_rivals};
use crate::score::Score;
use crate::seeker::Seeker;
use convoy_packets::Instance;
use convoy_scenario::AllocResult;
use std::alloc::Global;

/// A rival, with the pattern from which its first climb goes.
#[derive(Clone, Copy)]
struct Start {
    rival: Rival,
    pattern: Pattern,
}

impl Seeker {
    ghost use Rattle.std.specs.Prelude.{◌≡◌, ◌<◌, length};
    ghost use Rattle.convoy_seek.specs.Seeking.{IsSeeking, GoesOn};

    /// Tries the schedule as it stands, that of the greatest delays, and then patterns. Then it climbs
    /// for as long as it may: in turn for each rival by which it may gain, from its best pattern, and in
    /// real time or where some message may wait after that from others of the rival.
    pub fn run(&mut self, alloc: Global, instance: &Instance) -> AllocResult<()>
        requires seeking { IsSeeking instance.now self.old }
        requires left { 0 < self.old.left }
        ensures goes_on { GoesOn instance.now self.old self.new }
    {
        self.simulate_tried(alloc, instance)?;
        let rivals = list_rivals(alloc, instance, &self.tried)?;
        let starts = self.starts(alloc, instance, &rivals)?;
        if instance.table().is_empty() || starts.is_empty() {
            return Ok(());
        }
        for round in 0..self.left as usize {
            if !self.may_go_on() {
                break;
            }
            let start = starts[round % starts.len()];
            if self.may_gain_by(start.rival) {
                let is_first = round < starts.len();
                let pattern = start.pattern(instance, is_first, &mut self.chance);
                self.climb(alloc, instance, &pattern)?;
            }
        }
        Ok(())
    }

    /// A start for each of the rivals by which it may gain.
    fn starts(
        &mut self,
        alloc: Global,
        instance: &Instance,
        rivals: &[Rival],
    ) -> AllocResult<Vec<Start>>
        requires seeking { IsSeeking instance.now self.old }
        ensures goes_on { GoesOn instance.now self.old self.new }
    {
        let mut starts = Vec::new(alloc);
        for &rival in rivals {
            if self.may_gain_by(rival) {
                let pattern = self.best_pattern(alloc, instance, rival)?;
                starts.push(Start { rival, pattern })?;
            }
        }
        Ok(starts)
    }

    /// The pattern of a rival with the greatest score, the first where several have it, among those that
    /// are tried until it may gain no more by the rival.
    fn best_pattern(
        &mut self,
        alloc: Global,
        instance: &Instance,
        rival: Rival,
    ) -> AllocResult<Pattern>
        requires seeking { IsSeeking instance.now self.old }
        ensures goes_on { GoesOn instance.now self.old self.new }
    {
        let comings = Comings::of(instance, rival.message);
        let mut best = Pattern::numbered(instance, rival.message, &comings, 0);
        let mut greatest = Score::LEAST;
        for number in 0..Pattern::count(instance, &comings) {
            if !self.may_go_on() || !self.may_gain_by(rival) {
                break;
            }
            let pattern = Pattern::numbered(instance, rival.message, &comings, number);
            pattern.lay(instance, &mut self.tried);
            let score = self.weigh(alloc, instance, rival.message)?;
            if score > greatest {
                best = pattern;
                greatest = score;
            }
        }
        Ok(best)
    }
}

impl Start {
    /// The pattern from which a climb goes: the first time the best one of the rival; after that, in real
    /// time or where some message may wait, another one of the rival by chance.
    fn pattern(&self, instance: &Instance, is_first: bool, chance: &mut Chance) -> Pattern {
        if is_first || !instance.scenario().is_timed() {
            return self.pattern;
        }
        let comings = Comings::of(instance, self.rival.message);
        self.pattern.varied(instance, &comings, chance)
    }
}
