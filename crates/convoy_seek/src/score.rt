use convoy_scenario::Scenario;
use convoy_sim::Run;

/// What it costs a rival to come one tick after the commit of the target, in ticks gained.
const PRICE_OF_A_TICK: i64 = 10;

/// How good a schedule is to climb from: how near a rival is to holding the target back for long.
#[derive(Clone, Copy, PartialEq, Eq, PartialOrd, Ord)]
pub struct Score {
    nearness: i64,
}

impl Score {
    /// The least score of all.
    pub const LEAST: Score = Score { nearness: i64::MIN };

    /// The score of a run of a scenario, by one rival.
    pub fn of(scenario: &Scenario, run: &Run, rival: usize) -> Score {
        match run.committed(rival, scenario.target_group()) {
            Some(committed) => Score::until(scenario, run, rival, committed),
            None => Score::LEAST,
        }
    }

    /// The same where the rival would hold the target back until that tick.
    pub fn until(scenario: &Scenario, run: &Run, rival: usize, tick: u32) -> Score {
        Score {
            nearness: nearness_of(scenario, run, rival, tick).unwrap_or(i64::MIN),
        }
    }
}

/// How near a rival is to holding the target back for long: the tick until which it would, less a price for
/// each tick that it comes after the commit of the target, and for what its stamp exceeds that of the target
/// by. None where it does not go to the target's group.
fn nearness_of(scenario: &Scenario, run: &Run, rival: usize, tick: u32) -> Option<i64> {
    let (target, group) = (scenario.target_message(), scenario.target_group());
    let came = run.proposed(rival, group)?;
    let late = came.tick.saturating_sub(run.committed(target, group)?);
    let last = run.final_stamp(target)?;
    let free = if group < last.group {
        last.time
    } else {
        last.time.saturating_sub(1)
    };
    let excess = came
        .stamp
        .time
        .saturating_sub(free)
        .min(u64::from(u32::MAX));
    Some(i64::from(tick) - PRICE_OF_A_TICK * i64::from(late) - excess as i64)
}
