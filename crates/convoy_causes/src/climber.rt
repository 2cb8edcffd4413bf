ghost use Rattle.std.specs.Prelude.{◌≡◌, ◌<◌, length, IfOk, IfSome};
ghost use Rattle.convoy_packets.specs.Assignment.{IsAssignment};
ghost use Rattle.convoy_causes.specs.Causes.{IsCaused, time_from};

use super::caused_run::CausedRun;
use super::gaps::Gaps;
use super::laying::issue_effects;
use super::question::{Focus, Question};
use convoy_packets::{Instance, Packet, Schedule};
use convoy_scenario::AllocResult;
use convoy_seek::{Chance, End, change};

/// How many steps without a better score end a climb at most.
const PATIENCE: u64 = 1_300;

/// How often waits are laid anew at most, where messages do not follow their causes by the waits that were laid.
const LAYINGS: usize = 4;

/// Where a climb to a run that takes long stands.
#[derive(Drop)]
pub(crate) struct Climber {
    /// The best schedule that was seen, by whose run messages follow their causes, if one was found.
    pub(crate) best: Schedule,
    /// Whether one was found.
    pub(crate) found: bool,
    /// Its time from the issue that is asked about to the delivery of the target, in ticks.
    pub(crate) time: u32,
    /// The schedule from which the climb goes on, and its gaps.
    pub(crate) kept: Schedule,
    pub(crate) kept_gaps: Gaps,
    /// The schedule that is simulated next, and its gaps.
    pub(crate) tried: Schedule,
    pub(crate) gaps: Gaps,
    /// How many simulations are left.
    pub(crate) left: u64,
    /// What it does by chance.
    pub(crate) chance: Chance,
}

impl Climber {
    ghost use Rattle.std.specs.Prelude.{◌<◌, ◌≤◌, length};
    ghost use Rattle.convoy_packets.specs.Table.{table_of};
    ghost use Rattle.convoy_packets.specs.Assignment.{IsAssignment};
    ghost use Rattle.convoy_causes.specs.Climbing.{GoesOn, IsClimbing};

    /// Climbs from the schedule that is tried to where a rival is committed late and is still ahead of the message that
    /// is to be delivered late: changes a few packets of the schedule that is kept, or how long after an event a message
    /// is issued, and keeps what has no lesser score, until many changes in a row have found no greater one.
    pub(crate) fn climb(
        &mut self,
        question: &Question,
        focus: Focus,
        rival: usize,
    ) -> AllocResult<()>
        requires some { 0 < length (table_of question.now.instance.now).packets }
        requires climbing { IsClimbing question.now.instance.now question.now.causes.now question.now.origin self.old }
        requires left { 0 < self.old.left }
        ensures goes_on { GoesOn question.now.instance.now question.now.causes.now question.now.origin self.old self.new }
    {
        let patience = PATIENCE.min(self.left / 8 + 1);
        let mut score = self.try_out(question, focus, rival)?;
        self.keep(question);
        let mut stale = 0u64;
        while stale < patience && self.left > 0 {
            self.change(question)?;
            let next = self.try_out(question, focus, rival)?;
            stale = if next > score { 0 } else { stale + 1 };
            if next >= score {
                score = next;
                self.keep(question);
            }
        }
        Ok(())
    }

    /// Lays the waits of the schedule that is tried by its gaps, simulates it, makes it the best one where its time is
    /// greater, and answers its score by a rival: 0 where messages do not follow their causes, however often the
    /// waits are laid.
    pub(crate) fn try_out(
        &mut self,
        question: &Question,
        focus: Focus,
        rival: usize,
    ) -> AllocResult<u64>
        requires climbing { IsClimbing question.now.instance.now question.now.causes.now question.now.origin self.old }
        requires left { 0 < self.old.left }
        ensures goes_on { GoesOn question.now.instance.now question.now.causes.now question.now.origin self.old self.new }
        ensures left { self.new.left < self.old.left }
    {
        self.left -= 1;
        let mut score = 0u64;
        for _ in 0..LAYINGS {
            score = self.lay(question, focus, rival)?;
            if score > 0 || self.left == 0 {
                break;
            }
        }
        Ok(score)
    }

    /// Lays the waits once, and simulates the schedule.
    fn lay(&mut self, question: &Question, focus: Focus, rival: usize) -> AllocResult<u64>
        requires climbing { IsClimbing question.now.instance.now question.now.causes.now question.now.origin self.old }
        ensures { GoesOn question.now.instance.now question.now.causes.now question.now.origin self.old self.new }
    {
        issue_effects(question, &mut self.tried, &self.gaps, &mut self.left)?;
        self.weigh(question, focus, rival)
    }

    /// Simulates the schedule that is tried, makes it the best one where its time is greater, and answers its score.
    pub(crate) fn weigh(
        &mut self,
        question: &Question,
        focus: Focus,
        rival: usize,
    ) -> AllocResult<u64>
        requires climbing { IsClimbing question.now.instance.now question.now.causes.now question.now.origin self.old }
        ensures { GoesOn question.now.instance.now question.now.causes.now question.now.origin self.old self.new }
    {
        let Some((time, score)) = weigh(question, &self.tried, focus, rival)? else {
            self.left = self.left.saturating_sub(1);
            return Ok(0);
        };
        if !self.found || time > self.time {
            self.best.copy_from(&self.tried);
            self.time = time;
            self.found = true;
        }
        Ok(score)
    }

    /// Keeps the schedule that is tried, and its gaps.
    fn keep(&mut self, question: &Question)
        requires climbing { IsClimbing question.now.instance.now question.now.causes.now question.now.origin self.old }
        ensures { GoesOn question.now.instance.now question.now.causes.now question.now.origin self.old self.new }
    {
        self.kept.copy_from(&self.tried);
        self.kept_gaps.copy_from(&self.gaps);
    }

    /// Changes the schedule that is kept, or its gaps, to one that is tried: in one case of eight it gives a whole
    /// message one end of its ranges, and in one of four of the others it changes a gap. The error is that memory ran out.
    fn change(&mut self, question: &Question) -> AllocResult<()>
        requires some { 0 < length (table_of question.now.instance.now).packets }
        requires climbing { IsClimbing question.now.instance.now question.now.causes.now question.now.origin self.old }
        ensures goes_on { GoesOn question.now.instance.now question.now.causes.now question.now.origin self.old self.new }
        ensures left { self.new.left ≡ self.old.left }
    {
        let instance = question.instance;
        self.tried.copy_from(&self.kept);
        self.gaps.copy_from(&self.kept_gaps);
        if self.chance.below(8) == 0 {
            let message = self.chance.below(instance.message_count());
            let end = End::numbered(self.chance.below(2));
            take_end(instance, &mut self.tried, message, end);
            return Ok(());
        }
        if self.chance.below(4) == 0 && !question.causes.is_empty() {
            self.gaps.change(question.causes, &mut self.chance);
            return Ok(());
        }
        change(question.alloc, instance, &mut self.tried, &mut self.chance)
    }
}

/// The time of a schedule from the issue that is asked about to the delivery of the target, in ticks, with its score; None
/// where messages do not follow their causes.
pub(crate) fn weigh(
    question: &Question,
    schedule: &Schedule,
    focus: Focus,
    rival: usize,
) -> AllocResult<Option<(u32, u64)>>
    requires { IsAssignment question.now.instance.now schedule.now }
    ensures caused { IfOk result (λ found. IfSome found
        (λ weighed. IsCaused question.now.instance.now question.now.causes.now schedule.now)) }
    ensures time { IfOk result (λ found. IfSome found
        (λ weighed. weighed.0 ≡ time_from question.now.instance.now question.now.origin schedule.now)) }
{
    let run = CausedRun::of(question.alloc, question.instance, schedule)?;
    if !run.follow_all(question.causes) {
        return Ok(None);
    }
    let time = run.time_from(question.origin);
    let score = run.score(focus, rival, time);
    Ok(Some((time, score)))
}

/// Gives all packets of a message, and its wait, one end of their ranges.
#[tactic(auto, using(convoy_seek::proofs::Schedules::length_within))]
pub(crate) fn take_end(instance: &Instance, schedule: &mut Schedule, message: usize, end: End)
    requires { IsAssignment instance.now schedule.old }
    ensures { IsAssignment instance.now schedule.new }
{
    let table = instance.table();
    for i in 0..table.len() {
        if message_of(table.packet(i)) == message {
            schedule.set(i, end.of(table.range(i)));
        }
    }
}

/// The message to which a packet belongs.
fn message_of(packet: Packet) -> usize {
    match packet {
        Packet::Wait { message }
        | Packet::Multicast { message, .. }
        | Packet::Propose { message, .. } => message,
    }
}
