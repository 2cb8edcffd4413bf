ghost use Rattle.std.specs.Prelude.{◌≡◌, ◌*◌, ◌<◌, ◌≤◌, [], ◌∷◌, length, map, All, IfOk};
ghost use Rattle.std.specs.List.{range_with_len};
ghost use Rattle.convoy_draft.specs.declared.limits.TheConstants.{MOST_GROUPS, MOST_MULTICASTS};
ghost use Rattle.convoy_scenario.specs.Scenario.{message_numbers};
ghost use Rattle.convoy_sim.specs.Delivery.{addressed_to};
ghost use Rattle.convoy_stamps.specs.Reach.{pairs_of};
ghost use Rattle.convoy_starts.specs.Mosts.{bars_of};

use convoy_scenario::{MOST_GROUPS, MOST_MULTICASTS, Scenario};
use convoy_stamps::Pair;
use convoy_starts::Setting;
use convoy_sure::{Messages, Sure, Windows, all_messages, audiences, list_pairs, one_message};
use std::alloc::{AllocError, Global};

/// A scenario with what follows from it alone, whatever the box: the messages that go to each group,
/// the pairs, all messages, and the target as the only one.
#[derive(Drop)]
pub(crate) struct Facts<'a> {
    pub(crate) scenario: &'a Scenario,
    pub(crate) audiences: Vec<Messages>,
    pub(crate) pairs: Vec<Pair>,
    pub(crate) each_message: Messages,
    pub(crate) target_alone: Messages,
    ghost groups: { audiences.items
        ≡ map (addressed_to scenario.now) (range_with_len 0 MOST_GROUPS) },
    ghost stamps: { pairs.items ≡ pairs_of scenario.now },
    ghost messages: { All (λ p. p.message < length scenario.now.multicasts) pairs.items },
    ghost low: { All (λ p. p.group < MOST_GROUPS) pairs.items },
    ghost known: { length scenario.now.multicasts ≤ MOST_MULTICASTS },
    ghost few: { length pairs.items ≤ MOST_MULTICASTS * MOST_GROUPS },
    ghost each: { each_message ≡ message_numbers scenario.now },
    ghost one: { target_alone ≡ scenario.now.target_message ∷ [] },
}

impl<'a> Facts<'a> {
    /// The case of a scenario.
    pub(crate) fn of(alloc: Global, scenario: &'a Scenario) -> Result<Facts<'a>, AllocError>
        ensures { IfOk result (λ facts. facts.scenario.now ≡ scenario.now) }
    {
        let _count = scenario.message_count();
        let audiences = audiences(alloc, scenario)?;
        let pairs = list_pairs(alloc, scenario)?;
        Ok(Facts {
            scenario,
            audiences,
            pairs,
            each_message: all_messages(scenario),
            target_alone: one_message(scenario.target_message()),
        })
    }

    /// The target.
    pub(crate) fn target(&self) -> usize
        ensures value { result ≡ self.now.scenario.now.target_message }
        ensures known { result < MOST_MULTICASTS }
    {
        self.scenario.target_message()
    }

    /// The messages that go to a group.
    pub(crate) fn audience(&self, group: usize) -> &[usize]
        requires { group < MOST_GROUPS }
        ensures list { result.now ≡ addressed_to self.now.scenario.now group }
        ensures known { All (λ z. z < MOST_MULTICASTS) result.now }
        ensures few { length result.now ≤ MOST_MULTICASTS }
    {
        self.audiences[group].numbers()
    }

    /// The messages that are barred, each in turn.
    fn bars(&self, barring: bool) -> &[usize]
        ensures value { result.now ≡ bars_of self.now.scenario.now barring }
        ensures few { length result.now ≤ MOST_MULTICASTS }
    {
        if barring {
            self.each_message.numbers()
        } else {
            self.target_alone.numbers()
        }
    }

    /// The case with windows and what is sure of a message, with no message barred but the target, or
    /// with each.
    pub(crate) fn setting(
        &'a self,
        windows: &'a Windows,
        sure: &'a Sure,
        barring: bool,
    ) -> Setting<'a>
        ensures barring { result.barring ≡ barring }
        ensures scenario { result.scenario.now ≡ self.now.scenario.now }
        ensures windows { result.windows.now ≡ windows.now }
        ensures sure { result.sure.now ≡ sure.now }
    {
        Setting {
            scenario: self.scenario,
            time: self.scenario.time(),
            audiences: &self.audiences,
            windows,
            sure,
            stamps: self.pairs.len() as u32,
            barring,
            bars: self.bars(barring),
        }
    }
}
