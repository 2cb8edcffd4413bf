//! Why the time of a certificate of a workflow is what it is.

ghost use Rattle.std.specs.Prelude.{◌≡◌, ◌<◌, length, IfOk, string_bytes};
ghost use Rattle.std.specs.List.{flat_map};
ghost use Rattle.convoy_scenario.specs.Scenario.{GoesTo};
ghost use Rattle.convoy_causes.specs.Causes.{AreCauses, IsCause};
ghost use Rattle.convoy_workflow_checker.specs.WorkflowValidity.{IsValidWorkflow};
ghost use Rattle.convoy_workflow_replies.specs.WorkflowExplanations.{cause_line, doing_text, effect_line, event_text, explained_by, following_text, span_text, time_line, workflow_explained, worst_text};

use convoy_causes::{Cause, CausedRun, Event};
use convoy_scenario::lookup::sender_of;
use convoy_scenario::naming::{group_name, message_name};
use convoy_scenario::{AllocResult, Scenario, TimeUnit};
use convoy_timeline::{sender_text, ticks_text};
use convoy_times::Measure;
use convoy_workflow_certificate::WorkflowCertificate;
use std::alloc::Global;

/// How long it takes at most by a valid certificate of a workflow, and how in its run each message follows its cause, with
/// times in the unit that is asked for (docs/FORMATS.md, "What `explain` writes"):
///
/// ```text
/// MESSAGE at GROUP: at worst N ticks, from the issue of MESSAGE at tick N to the delivery at tick N
///   MESSAGE is delivered at GROUP at tick N
///   MESSAGE is issued by SENDER at tick N, N ticks after that
/// no run is worse: checked
/// ```
///
/// The two lines in the midst are told of each cause, in the order of the causes. The text says that no run takes longer,
/// which the certificate has to show. Fails where memory runs out, and else never.
pub(crate) fn explanation(
    alloc: Global,
    unit: Option<TimeUnit>,
    certificate: &WorkflowCertificate,
) -> AllocResult<Vec<u8>>
    requires { IsValidWorkflow certificate.now }
    ensures { IfOk result (λ text. text.items ≡ workflow_explained unit certificate.now) }
{
    let (instance, schedule) = (certificate.run.instance(), certificate.run.schedule());
    let scenario = instance.scenario();
    let run = CausedRun::of(alloc, instance, schedule)?;
    let telling = Telling {
        alloc,
        scenario,
        measure: Measure::of(scenario, unit, None),
        run: &run,
    };
    let text = telling.text(
        &certificate.causes,
        certificate.origin,
        certificate.run.latency(),
    )?;
    Ok(text)
}

/// A run of which it is told how messages follow their causes.
#[derive(Drop)]
struct Telling<'a> {
    alloc: Global,
    scenario: &'a Scenario,
    measure: Option<Measure>,
    run: &'a CausedRun<'a>,
    ghost same: { run.now.scenario ≡ scenario.now },
}

impl<'a> Telling<'a> {
    /// From where to where the time goes, how each message follows its cause, and that no run takes longer.
    #[tactic(auto, using(std::proofs::lemmas::List::append_assoc))]
    fn text(&self, causes: &[Cause], origin: usize, time: u32) -> AllocResult<Vec<u8>>
        requires causes { AreCauses self.now.scenario.now causes.now }
        requires origin { origin < length self.now.scenario.now.multicasts }
        requires target { GoesTo self.now.scenario.now self.now.scenario.now.target_message self.now.scenario.now.target_group }
        ensures { IfOk result (λ text. text.items
            ≡ explained_by self.now.measure self.now.scenario.now self.now.run.now.schedule causes.now origin time) }
    {
        let mut text = Vec::new(self.alloc);
        text.extend_from_slice(self.time_line(origin, time)?.as_bytes())?;
        text.extend_from_slice(self.following_lines(causes)?.as_bytes())?;
        text.extend_from_slice(b"no run is worse: checked\n")?;
        Ok(text)
    }

    /// How long it takes at worst, and from where to where that time goes in the run.
    fn time_line(&self, origin: usize, time: u32) -> AllocResult<String>
        requires origin { origin < length self.now.scenario.now.multicasts }
        requires target { GoesTo self.now.scenario.now self.now.scenario.now.target_message self.now.scenario.now.target_group }
        ensures { IfOk result (λ line. string_bytes line
            ≡ time_line self.now.measure self.now.scenario.now self.now.run.now.schedule origin time) }
    {
        let worst = self.worst_text(time)?;
        let span = self.span_text(origin)?;
        format!(in self.alloc; "{worst}{span}")
    }

    /// How long it takes at worst.
    fn worst_text(&self, time: u32) -> AllocResult<String>
        ensures { IfOk result (λ text. string_bytes text ≡ worst_text self.now.measure self.now.scenario.now time) }
    {
        let message = message_name(self.scenario, self.scenario.target_message());
        let group = group_name(self.scenario, self.scenario.target_group());
        let long = ticks_text(self.alloc, self.measure, time)?;
        format!(in self.alloc; "{message} at {group}: at worst {long}")
    }

    /// From where to where the time goes in the run.
    fn span_text(&self, origin: usize) -> AllocResult<String>
        requires origin { origin < length self.now.scenario.now.multicasts }
        requires target { GoesTo self.now.scenario.now self.now.scenario.now.target_message self.now.scenario.now.target_group }
        ensures { IfOk result (λ text. string_bytes text
            ≡ span_text self.now.scenario.now self.now.run.now.schedule origin) }
    {
        let (target, group) = (self.scenario.target_message(), self.scenario.target_group());
        let first = message_name(self.scenario, origin);
        let issued = self.run.issue(origin);
        let delivered = self.run.delivery(target, group);
        format!(in self.alloc;
            ", from the issue of {first} at tick {issued} to the delivery at tick {delivered}\n"
        )
    }

    /// How each message follows its cause.
    fn following_lines(&self, causes: &[Cause]) -> AllocResult<String>
        requires { AreCauses self.now.scenario.now causes.now }
        ensures { IfOk result (λ lines. string_bytes lines
            ≡ flat_map (following_text self.now.measure self.now.scenario.now self.now.run.now.schedule) causes.now) }
    {
        let mut lines = String::new(self.alloc);
        for cause in causes {
            let both = self.following_text(cause)?;
            lines.push_str(&both)?;
        }
        Ok(lines)
    }

    /// How a message follows its cause.
    fn following_text(&self, cause: &Cause) -> AllocResult<String>
        requires { IsCause self.now.scenario.now cause.now }
        ensures { IfOk result (λ lines. string_bytes lines
            ≡ following_text self.now.measure self.now.scenario.now self.now.run.now.schedule cause.now) }
    {
        let first = self.cause_line(cause)?;
        let second = self.effect_line(cause)?;
        format!(in self.alloc; "{first}{second}")
    }

    /// The event that a message follows.
    fn cause_line(&self, cause: &Cause) -> AllocResult<String>
        requires { IsCause self.now.scenario.now cause.now }
        ensures { IfOk result (λ line. string_bytes line
            ≡ cause_line self.now.scenario.now self.now.run.now.schedule cause.now) }
    {
        let tick = self.run.event_tick(cause.event, cause.message, cause.group);
        let event = self.event_text(cause.event, cause.message, cause.group, tick)?;
        format!(in self.alloc; "{event}\n")
    }

    /// The issue of the message that follows, and how long after the event it is.
    fn effect_line(&self, cause: &Cause) -> AllocResult<String>
        requires { IsCause self.now.scenario.now cause.now }
        ensures { IfOk result (λ line. string_bytes line
            ≡ effect_line self.now.measure self.now.scenario.now self.now.run.now.schedule cause.now) }
    {
        let tick = self.run.event_tick(cause.event, cause.message, cause.group);
        let issued = self.run.issue(cause.effect);
        let event = self.event_text(Event::Issue, cause.effect, cause.group, issued)?;
        let long = ticks_text(self.alloc, self.measure, issued.saturating_sub(tick))?;
        format!(in self.alloc; "{event}, {long} after that\n")
    }

    /// An event of a message at a group, which is at that tick.
    fn event_text(
        &self,
        event: Event,
        message: usize,
        group: usize,
        tick: u32,
    ) -> AllocResult<String>
        ensures { IfOk result (λ text. string_bytes text
            ≡ event_text self.now.scenario.now event message group tick) }
    {
        let name = message_name(self.scenario, message);
        let doing = doing_text(self.alloc, self.scenario, event, message, group)?;
        format!(in self.alloc; "  {name}{doing} at tick {tick}")
    }
}

/// What a message does at an event, and by whom or where.
fn doing_text(
    alloc: Global,
    scenario: &Scenario,
    event: Event,
    message: usize,
    group: usize,
) -> AllocResult<String>
    ensures { IfOk result (λ text. string_bytes text ≡ doing_text scenario.now event message group) }
{
    let at = group_name(scenario, group);
    match event {
        Event::Issue => {
            let sender = sender_text(alloc, scenario, sender_of(scenario, message))?;
            format!(in alloc; " is issued by {sender}")
        }
        Event::Arrival => format!(in alloc; " comes to {at}"),
        Event::Commit => format!(in alloc; " is committed at {at}"),
        Event::Delivery => format!(in alloc; " is delivered at {at}"),
    }
}
