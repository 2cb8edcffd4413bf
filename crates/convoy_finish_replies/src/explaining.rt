//! Why the latency of a certificate of finishes is what it is.

ghost use Rattle.std.specs.Prelude.{◌≡◌, ◌<◌, flat_map, length, IfOk, string_bytes};
ghost use Rattle.std.specs.List.{range_with_len};
ghost use Rattle.convoy_scenario.specs.Scenario.{GoesTo};
ghost use Rattle.convoy_finishes.specs.Finishes.{is_ahead};
ghost use Rattle.convoy_finish_checker.specs.FinishValidity.{IsValidFinish};
ghost use Rattle.convoy_finish_replies.specs.FinishExplanations.{ahead_line, explained_by, finish_explained, finish_line, finish_lines, latency_line, span_text, worst_text};

use convoy_finish_checker::FinishCertificate;
use convoy_finishes::FinishRun;
use convoy_scenario::naming::{group_name, message_name};
use convoy_scenario::{AllocResult, Scenario, TimeUnit};
use convoy_timeline::ticks_text;
use convoy_times::Measure;
use std::alloc::Global;

/// How late the target of a valid certificate of finishes is at worst, and when in its run the target, and each message that
/// is ahead of it, is committed and finished, with times in the unit that is asked for (docs/FORMATS.md, "What `explain`
/// writes"):
///
/// ```text
/// MESSAGE at GROUP: at worst N ticks, issued at tick N and delivered at tick N
///   MESSAGE is committed there at tick N, and finished at tick N
/// no run is worse: checked
/// ```
///
/// The line in the midst is told of the target first. The text says that no run is worse, which the certificate has to show.
/// Fails where memory runs out, and else never.
pub(crate) fn explanation(
    alloc: Global,
    unit: Option<TimeUnit>,
    certificate: &FinishCertificate,
) -> AllocResult<Vec<u8>>
    requires { IsValidFinish certificate.now }
    ensures { IfOk result (λ text. text.items ≡ finish_explained unit certificate.now) }
{
    let (instance, schedule) = (certificate.run.instance(), certificate.run.schedule());
    let scenario = instance.scenario();
    let run = FinishRun::of(alloc, instance, schedule, &certificate.ways)?;
    let telling = Telling {
        alloc,
        scenario,
        measure: Measure::of(scenario, unit, None),
        run: &run,
    };
    let text = telling.text(certificate.run.latency())?;
    Ok(text)
}

/// A run of which it is told when its messages are finished.
#[derive(Drop)]
struct Telling<'a> {
    alloc: Global,
    scenario: &'a Scenario,
    measure: Option<Measure>,
    run: &'a FinishRun<'a>,
    ghost same: { run.now.scenario ≡ scenario.now },
}

impl<'a> Telling<'a> {
    /// How late the target is, when messages are finished, and that no run is worse.
    #[tactic(auto, using(std::proofs::lemmas::List::append_assoc))]
    fn text(&self, latency: u32) -> AllocResult<Vec<u8>>
        ensures { IfOk result (λ text. text.items
            ≡ explained_by self.now.measure self.now.scenario.now self.now.run.now.ways self.now.run.now.schedule latency) }
    {
        let mut text = Vec::new(self.alloc);
        text.extend_from_slice(self.latency_line(latency)?.as_bytes())?;
        text.extend_from_slice(self.finish_lines()?.as_bytes())?;
        text.extend_from_slice(b"no run is worse: checked\n")?;
        Ok(text)
    }

    /// How late the target is at worst, and when it is issued and delivered in the run.
    fn latency_line(&self, latency: u32) -> AllocResult<String>
        ensures { IfOk result (λ line. string_bytes line
            ≡ latency_line self.now.measure self.now.scenario.now self.now.run.now.schedule latency) }
    {
        let worst = self.worst_text(latency)?;
        let span = self.span_text(latency)?;
        format!(in self.alloc; "{worst}{span}")
    }

    /// How late the target is at worst.
    fn worst_text(&self, latency: u32) -> AllocResult<String>
        ensures { IfOk result (λ text. string_bytes text ≡ worst_text self.now.measure self.now.scenario.now latency) }
    {
        let message = message_name(self.scenario, self.scenario.target_message());
        let group = group_name(self.scenario, self.scenario.target_group());
        let long = ticks_text(self.alloc, self.measure, latency)?;
        format!(in self.alloc; "{message} at {group}: at worst {long}")
    }

    /// When it is issued in the run, and when delivered.
    fn span_text(&self, latency: u32) -> AllocResult<String>
        ensures { IfOk result (λ text. string_bytes text
            ≡ span_text self.now.scenario.now self.now.run.now.schedule latency) }
    {
        // A scenario is well formed.
        let _count = self.scenario.message_count();
        let issued = self.run.issue(self.scenario.target_message());
        let delivered = u64::from(issued) + u64::from(latency);
        format!(in self.alloc; ", issued at tick {issued} and delivered at tick {delivered}\n")
    }

    /// When the target is finished, and each message that is ahead of it.
    fn finish_lines(&self) -> AllocResult<String>
        ensures { IfOk result (λ lines. string_bytes lines
            ≡ finish_lines self.now.scenario.now self.now.run.now.ways self.now.run.now.schedule) }
    {
        let _count = self.scenario.message_count();
        let first = self.finish_line(self.scenario.target_message())?;
        let others = self.ahead_lines()?;
        format!(in self.alloc; "{first}{others}")
    }

    /// When each other message is finished that is ahead of the target.
    fn ahead_lines(&self) -> AllocResult<String>
        ensures { IfOk result (λ lines. string_bytes lines
            ≡ flat_map (ahead_line self.now.scenario.now self.now.run.now.ways self.now.run.now.schedule)
            (range_with_len 0 (length self.now.scenario.now.multicasts))) }
    {
        let mut lines = String::new(self.alloc);
        let count = self.scenario.message_count();
        for message in 0..count {
            let line = self.ahead_line(message)?;
            lines.push_str(&line)?;
        }
        Ok(lines)
    }

    /// When a message is finished, where it is another one than the target, and ahead of it.
    fn ahead_line(&self, message: usize) -> AllocResult<String>
        requires { message < length self.now.scenario.now.multicasts }
        ensures { IfOk result (λ line. string_bytes line
            ≡ ahead_line self.now.scenario.now self.now.run.now.ways self.now.run.now.schedule message) }
    {
        let _count = self.scenario.message_count();
        if message != self.scenario.target_message() && self.run.is_ahead(message) {
            self.finish_line(message)
        } else {
            Ok(String::new(self.alloc))
        }
    }

    /// When a message is committed at the target's group, and when it is finished there.
    fn finish_line(&self, message: usize) -> AllocResult<String>
        requires { GoesTo self.now.scenario.now message self.now.scenario.now.target_group }
        ensures { IfOk result (λ line. string_bytes line
            ≡ finish_line self.now.scenario.now self.now.run.now.ways self.now.run.now.schedule message) }
    {
        let name = message_name(self.scenario, message);
        let (committed, finished) = (self.run.commit(message), self.run.finish(message));
        format!(in self.alloc;
            "  {name} is committed there at tick {committed}, and finished at tick {finished}\n"
        )
    }
}
