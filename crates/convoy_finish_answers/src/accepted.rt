//! Scenarios of texts whose groups are replicated by white box.

ghost use Rattle.convoy_finish_answers.specs.AcceptedTexts.{GivesAccepted};

use convoy_commands::Fault;
use convoy_finishes::Ways;
use convoy_replicas::replicas_of;
use convoy_scenario::{Scenario, TimeUnit};
use convoy_toml::{Asked, PlainNumber, acceptances_of_text, read_toml_asked};
use std::alloc::Global;

/// A scenario of which each group is replicated by white box, and what is read beside it.
#[derive(Drop)]
pub struct Accepted {
    /// The scenario.
    pub scenario: Scenario,
    /// By which ways its messages are finished.
    pub ways: Ways,
    /// The deadlines of its messages, in ticks, by their numbers.
    pub deadlines: Vec<Option<u32>>,
    /// The unit in which the text writes D, where it writes that as a duration.
    pub unit: Option<TimeUnit>,
    /// The first of its times that is a plain number beside durations: no contract speaks of it.
    pub plain: Option<PlainNumber>,
}

/// Reads a scenario text whose groups are replicated by white box, where that is asked, with replicas as far from their
/// leaders as it says (docs/FORMATS.md, "Groups replicated by white box"). The faults are those of
/// [`read_toml_asked`](convoy_toml::read_toml_asked), `Fault::Replicas` where it can't be told how many ticks a packet to
/// a replica takes, and `Fault::Memory`.
pub fn read_accepted(alloc: Global, text: &[u8], asked: &Asked) -> Result<Accepted, Fault>
    ensures { GivesAccepted asked.now text.now result }
{
    let asked = Asked {
        accept: true,
        ..asked.copy()?
    };
    let input = read_toml_asked(alloc, text, &asked)?;
    let scenario = input.scenario;
    // A scenario is well formed.
    let _count = scenario.message_count();
    let acceptances = acceptances_of_text(alloc, text)?;
    let replicas = replicas_of(alloc, &None, &acceptances, &scenario)??;
    let ways = Ways::white_box(alloc, &scenario, &replicas)?;
    Ok(Accepted {
        scenario,
        ways,
        deadlines: input.deadlines,
        unit: input.unit,
        plain: input.plain,
    })
}
