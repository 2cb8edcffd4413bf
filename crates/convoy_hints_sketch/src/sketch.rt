use super::part::Part;
use super::scenario_text::ScenarioText;
use convoy_scenario::{DraftScenario, Name};
use convoy_toml::{ScenarioTable, WrittenLink, bundles_of, links_of_bundle};
use std::alloc::{AllocError, Global};

/// A scenario as it is written, in TOML or in the lines of a certificate, be it one or not; and where its
/// messages and its links stand there.
#[derive(Drop)]
pub struct Sketch<'a> {
    /// What is written.
    pub draft: DraftScenario,
    /// Where each message stands, in their order.
    pub multicasts: Vec<Part<'a>>,
    /// Where each link stands, in their order; of those that no table writes there is none here.
    pub links: Vec<Part<'a>>,
    /// Whether a command line names the target, and not what is written.
    pub is_target_asked: bool,
}

/// The sketch of a text with that draft, whose tables write those links; and whether a command line names its target.
pub fn sketch_of_draft<'a>(
    alloc: Global,
    source: ScenarioText<'a>,
    links: &[WrittenLink],
    draft: DraftScenario,
    is_target_asked: bool,
) -> Result<Sketch<'a>, AllocError> {
    let mut multicasts = Vec::new(alloc);
    for number in 0..draft.multicasts.len() {
        multicasts.push(source.part(ScenarioTable::Multicast(number)))?;
    }
    let links = parts_of_links(alloc, source, links, &draft)?;
    Ok(Sketch {
        draft,
        multicasts,
        links,
        is_target_asked,
    })
}

/// Where each link stands, of which a table may write several.
fn parts_of_links<'a>(
    alloc: Global,
    source: ScenarioText<'a>,
    links: &[WrittenLink],
    draft: &DraftScenario,
) -> Result<Vec<Part<'a>>, AllocError> {
    let mut parts = Vec::new(alloc);
    let tick = draft.tick.map(|tick| tick.nanoseconds());
    let Ok(bundles) = bundles_of(alloc, tick, links) else {
        return Ok(parts);
    };
    for (number, bundle) in bundles.iter().enumerate() {
        let part = source.part(ScenarioTable::Link(number));
        let count = links_of_bundle(alloc, bundle)?.len();
        for _ in 0..count {
            parts.push(part)?;
        }
    }
    Ok(parts)
}

/// Names as words.
pub fn words_of(alloc: Global, names: &[Name]) -> Result<Vec<&str>, AllocError> {
    let mut words = Vec::new(alloc);
    for name in names {
        words.push(name.as_str())?;
    }
    Ok(words)
}
