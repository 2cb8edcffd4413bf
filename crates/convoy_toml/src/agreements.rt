//! What the replicas of groups need to agree, as ranges of links.

ghost use Rattle.std.specs.Prelude.{◌≡◌, ◌++◌, map, find, option_copied, IfOk, OnOk};
ghost use Rattle.std.specs.List.{list_all};
ghost use Rattle.convoy_draft.specs.Checks.{is_among, judge};
ghost use Rattle.convoy_scenario.specs.Memory.{IsUnlessMemory};
ghost use Rattle.convoy_toml.specs.Agreements.{Agreement, agreed, agreed_links, agreement_at, agreement_checks, filled, greatest_of, home_link, home_links, is_agreement, is_short, least_of_rest, lengthened, lengthened_by, none_agree, together, with_agreed, with_agreements};

use super::ways::{filled_by, with_least};
use convoy_draft::{all_have_ranges, delay_ticks};
use convoy_scenario::{DraftLink, DraftScenario, Limit, Name, ScenarioFault, Time, is_within};
use std::alloc::{AllocError, Global};
use std::marker::Model;
use std::mem;

/// What the replicas of some groups need to agree.
#[derive(Drop)]
pub struct Agreement {
    /// The groups.
    pub groups: Vec<Name>,
    /// The least time from an entry given to the leader until it is applied there, in ticks.
    pub least: i64,
    /// The greatest such time, in ticks.
    pub most: i64,
    /// Whether they agree twice: once more before a message is committed.
    pub twice: bool,
}

impl Model for Agreement {
    ghost Value = { Agreement };

    ghost view = { λ a. record { groups = a.groups.items; least = a.least; most = a.most; twice = a.twice } };
}

/// The draft, with links for what goes by none, and with what agreements add to all links: each link to a group whose
/// replicas agree takes so much longer, and what the group sends to itself takes just that, with its own stamps where they
/// agree twice (docs/FORMATS.md, "Replicated groups"). Or the first rule that D, a link or an agreement breaks.
pub fn with_agreements(
    alloc: Global,
    least: Option<i64>,
    agreements: &[Agreement],
    draft: DraftScenario,
) -> Result<DraftScenario, ScenarioFault>
    ensures { IsUnlessMemory ScenarioFault.Memory (with_agreements least agreements.now draft) result }
{
    if none_agree(agreements) {
        return Ok(with_least(alloc, least, draft)?);
    }
    let draft = filled(alloc, least, draft)?;
    with_agreed(alloc, agreements, draft)
}

/// Whether there is no agreement.
fn none_agree(agreements: &[Agreement]) -> bool
    ensures { result ≡ none_agree agreements.now }
{
    match agreements {
        [] => true,
        [_, ..] => false,
    }
}

/// The draft, with what agreements add, or the first rule for them that it breaks.
fn with_agreed(
    alloc: Global,
    agreements: &[Agreement],
    draft: DraftScenario,
) -> Result<DraftScenario, ScenarioFault>
    ensures { IsUnlessMemory ScenarioFault.Memory (with_agreed agreements.now draft) result }
{
    check_agreements(agreements, &draft)?;
    Ok(agreed(alloc, agreements, draft)?)
}

/// The draft, with a link for each way on which something goes without one: from 1 to D in whole ticks, and in real time
/// from the least delay of what goes by none, where that is written.
fn filled(
    alloc: Global,
    least: Option<i64>,
    draft: DraftScenario,
) -> Result<DraftScenario, AllocError>
    ensures { IfOk result (λ linked. linked ≡ filled least draft) }
{
    let least = least_of_rest(draft.time, least);
    filled_by(alloc, least, draft)
}

/// The least delay of what goes by no link, if it is known.
fn least_of_rest(time: Time, least: Option<i64>) -> Option<i64>
    ensures { result ≡ least_of_rest time least }
{
    match time {
        Time::Ticks => Some(1),
        Time::Real => least,
    }
}

/// Tells the first rule that a draft in which replicas agree breaks, of D, of its links, and of the agreements.
fn check_agreements(agreements: &[Agreement], draft: &DraftScenario) -> Result<(), ScenarioFault>
    ensures { result ≡ judge (agreement_checks agreements.now draft.now) }
{
    if !is_within(draft.delay, 1, u32::from(draft.time.greatest_delay())) {
        return Err(ScenarioFault::OverLimit(Limit::Delay));
    }
    if !all_have_ranges(draft.delay, &draft.links) {
        return Err(ScenarioFault::OverLimit(Limit::Link));
    }
    if !are_agreements(agreements) {
        return Err(ScenarioFault::OverLimit(Limit::Agree));
    }
    if !are_short(draft.time, agreements) {
        return Err(ScenarioFault::OverLimit(Limit::Delay));
    }
    Ok(())
}

fn are_agreements(agreements: &[Agreement]) -> bool
    ensures { result ≡ list_all is_agreement agreements.now }
{
    agreements.iter().all(|agreement| agreement.is_agreement())
}

fn are_short(time: Time, agreements: &[Agreement]) -> bool
    ensures { result ≡ list_all (is_short time) agreements.now }
{
    agreements.iter().all(|agreement| agreement.is_short(time))
}

/// The draft, with what agreements add to its links, and D no less than they have.
fn agreed(
    alloc: Global,
    agreements: &[Agreement],
    draft: DraftScenario,
) -> Result<DraftScenario, AllocError>
    ensures { IfOk result (λ more. more ≡ agreed agreements.now draft) }
{
    let mut draft = draft;
    let links = mem::replace(&mut draft.links, Vec::new(alloc));
    draft.links = agreed_links(alloc, agreements, links)?;
    draft.delay = greatest_of(draft.delay, &draft.links);
    Ok(draft)
}

/// The links, with what agreements add.
fn agreed_links(
    alloc: Global,
    agreements: &[Agreement],
    links: Vec<DraftLink>,
) -> Result<Vec<DraftLink>, AllocError>
    ensures { IfOk result (λ more. more.items ≡ agreed_links agreements.now links.items) }
{
    let mut more = Vec::new(alloc);
    push_lengthened(&mut more, agreements, links)?;
    push_home_links(&mut more, agreements)?;
    Ok(more)
}

/// Appends the links, each with what the group takes that it leads to.
fn push_lengthened(
    more: &mut Vec<DraftLink>,
    agreements: &[Agreement],
    links: Vec<DraftLink>,
) -> Result<(), AllocError>
    ensures { OnOk result (more.new.items ≡ more.old.items ++ map (lengthened agreements.now) links.items) }
{
    for link in links {
        more.push(lengthened(agreements, link))?;
    }
    Ok(())
}

/// The link, with what the group takes that it leads to, unless it leads there from the group itself.
fn lengthened(agreements: &[Agreement], link: DraftLink) -> DraftLink
    ensures { result ≡ lengthened agreements.now link }
{
    if !link.leads_elsewhere() {
        return link;
    }
    match agreement_at(agreements, &link.to) {
        Some(agreement) => DraftLink {
            least: together(link.least, agreement.least),
            most: together(link.most, agreement.most),
            ..link
        },
        None => link,
    }
}

/// The agreement of a group: the first that names it.
fn agreement_at<'a>(agreements: &'a [Agreement], group: &Name) -> Option<&'a Agreement>
    ensures { option_copied result ≡ agreement_at agreements.now group.now }
{
    agreements
        .iter()
        .find(|agreement| group.is_among(&agreement.groups))
}

/// Two delays together, each of them within the limits of one.
pub(crate) fn together(delay: i64, other: i64) -> i64
    ensures { result ≡ together delay other }
{
    i64::from(u32::from(delay_ticks(delay)) + u32::from(delay_ticks(other)))
}

/// Appends the links of groups to themselves, one for each group that has an agreement.
fn push_home_links(links: &mut Vec<DraftLink>, agreements: &[Agreement]) -> Result<(), AllocError>
    ensures { OnOk result (links.new.items ≡ links.old.items ++ home_links agreements.now) }
{
    for agreement in agreements {
        push_homes(links, agreement)?;
    }
    Ok(())
}

fn push_homes(links: &mut Vec<DraftLink>, agreement: &Agreement) -> Result<(), AllocError>
    ensures { OnOk result (links.new.items
        ≡ links.old.items ++ map (home_link agreement.now) agreement.now.groups) }
{
    for group in &agreement.groups {
        links.push(agreement.home_link(group)?)?;
    }
    Ok(())
}

/// A delay, or the greatest of all links if that is more.
fn greatest_of(delay: i64, links: &[DraftLink]) -> i64
    ensures { result ≡ greatest_of delay links.now }
{
    let mut greatest = delay;
    for link in links {
        if greatest <= link.most {
            greatest = link.most;
        }
    }
    greatest
}

impl Agreement {
    /// Whether this has a range, of 1 tick or more.
    fn is_agreement(&self) -> bool
        ensures { result ≡ is_agreement self.now }
    {
        1 <= self.least && self.least <= self.most
    }

    /// Whether the greatest time is none above the greatest delay that a packet may have.
    fn is_short(&self, time: Time) -> bool
        ensures { result ≡ is_short time self.now }
    {
        self.most <= i64::from(time.greatest_delay())
    }

    /// The link of a group to itself.
    fn home_link(&self, group: &Name) -> Result<DraftLink, AllocError>
        ensures { IfOk result (λ link. link ≡ home_link self.now group.now) }
    {
        Ok(DraftLink {
            sender: Some(group.copy()?),
            to: group.copy()?,
            least: self.least,
            most: self.most,
            stamps: self.twice,
        })
    }
}
