//! What messages follow, with numbers in place of names, and the rules for it, in the order in which they are asked.

ghost use Rattle.std.specs.Prelude.{◌≡◌, ◌<◌, ◌++◌, length, map, option_copied, slice_index_or, is_some, None, IfOk, OnOk, false};
ghost use Rattle.std.specs.List.{list_all};
ghost use Rattle.std.specs.Option.{option_map_or};
ghost use Rattle.convoy_draft.specs.Checks.{is_among};
ghost use Rattle.convoy_draft.specs.declared.fault.ScenarioFault.TheVariants as faults;
ghost use Rattle.convoy_scenario.specs.Memory.{IsUnlessMemory};
ghost use Rattle.convoy_scenario.specs.Numbering.{place};
ghost use Rattle.convoy_workflow_words.specs.declared.fault.WorkflowFault.TheVariants.{Scenario};
ghost use Rattle.convoy_workflows.specs.Rules.{cause_of, checked_causes, checks, comes_to, draft_cause, draft_cause_from, draft_causes, draft_message_at, first_among, group_of_event, group_of_sender, has_offsets, judge, message_named};
ghost use Rattle.convoy_workflows.specs.Shape.{listed};

use super::limits::GREATEST_OFFSET;
use super::written::{DraftCause, WrittenCause};
use convoy_causes::{Cause, Event};
use convoy_draft::ticks;
use convoy_scenario::{DraftMulticast, DraftScenario, Limit, MOST_MULTICASTS, Name, ScenarioFault};
use convoy_workflow_words::WorkflowFault;
use std::alloc::{AllocError, Global};

/// What messages follow by these names, among the messages and the groups of a draft, unless it breaks a rule.
pub(crate) fn checked_causes(
    alloc: Global,
    draft: &DraftScenario,
    causes: &[Option<WrittenCause>],
) -> Result<Vec<DraftCause>, WorkflowFault>
    ensures { IsUnlessMemory (Scenario faults.Memory) (checked_causes draft.now causes.now) (listed result) }
{
    let numbered = draft_causes(alloc, draft, causes)?;
    check(draft, &numbered)?;
    Ok(numbered)
}

/// Tells the first rule that is broken.
fn check(draft: &DraftScenario, causes: &[DraftCause]) -> Result<(), WorkflowFault>
    ensures { result ≡ judge (checks draft.now causes.now) }
{
    if MOST_MULTICASTS < draft.multicasts.len() {
        return Err(WorkflowFault::Scenario(ScenarioFault::OverLimit(Limit::Multicasts)));
    }
    if !all_follow(causes) {
        return Err(WorkflowFault::UnknownCause);
    }
    if !all_are_at_senders(causes) {
        return Err(WorkflowFault::NotAtSender);
    }
    if !all_have_offsets(causes) {
        return Err(WorkflowFault::OverLimit);
    }
    Ok(())
}

fn all_follow(causes: &[DraftCause]) -> bool
    ensures { result ≡ list_all (λ cause. is_some cause.message) causes.now }
{
    causes.iter().all(|cause| cause.message.is_some())
}

fn all_are_at_senders(causes: &[DraftCause]) -> bool
    ensures { result ≡ list_all (λ cause. cause.at_sender) causes.now }
{
    causes.iter().all(|cause| cause.at_sender)
}

fn all_have_offsets(causes: &[DraftCause]) -> bool
    ensures { result ≡ list_all has_offsets causes.now }
{
    causes.iter().all(|cause| has_offsets(cause))
}

fn has_offsets(cause: &DraftCause) -> bool
    ensures { result ≡ has_offsets cause.now }
{
    0 <= cause.least && cause.least <= cause.most && cause.most <= i64::from(GREATEST_OFFSET)
}

/// What messages follow, in the order of the messages.
fn draft_causes(
    alloc: Global,
    draft: &DraftScenario,
    causes: &[Option<WrittenCause>],
) -> Result<Vec<DraftCause>, AllocError>
    ensures { IfOk result (λ numbered. numbered.items ≡ draft_causes draft.now causes.now) }
{
    let mut numbered = Vec::new(alloc);
    for message in 0..draft.multicasts.len() {
        push_cause(draft, message, cause_at(causes, message), &mut numbered)?;
    }
    Ok(numbered)
}

/// What the message of that number follows, if it follows another.
fn cause_at(causes: &[Option<WrittenCause>], message: usize) -> Option<&WrittenCause>
    ensures { option_copied result ≡ slice_index_or causes.now message None }
{
    match causes.get(message) {
        Some(cause) => cause.as_ref(),
        None => None,
    }
}

/// Appends what a message follows, if it follows another.
fn push_cause(
    draft: &DraftScenario,
    message: usize,
    cause: Option<&WrittenCause>,
    causes: &mut Vec<DraftCause>,
) -> Result<(), AllocError>
    requires { message < length draft.now.messages }
    ensures { OnOk result (causes.new.items
        ≡ causes.old.items ++ draft_cause draft.now.groups draft.now.messages message (option_copied cause.entry)) }
{
    if let Some(cause) = cause {
        let followed = message_named(&cause.message, &draft.multicasts[..message]);
        causes.push(draft_cause(draft, message, cause.event, followed))?;
    }
    Ok(())
}

/// What a message follows, where that is the message of that number.
fn draft_cause(
    draft: &DraftScenario,
    message: usize,
    event: Event,
    followed: Option<usize>,
) -> DraftCause
    requires { message < length draft.now.messages }
    ensures { result ≡ draft_cause_from draft.now.groups draft.now.messages message event followed }
{
    let effect = &draft.multicasts[message];
    let to = destinations_at(&draft.multicasts, followed.unwrap_or(0));
    DraftCause {
        effect: message,
        message: followed,
        event,
        at_sender: comes_to(event, to, &effect.sender),
        group: group_of_event(event, &draft.groups, to, &effect.sender),
        least: effect.at,
        most: effect.until,
    }
}

/// The names of the groups to which the message of that number goes.
fn destinations_at(multicasts: &[DraftMulticast], message: usize) -> &[Name]
    ensures { result.now ≡ (draft_message_at multicasts.now message).to }
{
    match multicasts.get(message) {
        Some(multicast) => multicast.to.as_slice(),
        None => &[],
    }
}

/// The place of the message of that name, if it is one of these.
fn message_named(name: &Name, multicasts: &[DraftMulticast]) -> Option<usize>
    ensures value { result ≡ message_named name.now multicasts.now }
{
    multicasts.iter().position(|m| name.is_same(&m.name))
}

/// Whether an event of a message that goes to these groups comes where another one is sent.
fn comes_to(event: Event, to: &[Name], sender: &Option<Name>) -> bool
    ensures { result ≡ comes_to event to.now sender.now }
{
    match event {
        Event::Issue => true,
        Event::Arrival | Event::Commit | Event::Delivery => sends_among(sender, to),
    }
}

/// Whether a sender has one of the names.
fn sends_among(sender: &Option<Name>, to: &[Name]) -> bool
    ensures { result ≡ option_map_or (λ name. is_among name to.now) sender.now false }
{
    match sender {
        Some(name) => name.is_among(to),
        None => false,
    }
}

/// The group at which an event is: of an issue the first of the groups `to`, and else the sender.
fn group_of_event(event: Event, groups: &[Name], to: &[Name], sender: &Option<Name>) -> usize
    ensures { result ≡ group_of_event event groups.now to.now sender.now }
{
    match event {
        Event::Issue => first_among(to, groups),
        Event::Arrival | Event::Commit | Event::Delivery => group_of_sender(groups, sender),
    }
}

/// The first of the groups that is one of those named; 0 where none is.
fn first_among(to: &[Name], groups: &[Name]) -> usize
    ensures { result ≡ first_among to.now groups.now }
{
    groups
        .iter()
        .position(|group| group.is_among(to))
        .unwrap_or(0)
}

/// The group that sends; 0 where none does.
fn group_of_sender(groups: &[Name], sender: &Option<Name>) -> usize
    ensures { result ≡ group_of_sender groups.now sender.now }
{
    match sender {
        Some(name) => place(name, groups),
        None => 0,
    }
}

/// The place of the name, or 0 where it is not there.
fn place(name: &Name, names: &[Name]) -> usize
    ensures { result ≡ place name.now names.now }
{
    names
        .iter()
        .position(|other| name.is_same(other))
        .unwrap_or(0)
}

/// The causes in numbers of ticks.
pub(crate) fn causes_of(alloc: Global, causes: &[DraftCause]) -> Result<Vec<Cause>, AllocError>
    ensures { IfOk result (λ numbered. numbered.items ≡ map cause_of causes.now) }
{
    let mut numbered = Vec::new(alloc);
    for cause in causes {
        numbered.push(cause_of(cause))?;
    }
    Ok(numbered)
}

/// A cause in numbers of ticks.
fn cause_of(cause: &DraftCause) -> Cause
    ensures { result ≡ cause_of cause.now }
{
    Cause {
        effect: cause.effect,
        message: cause.message.unwrap_or(0),
        event: cause.event,
        group: cause.group,
        least: ticks(cause.least, GREATEST_OFFSET),
        most: ticks(cause.most, GREATEST_OFFSET),
    }
}
