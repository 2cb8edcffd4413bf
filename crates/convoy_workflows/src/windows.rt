//! When messages that follow others may be issued.

ghost use Rattle.std.specs.Prelude.{◌≡◌, ◌≤◌, ◌==◌, length, find, option_copied, pos, slice_index_or, IfOk};
ghost use Rattle.convoy_workflows.specs.Rules.{draft_message_at};
ghost use Rattle.convoy_workflows.specs.Windows.{in_windows, message_within, messages_within, own_window, span, window_after, window_in, windows_of};

use super::limits::GREATEST_OFFSET;
use super::written::DraftCause;
use convoy_causes::Event;
use convoy_draft::{GREATEST_AT, GREATEST_UNTIL, ticks};
use convoy_scenario::{DraftMulticast, DraftScenario};
use std::alloc::{AllocError, Global};

/// How many times D an event comes at most after the message is issued.
fn span(event: Event) -> u32
    ensures value { result ≡ span event }
    ensures few { result ≤ 4 }
{
    match event {
        Event::Issue => 0,
        Event::Arrival => 1,
        Event::Commit => 2,
        Event::Delivery => 4,
    }
}

/// The window of a message that follows one with that window, where D is so many ticks.
fn window_after(delay: u16, cause: &DraftCause, followed: (i64, i64)) -> (i64, i64)
    ensures { result ≡ window_after delay cause.now followed }
{
    let first = ticks(followed.0, GREATEST_AT) + ticks(cause.least, GREATEST_OFFSET);
    let last = ticks(followed.1, GREATEST_UNTIL)
        + span(cause.event) * u32::from(delay)
        + ticks(cause.most, GREATEST_OFFSET);
    (i64::from(first), i64::from(last))
}

/// What the message of that number follows, if it follows another.
fn cause_of_effect(causes: &[DraftCause], message: usize) -> Option<&DraftCause>
    ensures { option_copied result ≡ find (λ cause. cause.effect == message) causes.now }
{
    causes.iter().find(|cause| cause.effect == message)
}

/// The window that is written for the message of that number.
fn own_window(multicasts: &[DraftMulticast], message: usize) -> (i64, i64)
    ensures { result ≡ own_window (draft_message_at multicasts.now message) }
{
    match multicasts.get(message) {
        Some(multicast) => (multicast.at, multicast.until),
        None => (0, 0),
    }
}

/// The window of that number, if there is one.
fn window_at(windows: &[(i64, i64)], message: usize) -> (i64, i64)
    ensures { result ≡ slice_index_or windows.now message (pos 0, pos 0) }
{
    match windows.get(message) {
        Some(window) => *window,
        None => (0, 0),
    }
}

/// The window of the message of that number, where those before it have these.
fn window_in(
    draft: &DraftScenario,
    causes: &[DraftCause],
    before: &[(i64, i64)],
    message: usize,
) -> (i64, i64)
    ensures { result ≡ window_in draft.now causes.now before.now message }
{
    match cause_of_effect(causes, message) {
        Some(cause) => {
            let followed = window_at(before, cause.message.unwrap_or(0));
            window_after(draft.delay_ticks(), cause, followed)
        }
        None => own_window(&draft.multicasts, message),
    }
}

/// The windows of all messages.
fn windows_of(
    alloc: Global,
    draft: &DraftScenario,
    causes: &[DraftCause],
) -> Result<Vec<(i64, i64)>, AllocError>
    ensures { IfOk result (λ windows. windows.items ≡ windows_of draft.now causes.now (length draft.now.messages)) }
{
    let mut windows = Vec::new(alloc);
    for message in 0..draft.multicasts.len() {
        let window = window_in(draft, causes, &windows, message);
        windows.push(window)?;
    }
    Ok(windows)
}

/// A message, to be issued in the window of its number, where there is one.
fn message_within(
    windows: &[(i64, i64)],
    number: usize,
    multicast: DraftMulticast,
) -> DraftMulticast
    ensures { result ≡ message_within (slice_index_or windows.now number (own_window multicast)) multicast }
{
    match windows.get(number) {
        Some((first, last)) => DraftMulticast {
            at: *first,
            until: *last,
            ..multicast
        },
        None => multicast,
    }
}

/// The messages, each to be issued in its window.
fn messages_within(
    alloc: Global,
    windows: &[(i64, i64)],
    multicasts: Vec<DraftMulticast>,
) -> Result<Vec<DraftMulticast>, AllocError>
    ensures { IfOk result (λ within. within.items ≡ messages_within windows.now 0 multicasts.items) }
{
    let mut within = Vec::new(alloc);
    for multicast in multicasts {
        let number = within.len();
        within.push(message_within(windows, number, multicast))?;
    }
    Ok(within)
}

/// The draft in which each message has its window.
pub(crate) fn in_windows(
    alloc: Global,
    causes: &[DraftCause],
    draft: DraftScenario,
) -> Result<DraftScenario, AllocError>
    ensures { IfOk result (λ set. set ≡ in_windows causes.now draft) }
{
    let windows = windows_of(alloc, &draft, causes)?;
    let multicasts = messages_within(alloc, &windows, draft.multicasts)?;
    Ok(DraftScenario {
        multicasts,
        ..draft
    })
}
