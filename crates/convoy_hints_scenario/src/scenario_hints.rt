use super::agreements::{hint_for_agreed_limit, hint_for_agreeing};
use super::damage::{hint_for_bytes, hint_for_damage};
use super::inputs::{is_meant_as_certificate, is_meant_as_plan};
use super::names::{hint_for_bad_name, hint_for_double_name};
use super::numbers::{hint_for_least_of_all, hint_for_limit, hint_for_many_links};
use super::ranges::hint_for_no_range;
use super::references::{
    hint_for_double_destination, hint_for_no_destination, hint_for_target_not_addressed,
    hint_for_unknown_group, hint_for_unknown_target,
};
use super::spans::{hint_for_long_span, hint_for_span};
use convoy_certificate::{Form, form_of};
use convoy_hints_sketch::{
    Hint, Quoted, ScenarioText, Sketch, TextKind, hint_for_deadline, hint_for_mixture,
    hint_for_part_of_tick, hint_for_shape, sketch_of_draft, spot_at, with_cause_of_tick,
};
use convoy_scenario::{DraftScenario, Key, Limit, Scenario, ScenarioFault};
use convoy_toml::{
    Asked, Placed, PlainNumber, ScenarioTable, TargetKey, WrittenInput, WrittenScenario,
    draft_of_written, read_table, written_of_table,
};
use std::alloc::{AllocError, Global};
use toml::de::Error;
use toml::{Table, Value};

/// What is wrong with the text of a scenario that has that fault where this is asked, or with what is asked, in one line
/// `hint: ..`. None where nothing can be said beyond the fault.
pub fn hint_for_scenario(alloc: Global, text: &[u8], asked: &Asked, fault: ScenarioFault) -> Hint {
    let hint = hint_for_fault(alloc, text, asked, fault)?;
    with_label(alloc, hint)
}

/// The same without the label of a hint: for a text that is one of several, as a job of a batch, whose lines
/// are counted from 1.
pub fn hint_for_fault(alloc: Global, text: &[u8], asked: &Asked, fault: ScenarioFault) -> Hint {
    match fault {
        ScenarioFault::Memory => Ok(None),
        ScenarioFault::NotToml => hint_for_text(alloc, text),
        fault => hint_for_table(alloc, text, asked, fault),
    }
}

/// What a plain number beside durations was taken for, in the text from which the scenario was read, in one line
/// `hint: ..`.
pub fn hint_for_plain_number(
    alloc: Global,
    text: &[u8],
    scenario: &Scenario,
    plain: PlainNumber,
) -> Hint {
    let Ok(text) = std::str::from_utf8(text) else {
        return Ok(None);
    };
    let hint = convoy_hints_sketch::hint_for_plain_number(alloc, text, scenario, plain)?;
    with_label(alloc, hint)
}

/// A hint as a line of its own, `hint: ` before it and byte 10 at its end; None where there is none.
pub fn with_label(alloc: Global, hint: Option<String>) -> Hint {
    match hint {
        Some(hint) => format!(in alloc; "hint: {hint}\n").map(Some),
        None => Ok(None),
    }
}

/// Why a text is not TOML.
fn hint_for_text(alloc: Global, text: &[u8]) -> Hint {
    if let Some(hint) = hint_for_damage(alloc, text)? {
        return Ok(Some(hint));
    }
    if is_meant_as_certificate(text) {
        return hint_for_given_certificate(alloc, text).map(Some);
    }
    match std::str::from_utf8(text) {
        Ok(words) => hint_for_grammar(alloc, words),
        Err(error) => hint_for_bytes(alloc, text, error.valid_up_to()).map(Some),
    }
}

/// A certificate was given where a scenario is read, or its first line is not of its form.
fn hint_for_given_certificate(alloc: Global, text: &[u8]) -> Result<String, AllocError> {
    let hint = match form_of(text) {
        Form::Certificate(Some(_)) =>
            "the input is a certificate, and a scenario is read here: 'convoy check' reads certificates",
        Form::Certificate(None) | Form::Other =>
            "the input begins as a certificate, but its first line is none of 'convoy 1' to 'convoy 5'",
    };
    String::from_str(alloc, hint)
}

/// Where a text of UTF-8 is not TOML.
fn hint_for_grammar(alloc: Global, text: &str) -> Hint {
    if let Some(before) = text
        .lines()
        .position(|line| line == "---" || line.starts_with("--- "))
    {
        let line = before.saturating_add(1);
        let hint = format!(in alloc;
            "line {line} begins with '---', which stands between scenarios: 'convoy batch' reads several"
        )?;
        return Ok(Some(hint));
    }
    match toml::table_from_str(alloc, text) {
        Ok(_) => Ok(None),
        Err(error) => hint_for_error(alloc, text, &error),
    }
}

/// What the TOML reader says, with the line.
fn hint_for_error(alloc: Global, text: &str, error: &Error) -> Hint {
    let Some(span) = error.span() else {
        return Ok(None);
    };
    let spot = spot_at(text.as_bytes(), span.start);
    let (line, column) = (spot.line, spot.column);
    let words = text.lines().nth(line.saturating_sub(1)).unwrap_or("");
    let rule = if gives_bare_time(words) {
        IN_QUOTES
    } else {
        ""
    };
    let (words, message) = (Quoted(words), error.message());
    format!(in alloc; "line {line}, column {column}, in {words}: {message}{rule}").map(Some)
}

/// How a duration is written.
const IN_QUOTES: &str =
    "; a duration stands in quotes, with a point before its decimals, as \"0.5 ms\"";

/// Whether a line gives a time that is neither a number nor in quotes, as `least = 0,5 ms`.
fn gives_bare_time(line: &str) -> bool {
    let Some((key, value)) = line.split_once('=') else {
        return false;
    };
    let (value, _) = value.split_once('#').unwrap_or((value, ""));
    let key = key.trim();
    is_key_of_time(key) && is_bare_duration(value.trim())
}

/// Whether a time may stand at the key of that word.
fn is_key_of_time(word: &str) -> bool {
    matches!(
        word,
        "tick" | "delay" | "least" | "most" | "agree" | "at" | "until" | "within"
    )
}

/// Whether a value begins as a number and has a unit or a decimal comma.
fn is_bare_duration(value: &str) -> bool {
    match value.as_bytes() {
        [first, rest @ ..] => {
            first.is_ascii_digit()
                && rest
                    .iter()
                    .any(|byte| *byte == b',' || byte.is_ascii_alphabetic())
        }
        [] => false,
    }
}

/// What is wrong with the table of a scenario: it is read as the commands read it, up to the fault.
fn hint_for_table(alloc: Global, text: &[u8], asked: &Asked, fault: ScenarioFault) -> Hint {
    let (Ok(table), Ok(text)) = (read_table(alloc, text), std::str::from_utf8(text)) else {
        return Ok(None);
    };
    if is_meant_as_plan(&table) {
        return hint_for_given_plan(alloc, &table).map(Some);
    }
    let source = ScenarioText {
        kind: TextKind::Scenario,
        text,
        table: &table,
    };
    let written = match written_for(alloc, &table, asked, fault) {
        Ok(written) => written.scenario,
        Err(placed) => return hint_for_key(alloc, source, &placed),
    };
    hint_for_written(alloc, source, asked, &written, fault)
}

/// A plan was given where a scenario is read.
fn hint_for_given_plan(alloc: Global, table: &Table) -> Result<String, AllocError> {
    let sign = if table.contains_key("sites") {
        "the key 'sites'"
    } else {
        "tables [[group]]"
    };
    format!(in alloc;
        "the input has {sign}, as a plan has, and a scenario is read here: 'convoy plan' reads plans, and 'convoy plan --scenario' writes the scenario of the best placement"
    )
}

/// What is wrong with what is written in a text that has that fault where this is asked, and whose shape is that of a
/// scenario, or was as far as it was read.
pub fn hint_for_written(
    alloc: Global,
    source: ScenarioText<'_>,
    asked: &Asked,
    written: &WrittenScenario,
    fault: ScenarioFault,
) -> Hint {
    match draft_of_written(alloc, written) {
        Ok(draft) => hint_for_draft(alloc, source, asked, written, draft, fault),
        Err(placed) => hint_for_times(alloc, source, written, &placed),
    }
}

/// What is written in a table that has that fault where this is asked: where messages may have several senders and groups
/// may be replicated by white box, if the fault is one there, too, and else where they may not.
fn written_for(
    alloc: Global,
    table: &Table,
    asked: &Asked,
    fault: ScenarioFault,
) -> Result<WrittenInput, Placed> {
    let in_case = written_by(alloc, table, asked, fault, true);
    let is_there = match &in_case {
        Ok(_) => !matches!(fault, ScenarioFault::Shape(_)),
        Err(placed) => placed.fault == fault,
    };
    if is_there {
        return in_case;
    }
    written_by(alloc, table, asked, fault, false)
}

/// The same, where they may or not.
fn written_by(
    alloc: Global,
    table: &Table,
    asked: &Asked,
    fault: ScenarioFault,
    in_case: bool,
) -> Result<WrittenInput, Placed> {
    let target = match &asked.target {
        TargetKey::Named { message, group } => TargetKey::Named {
            message: message.copy()?,
            group: group.copy()?,
        },
        TargetKey::Required | TargetKey::Optional => target_for(fault),
    };
    let asked = Asked {
        target,
        at_most: None,
        around: None,
        case: in_case.then_some(0),
        accept: in_case,
    };
    written_of_table(alloc, table, &asked)
}

/// Whether a text that has that fault has to name its target: some commands read it without one, and it is a
/// fault of others alone.
fn target_for(fault: ScenarioFault) -> TargetKey {
    match fault {
        ScenarioFault::Shape(Key::Target) => TargetKey::Required,
        _ => TargetKey::Optional,
    }
}

/// Whether a target is asked for beside the text.
fn names_target(asked: &Asked) -> bool {
    matches!(asked.target, TargetKey::Named { .. })
}

/// What is wrong at a key.
fn hint_for_key(alloc: Global, source: ScenarioText<'_>, placed: &Placed) -> Hint {
    match placed.fault {
        ScenarioFault::Shape(key) => hint_for_shape(alloc, source, placed.table, key),
        ScenarioFault::NoRange => hint_for_slow(alloc, source, placed, NO_WAY).map(Some),
        ScenarioFault::OverLimit(Limit::Link) => {
            hint_for_slow(alloc, source, placed, NO_ADDED_RANGE).map(Some)
        }
        ScenarioFault::UnknownGroup | ScenarioFault::DoubleName => String::from_str(
            alloc,
            "each 'name' in a table [[group]] is that of one of the 'groups', and no group has two such tables",
        )
        .map(Some),
        _ => Ok(None),
    }
}

/// Which key of the target names no group or no client. None for any other fault, and where none is seen to do so.
fn hint_for_target_names(alloc: Global, source: ScenarioText<'_>, fault: ScenarioFault) -> Hint {
    let word = Key::Target.word();
    let Some(target) = source.table.get(word).and_then(Value::as_table) else {
        return Ok(None);
    };
    if fault != ScenarioFault::UnknownGroup {
        return Ok(None);
    }
    let part = source.part(ScenarioTable::Target);
    if target.get(Key::Group.word()).and_then(Value::as_str) == Some("*") {
        return format!(in alloc;
            "'group' in {part} is \"*\", for all groups of the message, of which 'latency' tells, without '--ceiling', and tables of all messages: name one of them here"
        ).map(Some);
    }
    match target.get(Key::Reply.word()).and_then(Value::as_str) {
        Some(client) => {
            let client = Quoted(client);
            format!(in alloc;
                "'reply' in {part} is {client}: write the name of a place or of a group, or 'client' for clients at no named place"
            ).map(Some)
        }
        None => Ok(None),
    }
}

/// What is wrong with the range of a message.
fn hint_for_slow(
    alloc: Global,
    source: ScenarioText<'_>,
    placed: &Placed,
    rule: &str,
) -> Result<String, AllocError> {
    let part = source.part(placed.table);
    format!(in alloc; "'least' and 'most' in {part} are added to the range from its sender: {rule}")
}

/// What to write where the range from a slow message's sender is not written.
const NO_WAY: &str =
    "write a table [[link]] from there to each group that it goes to, or 'delay' and 'least' above the first header";

/// What the range of a slow message has to be.
const NO_ADDED_RANGE: &str =
    "write a least time of 0 or more and a greatest one that is not less, of at most 65535 ticks";

/// What is wrong with the times of a scenario, so that they can't be told in ticks, or with what these write.
fn hint_for_times(
    alloc: Global,
    source: ScenarioText<'_>,
    written: &WrittenScenario,
    placed: &Placed,
) -> Hint {
    match placed.fault {
        ScenarioFault::Shape(_) => hint_for_mixture(alloc, source, written),
        ScenarioFault::NotWhole(key) => {
            hint_for_part_of_tick(alloc, source, written, placed.table, key)
        }
        ScenarioFault::OverLimit(limit @ (Limit::Agree | Limit::Delay)) => {
            hint_for_agreed_limit(alloc, source, written, limit)
        }
        ScenarioFault::OverLimit(limit @ Limit::Link) if !written.agreements.is_empty() => {
            hint_for_agreed_limit(alloc, source, written, limit)
        }
        ScenarioFault::OverLimit(Limit::Link) => hint_for_many_links(alloc).map(Some),
        ScenarioFault::OverLimit(_) => hint_for_least_of_all(alloc, written),
        _ => Ok(None),
    }
}

/// What is wrong with a draft, or with a deadline or a span, whose shape is told last.
fn hint_for_draft(
    alloc: Global,
    source: ScenarioText<'_>,
    asked: &Asked,
    written: &WrittenScenario,
    draft: DraftScenario,
    fault: ScenarioFault,
) -> Hint {
    match fault {
        ScenarioFault::NoRange => hint_for_no_range(alloc, &draft, written.delay.is_some()),
        ScenarioFault::Shape(Key::Until) => hint_for_span(alloc, &draft, asked.around),
        ScenarioFault::Shape(_) => hint_for_deadline(alloc, source, written, &asked.at_most),
        fault => {
            let names_target = names_target(asked);
            let sketch = sketch_of_draft(alloc, source, &written.links, draft, names_target)?;
            let hint = match hint_for_limits(alloc, &sketch, asked, fault)? {
                Some(hint) => Some(hint),
                None => hint_for_agreeing(alloc, source, written, fault)?,
            };
            let hint = match hint {
                Some(hint) => Some(hint),
                None => hint_for_target_names(alloc, source, fault)?,
            };
            with_cause(alloc, source, written, fault, hint)
        }
    }
}

/// What is wrong with a draft that is sketched so, or where nothing is with the span that is asked for.
fn hint_for_limits(
    alloc: Global,
    sketch: &Sketch<'_>,
    asked: &Asked,
    fault: ScenarioFault,
) -> Hint {
    match (hint_for_sketch(alloc, sketch, fault)?, fault) {
        (None, ScenarioFault::OverLimit(Limit::Until)) => {
            hint_for_long_span(alloc, sketch.draft.tick, asked.around)
        }
        (hint, _) => Ok(hint),
    }
}

/// The hint, and which duration makes the tick so short where times are too many of it.
fn with_cause(
    alloc: Global,
    source: ScenarioText<'_>,
    written: &WrittenScenario,
    fault: ScenarioFault,
    hint: Option<String>,
) -> Hint {
    match (fault, hint) {
        (ScenarioFault::OverLimit(Limit::Delay | Limit::At | Limit::Until), Some(hint)) => {
            with_cause_of_tick(alloc, source, written, hint).map(Some)
        }
        (_, hint) => Ok(hint),
    }
}

/// What is wrong with the numbers and the names of a scenario that has that fault, whichever text it is
/// written in, without the label of a hint. None where the fault is not of these, or the sketch does not
/// show it.
pub fn hint_for_sketch(alloc: Global, sketch: &Sketch<'_>, fault: ScenarioFault) -> Hint {
    match fault {
        ScenarioFault::OverLimit(limit) => hint_for_limit(alloc, sketch, limit),
        ScenarioFault::BadName => hint_for_bad_name(alloc, sketch),
        ScenarioFault::DoubleName => hint_for_double_name(alloc, sketch),
        ScenarioFault::UnknownGroup => hint_for_unknown_group(alloc, sketch),
        ScenarioFault::NoDestination => hint_for_no_destination(alloc, sketch),
        ScenarioFault::DoubleDestination => hint_for_double_destination(alloc, sketch),
        ScenarioFault::UnknownTarget => hint_for_unknown_target(alloc, sketch),
        ScenarioFault::TargetNotAddressed => hint_for_target_not_addressed(alloc, sketch),
        ScenarioFault::NotToml
        | ScenarioFault::Shape(_)
        | ScenarioFault::NotWhole(_)
        | ScenarioFault::NoRange
        | ScenarioFault::Memory => Ok(None),
    }
}
