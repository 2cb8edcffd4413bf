use super::durations::hint_for_duration;
use super::fields::{
    Field, Kind, OUTSIDE, TOP_KEYS, field_at, keys_of, lasting_field, words_beside,
};
use super::hint::Hint;
use super::near::nearest;
use super::other_keys::{advice_for, advice_in_place, is_word_for_clients};
use super::part::Part;
use super::quoting::{Quoted, Words};
use super::scenario_text::ScenarioText;
use convoy_scenario::{Duration, Key, Time};
use convoy_toml::{ScenarioTable, time_of_table};
use std::alloc::{AllocError, Global};
use toml::value::Array;
use toml::{Table, Value};

/// What is wrong at a key of one of the tables of a text, which is absent or of another kind, or with the
/// first key that the table may not have.
pub fn hint_for_shape(
    alloc: Global,
    source: ScenarioText<'_>,
    table: ScenarioTable,
    key: Key,
) -> Hint {
    let Some(inner) = source.table_at(table) else {
        return Ok(None);
    };
    let part = source.part(table);
    if key == Key::Unknown {
        return hint_for_unknown(alloc, inner, &part);
    }
    if is_outside(table, key) {
        return hint_for_outside(alloc, inner.get(OUTSIDE), &part).map(Some);
    }
    if key == Key::Agree && says_accept(inner) {
        return hint_for_accept(alloc, Key::Steps, &part).map(Some);
    }
    if key == Key::Steps && !says_accept(inner) && some_accept(source.table) {
        return hint_for_other_steps(alloc, &part).map(Some);
    }
    match inner.get(key.word()) {
        Some(value) => hint_for_value(alloc, source, inner, key, value, &part).map(Some),
        None => hint_for_absent(alloc, source, inner, key, &part).map(Some),
    }
}

/// Whether a fault is that of the share that a table of links tells: it is one of the table.
fn is_outside(table: ScenarioTable, key: Key) -> bool {
    matches!(table, ScenarioTable::Link(_)) && key == Key::Link
}

/// What stands where a table of links tells a share is none.
fn hint_for_outside(
    alloc: Global,
    value: Option<&Value>,
    part: &Part<'_>,
) -> Result<String, AllocError> {
    let rule =
        "write a share from 0 to 1 in quotes, with at most nine digits after the point, as 'outside = \"0.001\"'";
    match value.and_then(Value::as_str) {
        Some(text) => {
            let shown = Quoted(text);
            format!(in alloc; "'outside' in {part} is {shown}: {rule}")
        }
        None => {
            let found = value.map_or("value", Value::type_str);
            let article = article_of(found);
            format!(in alloc; "'outside' in {part} is {article} {found}: {rule}")
        }
    }
}

/// How time goes by a text: in whole ticks too where that has a fault of its own.
fn time_of(source: ScenarioText<'_>) -> Time {
    time_of_table(source.table).unwrap_or(Time::Ticks)
}

/// What has to stand at a key of a table of a text: where time is real and no time is a number, a duration.
fn field_of(source: ScenarioText<'_>, table: ScenarioTable, key: Key) -> Field {
    let field = field_at(table, key);
    if time_of(source) == Time::Ticks || source.has_counts() {
        return field;
    }
    lasting_field(key).unwrap_or(field)
}

/// What is wrong with the value of a key.
fn hint_for_value(
    alloc: Global,
    source: ScenarioText<'_>,
    table: &Table,
    key: Key,
    value: &Value,
    part: &Part<'_>,
) -> Result<String, AllocError> {
    let field = field_of(source, part.table, key);
    let time = time_of(source);
    match (key, value.as_str()) {
        (Key::Time, Some(word)) => hint_for_time_word(alloc, word),
        (Key::Tick, _) if time == Time::Ticks => String::from_str(
            alloc,
            "'tick' is the length of a tick where time is real: write 'time = \"real\"', or leave it out",
        ),
        (Key::Tick, Some(text)) => hint_for_length(alloc, text, part),
        (Key::Least, _) if time == Time::Ticks && part.table == ScenarioTable::Top => {
            String::from_str(
                alloc,
                "'least' is the least delay of what goes by no link where time is real, and in whole ticks that is 1 tick: write 'time = \"real\"', or leave it out",
            )
        }
        (Key::From, _) if names_clients(value) => format!(in alloc;
            "'{key}' in {part} has the clients in it: leave the key '{key}' out where clients send"
        ),
        (Key::From, _) if names_several(value, part.table) => format!(in alloc;
            "'{key}' in {part} names several senders, and what is asked for is told of one: write one of them, or ask 'latency' without '--ceiling', which tells the worst, or 'survey' without '--outage', which tells each"
        ),
        (Key::Steps, Some(ACCEPT)) => hint_for_accept(alloc, key, part),
        (Key::Steps, Some(word)) => hint_for_steps_word(alloc, word, part),
        (Key::Agree, _) => hint_for_agree(alloc, field, value, part, time),
        (Key::Both, _) if leads_back_to_clients(table) => format!(in alloc;
            "'both' in {part} is true, and nothing is sent to clients: name the groups in 'from', or leave 'both' out"
        ),
        (Key::Least | Key::Most, _) if is_added(part.table) && is_time(value, time) => {
            format!(in alloc;
                "'{key}' in {part} is added to the range from its sender: write both as durations, or both as numbers of ticks"
            )
        }
        (Key::Link, _) if part.table == ScenarioTable::Top && value.is_array() => hint_for_share(
            alloc, field, value, part,
        ),
        _ if matches!(field.kind, Kind::Time | Kind::Duration) => {
            hint_for_when(alloc, key, field, value, part, time)
        }
        _ => hint_for_kind(alloc, key, field, value, part),
    }
}

/// Whether what stands in the table is added to the range of a link.
fn is_added(table: ScenarioTable) -> bool {
    matches!(table, ScenarioTable::Multicast(_))
}

/// An array at the key of links is none of tables, or one of these has a share of packets outside its range beside a slow
/// message.
fn hint_for_share(
    alloc: Global,
    field: Field,
    value: &Value,
    part: &Part<'_>,
) -> Result<String, AllocError> {
    match value.as_array() {
        Some(items) if items.iter().any(|item| has_word(item, OUTSIDE)) => String::from_str(
            alloc,
            "a table [[link]] has 'outside', and a message has 'least' and 'most': which share of its packets takes longer is not known, so leave one of them out",
        ),
        _ => hint_for_kind(alloc, Key::Link, field, value, part),
    }
}

/// Whether the value is a table with a key of that word.
fn has_word(value: &Value, word: &str) -> bool {
    match value {
        Value::Table(table) => table.contains_key(word),
        _ => false,
    }
}

/// What is wrong with a text that is to be the length of a tick.
fn hint_for_length(alloc: Global, text: &str, top: &Part<'_>) -> Result<String, AllocError> {
    match Duration::read(text.as_bytes()) {
        None => hint_for_duration(alloc, "tick", top, text),
        Some(_) => String::from_str(alloc, "'tick' is 0, and a tick lasts 1 ns or more"),
    }
}

/// A word is none for how time goes.
fn hint_for_time_word(alloc: Global, word: &str) -> Result<String, AllocError> {
    let shown = Quoted(word);
    let kinds = [Time::Ticks.word(), Time::Real.word()];
    match nearest(alloc, word, &kinds)? {
        Some(near) => {
            let near = Quoted(near);
            format!(in alloc; "'time' is {shown}: did you mean {near}?")
        }
        None => format!(in alloc;
            "'time' is {shown}: write 'time = \"real\"', or 'time = \"ticks\"', which is so without the key"
        ),
    }
}

/// A word is none for how often replicas agree.
fn hint_for_steps_word(alloc: Global, word: &str, part: &Part<'_>) -> Result<String, AllocError> {
    let shown = Quoted(word);
    format!(in alloc;
        "'steps' in {part} is {shown}: write \"log\" where each message and each proposal that comes is an entry, and \"twice\" where one more is agreed on before a message is committed"
    )
}

/// What replicas need to agree is not an array of two times.
fn hint_for_agree(
    alloc: Global,
    field: Field,
    value: &Value,
    part: &Part<'_>,
    time: Time,
) -> Result<String, AllocError> {
    let items = match value.as_array() {
        Some(items) if items.len() == 2 => items,
        Some(items) => {
            let (count, sample) = (items.len(), field.sample);
            return format!(in alloc;
                "'agree' in {part} has {count} items: write two times, the least and the greatest from an entry given to the leader until it is applied there, as '{sample}'"
            );
        }
        None => return hint_for_kind(alloc, Key::Agree, field, value, part),
    };
    let odd = items
        .iter()
        .find(|item| !is_time(item, time))
        .unwrap_or(value);
    let each = Field {
        kind: Kind::Time,
        sample: field.sample,
    };
    hint_for_when(alloc, Key::Agree, each, odd, part, time)
}

/// Whether a value is a number of ticks, or where time is real a duration.
fn is_time(value: &Value, time: Time) -> bool {
    match value.as_str() {
        Some(text) => time == Time::Real && Duration::read(text.as_bytes()).is_some(),
        None => value.is_integer(),
    }
}

/// Whether a value is an array with a word for the clients in it.
fn names_clients(value: &Value) -> bool {
    match value.as_array() {
        Some(items) => items.iter().any(is_clients),
        None => false,
    }
}

/// The word for groups that are replicated by white box.
const ACCEPT: &str = "accept";

/// Whether a table of groups says that they are replicated by white box.
fn says_accept(table: &Table) -> bool {
    table.get(Key::Steps.word()).and_then(Value::as_str) == Some(ACCEPT)
}

/// Whether some table of groups of a text says so.
fn some_accept(table: &Table) -> bool {
    match table.get(Key::Group.word()).and_then(Value::as_array) {
        Some(items) => items.iter().filter_map(Value::as_table).any(says_accept),
        None => false,
    }
}

/// What a table of groups has to say beside one that says so.
fn hint_for_other_steps(alloc: Global, part: &Part<'_>) -> Result<String, AllocError> {
    format!(in alloc;
        "'steps' in {part} is not \"accept\", as in another table [[group]]: where one of them has it each does, with 'replicas', a time from 0, in place of 'agree'"
    )
}

/// Who reads groups that are replicated by white box, and what each table of groups has then.
fn hint_for_accept(alloc: Global, key: Key, part: &Part<'_>) -> Result<String, AllocError> {
    format!(in alloc;
        "'{key}' in {part} is \"accept\", of which only 'latency', without '--ceiling' and '--outage', and 'analyse' tell: then each table [[group]] has it, with 'replicas', a time from 0, in place of 'agree'"
    )
}

/// Whether a message may be sent by any of several.
fn names_several(value: &Value, table: ScenarioTable) -> bool {
    let is_message = matches!(table, ScenarioTable::Multicast(_));
    match value.as_array() {
        Some(items) => is_message && !items.is_empty() && items.iter().all(Value::is_str),
        None => false,
    }
}

/// Whether a value is a word for the clients.
fn is_clients(value: &Value) -> bool {
    value.as_str().is_some_and(is_word_for_clients)
}

/// Whether a table of links from the clients asks for the ways back.
fn leads_back_to_clients(table: &Table) -> bool {
    let both = table.get("both").and_then(Value::as_bool);
    both == Some(true) && !table.contains_key("from")
}

/// The first item that is of another kind.
fn odd_item(items: &Array, kind: Kind) -> Option<&Value> {
    items.iter().find(|item| match kind {
        Kind::Integer => !item.is_integer(),
        Kind::Text => !item.is_str(),
        _ => !item.is_table(),
    })
}

/// A time is neither a number of ticks nor, where time is real, a duration.
fn hint_for_when(
    alloc: Global,
    key: Key,
    field: Field,
    value: &Value,
    part: &Part<'_>,
    time: Time,
) -> Result<String, AllocError> {
    match (value.as_str(), time) {
        _ if key == Key::At && is_window(value) => format!(in alloc;
            "'{key}' in {part} is the first time alone: write the last at which the message may be issued as 'until'"
        ),
        (Some(text), Time::Real) => hint_for_duration(alloc, key.word(), part, text),
        (Some(text), Time::Ticks) if Duration::read(text.as_bytes()).is_some() => {
            let shown = Quoted(text);
            format!(in alloc;
                "'{key}' in {part} is the duration {shown}, and time goes in whole ticks: write 'time = \"real\"' above the first header, or an integer"
            )
        }
        _ => hint_for_kind(alloc, key, field, value, part),
    }
}

/// Whether the value is meant as several times, the first and the last of them perhaps.
fn is_window(value: &Value) -> bool {
    match value.as_str() {
        Some(text) => text.contains(".."),
        None => value.is_array(),
    }
}

/// A key is of another kind.
fn hint_for_kind(
    alloc: Global,
    key: Key,
    field: Field,
    value: &Value,
    part: &Part<'_>,
) -> Result<String, AllocError> {
    let Field { kind, sample } = field;
    match kind {
        Kind::Tables if value.is_table() => format!(in alloc;
            "'{key}' is one table, and there may be several: write the header '{sample}', in double brackets"
        ),
        Kind::Table if value.is_array() => format!(in alloc;
            "'{key}' is an array, and there is one target: write the header '{sample}', in single brackets"
        ),
        kind => {
            let wanted = words_for(kind);
            let found = what_is_found(alloc, value, kind)?;
            format!(in alloc; "'{key}' in {part} {found}: write {wanted}, as '{sample}'")
        }
    }
}

/// What is found where a value of that kind is to stand: `is a string`, `is empty`, or `has a string in
/// it`.
fn what_is_found(alloc: Global, value: &Value, kind: Kind) -> Result<String, AllocError> {
    let (Some(items), Some(inner)) = (value.as_array(), kind_of_items(kind)) else {
        let found = value.type_str();
        let article = article_of(found);
        return format!(in alloc; "is {article} {found}");
    };
    match odd_item(items, inner) {
        Some(item) => {
            let odd = item.type_str();
            let article = article_of(odd);
            format!(in alloc; "has {article} {odd} in it")
        }
        None => String::from_str(alloc, "is empty"),
    }
}

/// The kind of the items of an array of that kind, if there are such arrays.
fn kind_of_items(kind: Kind) -> Option<Kind> {
    match kind {
        Kind::Texts | Kind::Names => Some(Kind::Text),
        Kind::Integers => Some(Kind::Integer),
        Kind::Tables => Some(Kind::Table),
        _ => None,
    }
}

/// What a value of the kind is called.
fn words_for(kind: Kind) -> &'static str {
    match kind {
        Kind::Integer | Kind::Time => "an integer",
        Kind::Duration => "a duration",
        Kind::Text => "a string",
        Kind::Texts => "an array of strings",
        Kind::Names => "a string or an array of strings",
        Kind::Range => "an array of two times",
        Kind::Flag => "true or false",
        Kind::Integers => "an array of integers",
        Kind::Table => "a table",
        Kind::Tables => "an array of tables",
    }
}

/// The article of a word.
fn article_of(word: &str) -> &'static str {
    match word.as_bytes().first() {
        Some(b'a' | b'e' | b'i' | b'o' | b'u') => "an",
        _ => "a",
    }
}

/// A key is absent that has to be there.
fn hint_for_absent(
    alloc: Global,
    source: ScenarioText<'_>,
    table: &Table,
    key: Key,
    part: &Part<'_>,
) -> Result<String, AllocError> {
    let is_top = part.table == ScenarioTable::Top;
    if table.is_empty() && is_top {
        return String::from_str(
            alloc,
            "the input has no key: a scenario is read from a file, as by 'convoy latency scenario.toml', or from standard input",
        );
    }
    if let Some(near) = nearest(alloc, key.word(), &keys_in(alloc, table)?)? {
        let near = Quoted(near);
        return format!(in alloc; "{part} has no key '{key}', but {near}: did you mean '{key}'?");
    }
    if is_top && stands_below(source.table, key) {
        return format!(in alloc;
            "'{key}' stands below the header of a table, and so belongs to that: write it above the first header"
        );
    }
    if let (ScenarioTable::Link(_), Some((other, advice))) = (
        part.table,
        advice_in_place(table, key),
    ) {
        let other = Quoted(other);
        return format!(in alloc; "{part} has no key '{key}', but {other}: {advice}");
    }
    let sample = field_of(source, part.table, key).sample;
    format!(in alloc; "{part} has no key '{key}': write it as '{sample}'")
}

/// The keys of a table, in their order.
fn keys_in(alloc: Global, table: &Table) -> Result<Vec<&str>, AllocError> {
    let mut words = Vec::new(alloc);
    for word in table.keys() {
        words.push(word.as_str())?;
    }
    Ok(words)
}

/// Whether the key stands in a table below the top.
fn stands_below(top: &Table, key: Key) -> bool {
    for value in top.values() {
        if stands_in(value, key) {
            return true;
        }
    }
    false
}

/// Whether the value is a table with that key, or an array with such a table in it.
fn stands_in(value: &Value, key: Key) -> bool {
    match value {
        Value::Array(items) => items.iter().any(|item| has_key(item, key)),
        value => has_key(value, key),
    }
}

/// Whether the value is a table with that key.
fn has_key(value: &Value, key: Key) -> bool {
    match value {
        Value::Table(table) => table.contains_key(key.word()),
        _ => false,
    }
}

/// The first key of the table that it may not have.
fn hint_for_unknown(alloc: Global, table: &Table, part: &Part<'_>) -> Hint {
    for word in table.keys() {
        let word = word.as_str();
        if !is_key_of(word, part.table) {
            return hint_for_other_key(alloc, word, part).map(Some);
        }
    }
    Ok(None)
}

/// Whether a word is a key that a table may have.
fn is_key_of(word: &str, table: ScenarioTable) -> bool {
    is_key_among(word, keys_of(table)) || words_beside(table).contains(&word)
}

/// Whether a word is one of these keys.
fn is_key_among(word: &str, keys: &[Key]) -> bool {
    keys.iter().any(|key| key.word() == word)
}

/// A key is none of those that the table may have.
fn hint_for_other_key(alloc: Global, word: &str, part: &Part<'_>) -> Result<String, AllocError> {
    if part.table != ScenarioTable::Top && is_key_among(word, &TOP_KEYS) {
        return format!(in alloc;
            "'{word}' stands below the header of {part}, and so belongs to that: write it above the first header"
        );
    }
    if is_key_among(word, &[Key::Until, Key::Within]) {
        return format!(in alloc;
            "'{word}' stands in {part}, and is a key of a message: write it below the 'at' of that"
        );
    }
    hint_for_strange_key(alloc, word, part)
}

/// A key is none of any table.
fn hint_for_strange_key(alloc: Global, word: &str, part: &Part<'_>) -> Result<String, AllocError> {
    let shown = Quoted(word);
    if let Some(advice) = advice_for(part.table, word) {
        return format!(in alloc; "{part} has an unknown key, {shown}: {advice}");
    }
    let keys = keys_of(part.table);
    let mut words: Vec<&str> = keys.iter().map(|key| key.word()).collect(alloc)?;
    words.extend_from_slice(words_beside(part.table))?;
    match nearest(alloc, word, &words)? {
        Some(near) => {
            format!(in alloc; "{part} has an unknown key, {shown}: did you mean '{near}'?")
        }
        None => {
            let keys = Words(&words);
            format!(in alloc; "{part} has an unknown key, {shown}: its keys are {keys}")
        }
    }
}
