use convoy_scenario::Key;
use convoy_toml::ScenarioTable;

/// What a key's value has to be.
#[derive(Clone, Copy, PartialEq, Eq)]
pub(crate) enum Kind {
    Integer,
    /// A number of ticks, or where time is real a duration.
    Time,
    /// A duration, where time is real and no other time is a number of ticks.
    Duration,
    Text,
    Texts,
    /// A text, or an array of texts that is not empty.
    Names,
    /// An array of two times, the least and the greatest.
    Range,
    Flag,
    Integers,
    Table,
    Tables,
}

/// What has to stand at a key of a table, and how it is written.
#[derive(Clone, Copy)]
pub(crate) struct Field {
    pub(crate) kind: Kind,
    pub(crate) sample: &'static str,
}

/// What has to stand at a key, which some of the tables of that kind may have.
pub(crate) fn field_at(table: ScenarioTable, key: Key) -> Field {
    let is_in_link = matches!(table, ScenarioTable::Link(_));
    let is_in_group = matches!(table, ScenarioTable::Group(_));
    let (kind, sample) = match key {
        Key::Time => (Kind::Text, "time = \"real\""),
        Key::Tick => (Kind::Text, "tick = \"50 us\""),
        Key::Delay => (Kind::Time, "delay = 3"),
        Key::Groups => (Kind::Texts, "groups = [\"a\", \"b\"]"),
        Key::Places => (Kind::Texts, "places = [\"eu\", \"us\"]"),
        Key::Multicast => (Kind::Tables, "[[multicast]]"),
        Key::Name if is_in_group => (Kind::Names, "name = \"a\""),
        Key::Name => (Kind::Text, "name = \"x\""),
        Key::From if is_in_link => (Kind::Names, "from = \"a\""),
        Key::From => (Kind::Text, "from = \"a\""),
        Key::To if is_in_link => (Kind::Names, "to = \"b\""),
        Key::To => (Kind::Texts, "to = [\"a\", \"b\"]"),
        Key::At => (Kind::Time, "at = 0"),
        Key::Until => (Kind::Time, "until = 10"),
        Key::Within => (Kind::Time, "within = 40"),
        Key::Target => (Kind::Table, "[target]"),
        Key::Message => (Kind::Text, "message = \"x\""),
        Key::Group if table == ScenarioTable::Top => (Kind::Tables, "[[group]]"),
        Key::Group => (Kind::Text, "group = \"a\""),
        Key::Link => (Kind::Tables, "[[link]]"),
        Key::Least => (Kind::Time, "least = 1"),
        Key::Most => (Kind::Time, "most = 2"),
        Key::Both => (Kind::Flag, "both = true"),
        Key::Stamps => (Kind::Flag, "stamps = true"),
        Key::Agree => (Kind::Range, "agree = [1, 3]"),
        Key::Steps => (Kind::Text, "steps = \"twice\""),
        Key::Replicas => (Kind::Time, "replicas = 3"),
        Key::Reply => (Kind::Text, "reply = \"eu\""),
        Key::Outage => (Kind::Time, "outage = 400"),
        Key::Schedule => (Kind::Integers, "schedule = [1, 3, 1, 2]"),
        Key::Order => (Kind::Integers, "order = [0, 1, 0, 0]"),
        Key::Unknown => (Kind::Text, ""),
    };
    Field { kind, sample }
}

/// What has to stand at a key whose time is a duration; None where it has no time.
pub(crate) fn lasting_field(key: Key) -> Option<Field> {
    if key == Key::Agree {
        return Some(Field {
            kind: Kind::Range,
            sample: "agree = [\"1 ms\", \"3 ms\"]",
        });
    }
    let sample = match key {
        Key::Delay => "delay = \"80 ms\"",
        Key::Least => "least = \"1 ms\"",
        Key::Most => "most = \"2 ms\"",
        Key::At => "at = \"0 ms\"",
        Key::Until => "until = \"10 ms\"",
        Key::Within => "within = \"400 ms\"",
        Key::Outage => "outage = \"5 s\"",
        Key::Replicas => "replicas = \"3 ms\"",
        _ => return None,
    };
    Some(Field {
        kind: Kind::Duration,
        sample,
    })
}

/// The keys that a table may have.
pub(crate) fn keys_of(table: ScenarioTable) -> &'static [Key] {
    match table {
        ScenarioTable::Top => &TOP_KEYS,
        ScenarioTable::Multicast(_) => &[
            Key::Name,
            Key::From,
            Key::To,
            Key::At,
            Key::Until,
            Key::Within,
            Key::Least,
            Key::Most,
        ],
        ScenarioTable::Target => &[Key::Message, Key::Group, Key::Reply],
        ScenarioTable::Link(_) => &[
            Key::From,
            Key::To,
            Key::Both,
            Key::Least,
            Key::Most,
            Key::Stamps,
        ],
        ScenarioTable::Group(_) => &[Key::Name, Key::Agree, Key::Steps, Key::Replicas],
    }
}

/// The word of the key of a table of links that tells the share of packets outside their range.
pub(crate) const OUTSIDE: &str = "outside";

/// The words of the keys that a table may have beside these: they are no part of the scenario.
pub(crate) fn words_beside(table: ScenarioTable) -> &'static [&'static str] {
    match table {
        ScenarioTable::Link(_) => &[OUTSIDE],
        ScenarioTable::Top
        | ScenarioTable::Multicast(_)
        | ScenarioTable::Target
        | ScenarioTable::Group(_) => &[],
    }
}

/// The keys above the first header.
pub(crate) const TOP_KEYS: [Key; 13] = [
    Key::Time,
    Key::Tick,
    Key::Delay,
    Key::Least,
    Key::Groups,
    Key::Places,
    Key::Multicast,
    Key::Target,
    Key::Link,
    Key::Group,
    Key::Outage,
    Key::Schedule,
    Key::Order,
];
