//! What people write where Convoy has another key, or none.

use convoy_scenario::Key;
use convoy_toml::ScenarioTable;
use toml::Table;

/// What to write in place of the time that a packet and its answer take together.
const ONE_WAY: &str =
    "a round trip is there and back, and a link leads one way: 'most' is the greatest round trip less the least time back, 'least' what the distance takes, and 'both = true' writes the way back";

/// What to write in place of one delay, or of its ends by other names.
const RANGE: &str =
    "write 'least' and 'most', the least and the greatest time of a packet, which may be the same";

/// What to write in place of a pair of groups.
const ENDS: &str = "write 'from' and 'to', and 'both = true' where the range is that of both ways";

/// What to write in place of names of clients.
const CLIENTS: &str =
    "clients have no names: leave 'from' out where they send; where they are at several places, name these as 'places = [\"eu\", \"us\"]', and write one of them in 'from'";

/// What to write in place of a word for a deadline.
const DEADLINE: &str =
    "a deadline is the key 'within' of a message, or for all messages the option '--at-most'";

/// What to write in place of a key that a table may not have; None where that is not known.
pub(crate) fn advice_for(table: ScenarioTable, word: &str) -> Option<&'static str> {
    match table {
        _ if is_word_for_clients(word) => Some(CLIENTS),
        _ if is_word_for_deadline(word) => Some(DEADLINE),
        ScenarioTable::Link(_) => advice_on_range(word).or(advice_on_ends(word)),
        _ => None,
    }
}

/// The first key of a link which stands there in place of that one, and what to write; None where no such is known.
pub(crate) fn advice_in_place(table: &Table, key: Key) -> Option<(&str, &'static str)> {
    for word in table.keys() {
        let advice = match key {
            Key::Least | Key::Most => advice_on_range(word.as_str()),
            Key::To => advice_on_ends(word.as_str()),
            _ => None,
        };
        if let Some(advice) = advice {
            return Some((word.as_str(), advice));
        }
    }
    None
}

/// What to write in place of a word for the delays of a link.
fn advice_on_range(word: &str) -> Option<&'static str> {
    match word {
        "rtt" | "ping" | "roundtrip" | "round_trip" | "round-trip" => Some(ONE_WAY),
        "delay" | "latency" | "min" | "max" | "minimum" | "maximum" => Some(RANGE),
        _ => None,
    }
}

/// What to write in place of a word for the two ends of a link.
fn advice_on_ends(word: &str) -> Option<&'static str> {
    match word {
        "between" | "ends" | "pair" => Some(ENDS),
        _ => None,
    }
}

/// Whether a word is one for a deadline.
fn is_word_for_deadline(word: &str) -> bool {
    matches!(
        word,
        "deadline" | "at_most" | "at-most" | "max_latency" | "timeout" | "budget" | "slo" | "sla"
    )
}

/// Whether a word is one for the clients.
pub fn is_word_for_clients(word: &str) -> bool {
    word == "client" || word == "clients"
}
