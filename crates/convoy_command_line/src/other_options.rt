//! Options that people expect, and that the program has not.

use std::alloc::{AllocError, Global};

/// Such options, and what to write in their place.
const OTHERS: [(&str, &str); 24] = [
    ("--message", TARGET),
    ("--within", AT_MOST),
    ("--deadline", AT_MOST),
    ("--max", AT_MOST),
    ("--max-latency", AT_MOST),
    ("--budget", AT_MOST),
    ("--slo", AT_MOST),
    ("--sla", AT_MOST),
    ("--units", UNIT),
    ("--ms", UNIT),
    ("--output", OUTPUT),
    ("--out", OUTPUT),
    ("-o", OUTPUT),
    ("--output-format", "'--format' names the format of a table"),
    ("--threads", WORKERS),
    ("-j", WORKERS),
    ("--timeout", SECONDS),
    ("--time-limit", SECONDS),
    ("--max-time", SECONDS),
    ("--verbose", PROGRESS),
    ("-v", PROGRESS),
    ("-q", QUIET),
    ("--silent", QUIET),
    ("--no-hints", QUIET),
];

const TARGET: &str =
    "'--target MESSAGE@GROUP' names the target, and 'survey' asks for each message at each group";

const AT_MOST: &str =
    "'--at-most' says how late a message may be, as '--at-most \"400 ms\"', and the key 'within' of a message says it in the scenario";

const UNIT: &str = "'--unit' says in which unit times are told, as '--unit ms'";

const OUTPUT: &str = "the answer goes to standard output, as by '> FILE'";

const WORKERS: &str =
    "'--workers' says how many threads share a search, and '--jobs' how many rows of a table are made at a time";

const SECONDS: &str = "'--seconds' says after how long a search stops";

const PROGRESS: &str = "'--progress' tells how far a search has come";

const QUIET: &str = "'--quiet' leaves hints out";

/// Keys of a scenario, which stand there and in no command line.
const KEYS: [&str; 13] = [
    "time",
    "delay",
    "most",
    "both",
    "groups",
    "link",
    "multicast",
    "from",
    "to",
    "at",
    "until",
    "schedule",
    "order",
];

/// What to write in place of an option that the program has not, in one line `hint: ..`; None where that is not known.
pub(crate) fn hint_for_strange(alloc: Global, option: &str) -> Result<Option<String>, AllocError> {
    if let Some(advice) = advice_for(option) {
        return format!(in alloc; "hint: '{option}' is no option: {advice}\n").map(Some);
    }
    match key_of(option) {
        Some(key) => format!(in alloc;
            "hint: '--{key}' is no option: '{key}' is a key of the scenario, and is written there\n"
        ).map(Some),
        None => Ok(None),
    }
}

/// What to write in place of an option of another program; None where that is not known.
fn advice_for(option: &str) -> Option<&'static str> {
    for (name, advice) in OTHERS {
        if name == option {
            return Some(advice);
        }
    }
    None
}

/// The key of a scenario that an option has for its name; None where it has none.
fn key_of(option: &str) -> Option<&'static str> {
    let name = option.strip_prefix("--")?;
    for key in KEYS {
        if key == name {
            return Some(key);
        }
    }
    None
}
