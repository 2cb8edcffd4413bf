use super::commands::{command_named, setting_named};
use super::other_options::hint_for_strange;
use super::settings::{Setting, Value};
use convoy_hints_sketch::Quoted;
use std::alloc::{AllocError, Global};
use std::convert::AsStr;
use std::fmt;

/// The commands that write tables: `ceiling` where it is asked for several ceilings.
const WITH_TABLES: [&str; 7] = [
    "survey", "batch", "ceiling", "budget", "order", "plan", "sweep",
];

/// Options of a command or two, and these commands as they are told.
const OF_SOME: [(&str, &str); 27] = [
    (
        "all",
        "'ceiling', 'budget', 'order', 'plan', 'survey --without' and 'check --plan'",
    ),
    ("group", "'ceiling'"),
    ("kinds", "'ceiling'"),
    ("outage", "'latency', 'survey' and 'ceiling'"),
    ("accept", "'latency'"),
    (
        "ceiling",
        "'latency', 'explain', 'survey', 'budget' and 'plan'",
    ),
    ("without", "'survey'"),
    ("scenario", "'check', 'order' and 'plan'"),
    ("tell", "'check'"),
    ("why", "'order' and 'plan'"),
    ("first", "'plan'"),
    ("skew", "'fits'"),
    ("certificate", "'plan'"),
    ("plan", "'check', and a command 'plan' reads plans"),
    ("status", "'batch'"),
    ("margin", "'ranges'"),
    ("speed", "'ranges'"),
    ("least", "'ranges', and a scenario has a key 'least'"),
    ("tick", "'ranges', and a scenario has a key 'tick'"),
    ("trace", "'ranges'"),
    (
        "check",
        "'ranges', and a command 'check' reads certificates",
    ),
    (
        "at-most",
        "'latency', 'analyse', 'survey', 'report', 'ceiling', 'budget', 'order', 'plan', 'sweep', 'batch' and 'check --plan'",
    ),
    (
        "around",
        "'latency', 'analyse', 'survey', 'report', 'budget', 'order', 'sweep', 'batch', 'first' and 'scenario'",
    ),
    (
        "target",
        "'first', 'latency', 'analyse', 'report', 'ceiling', 'budget', 'order', 'plan', 'sweep', 'survey --without', 'scenario --around' and 'check --plan'",
    ),
    (
        "unit",
        "'latency', 'survey', 'report', 'ceiling', 'budget', 'order', 'plan', 'sweep', 'batch', 'explain', 'draw', 'check', 'fits' and 'ranges --trace'",
    ),
    (
        "jobs",
        "'survey', 'report', 'budget', 'order', 'plan', 'sweep', 'ceiling --all' and 'batch --format'",
    ),
    (
        "format",
        "'survey', 'batch', 'ceiling', 'budget', 'order', 'plan', 'sweep' and 'ranges --trace'",
    ),
];

/// The options by which `ceiling` is asked for several ceilings.
const OF_SEVERAL: [&str; 2] = ["--all", "--group"];

/// Options by which other programs let a file be named, and this one does not.
const FILE_OPTIONS: [&str; 4] = ["-i", "-f", "--input", "--file"];

/// Options by which other programs let a format be chosen, and the formats.
const FORMAT_OPTIONS: [(&str, &str); 4] = [
    ("--text", "text"),
    ("--csv", "csv"),
    ("--json", "json"),
    ("--svg", "svg"),
];

/// What to write where a command is to draw that draws nothing.
const OF_IMAGES: &str =
    "hint: 'sweep --format svg' draws a curve, and 'draw' the run of a certificate\n";

/// What the next word of a command line is the value of.
#[derive(Clone, Copy)]
enum Due {
    /// Of an option that the program has.
    Setting,
    /// Of an option that is to name a file.
    File,
}

/// The words of a command line, by what they are.
#[derive(Drop)]
struct Sorted<'a> {
    /// The command and the files, which are no options and no values of such.
    operands: Vec<&'a str>,
    /// The options that the program has, with their values.
    settings: Vec<&'a str>,
    /// The file that an option is to name.
    by_option: Option<&'a str>,
    /// Whether an option names a format.
    names_format: bool,
    /// Whether an option asks for several ceilings.
    asks_for_several: bool,
    /// Whether an option names a scenario.
    names_scenario: bool,
    /// Whether an option asks for changes.
    asks_for_changes: bool,
    /// Whether an option is itself a format.
    is_format: bool,
    /// The first option that the program has not, and no other mistake is known of.
    strange: Option<&'a str>,
}

impl<'a> Sorted<'a> {
    /// These words.
    fn of<S: AsStr>(alloc: Global, words: &'a [S]) -> Result<Sorted<'a>, AllocError> {
        let mut sorted = Sorted {
            operands: Vec::new(alloc),
            settings: Vec::new(alloc),
            by_option: None,
            names_format: false,
            asks_for_several: false,
            names_scenario: false,
            asks_for_changes: false,
            is_format: false,
            strange: None,
        };
        let mut due = None;
        for word in words {
            due = sorted.add(word.as_str(), due)?;
        }
        Ok(sorted)
    }

    /// Adds a word, and answers what the next one is the value of.
    fn add(&mut self, word: &'a str, due: Option<Due>) -> Result<Option<Due>, AllocError> {
        match due {
            Some(Due::Setting) => self.settings.push(word)?,
            Some(Due::File) => self.by_option = Some(word),
            None if word == "-" || !word.starts_with('-') => self.operands.push(word)?,
            None => return self.add_option(word),
        }
        Ok(None)
    }

    /// Adds an option, and answers what the next word is the value of.
    fn add_option(&mut self, word: &'a str) -> Result<Option<Due>, AllocError> {
        let (name, value) = match word.split_once('=') {
            Some((name, value)) => (name, Some(value)),
            None => (word, None),
        };
        if FILE_OPTIONS.contains(&name) {
            self.by_option = Some(value.unwrap_or("FILE"));
            return Ok(value.is_none().then_some(Due::File));
        }
        if let Some(format) = format_of(word) {
            self.is_format = true;
            self.settings.push("--format")?;
            self.settings.push(format)?;
            return Ok(None);
        }
        let Some(has_value) = has_value(self.named_command(), name) else {
            self.strange = self.strange.or(Some(name));
            return Ok(None);
        };
        self.names_format = self.names_format || name == "--format";
        self.asks_for_several = self.asks_for_several || OF_SEVERAL.contains(&name);
        self.names_scenario = self.names_scenario || name == "--scenario";
        self.asks_for_changes = self.asks_for_changes || name == "--without";
        self.settings.push(word)?;
        Ok((has_value && value.is_none()).then_some(Due::Setting))
    }

    /// The command that is named, or the one that most people ask for: of a table that is `survey`.
    fn command(&self) -> &'a str {
        let named = self.named_command();
        if self.is_misformatted() && !WITH_TABLES.contains(&named) {
            return "survey";
        }
        named
    }

    /// What has to stand after the command for it to write a table.
    fn addition(&self) -> &'static str {
        if self.is_misformatted() && self.lacks_several() {
            " --all"
        } else {
            ""
        }
    }

    /// Whether one ceiling is asked for, of which there is no table.
    fn lacks_several(&self) -> bool {
        self.named_command() == "ceiling" && !self.asks_for_several
    }

    /// The command that is named, or the one that most people ask for.
    fn named_command(&self) -> &'a str {
        for operand in &self.operands {
            if is_command(operand) {
                return operand;
            }
        }
        "latency"
    }

    /// Whether a format is named of which the command knows nothing, or by an option that there is not.
    fn is_misformatted(&self) -> bool {
        let named = self.named_command();
        self.is_format
            || self.names_format && (!WITH_TABLES.contains(&named) || self.lacks_several())
    }

    /// Whether an image is asked for, and not of `sweep`.
    fn misdraws(&self) -> bool {
        let draws = |word: &&str| -> bool { *word == "svg" || *word == "--format=svg" };
        self.named_command() != "sweep" && self.settings.iter().any(draws)
    }

    /// The scenario that stands behind a certificate where an option is to name it.
    fn second_text(&self) -> Option<&'a str> {
        match self.operands.as_slice() {
            [command, _, scenario]
                if *command == "check" && !self.names_scenario && is_file(scenario) => {
                Some(scenario)
            }
            _ => None,
        }
    }

    /// The first option that the command has not, and the commands that have it.
    fn misplaced(&self) -> Option<(&'static str, &'static str)> {
        let command = self.named_command();
        for setting in &self.settings {
            if let Some(misplaced) = misplaced_in(command, setting) {
                return Some(misplaced);
            }
        }
        None
    }

    /// What is wrong with how a file or a format is named, and the file that is meant, if one is.
    fn mistake(&self) -> Option<(&'static str, Option<&'a str>)> {
        let operands = self.operands.as_slice();
        if self.strange.is_some()
            || matches!(operands, [word, ..] if !is_command(word) && !is_file(word))
        {
            return None;
        }
        match (self.by_option, operands) {
            (Some(file), _) => Some(("a file is named without an option", Some(file))),
            (None, [_, certificate, _]) if self.second_text().is_some() => {
                Some(("a scenario is named by '--scenario'", Some(certificate)))
            }
            (None, [command, word, file])
                if self.asks_for_changes && is_command(command) && !is_file(word) => {
                Some((
                    "'--without' has no value, and tries each change",
                    Some(file),
                ))
            }
            (None, [command, file, _, ..]) if is_command(command) => {
                Some(("one run reads one file", Some(file)))
            }
            (None, [file, ..]) if is_file(file) => {
                Some(("a file stands after a command", Some(file)))
            }
            (None, [_, rest @ ..]) if self.is_misformatted() => Some((
                "'survey', 'budget', 'order', 'plan', 'sweep', 'batch' and 'ceiling --all' write tables, in the format that '--format' names",
                rest.first().copied(),
            )),
            _ => None,
        }
    }
}

/// What to write in place of a command line that is rejected for how it names a file or a format, in one
/// line `hint: ..`. None where that is not what is wrong, or not all.
pub fn hint_for_words<S: AsStr>(alloc: Global, words: &[S]) -> Result<Option<String>, AllocError> {
    let sorted = Sorted::of(alloc, words)?;
    if sorted.misdraws() {
        return String::from_str(alloc, OF_IMAGES).map(Some);
    }
    let Some((mistake, file)) = sorted.mistake() else {
        return hint_for_option(alloc, &sorted);
    };
    let (command, addition) = (sorted.command(), sorted.addition());
    let settings = Following(&sorted.settings);
    let scenario = Named(" --scenario ", sorted.second_text());
    let file = Named(" ", file);
    format!(in alloc;
        "hint: {mistake}: convoy {command}{addition}{settings}{scenario}{file}\n"
    ).map(Some)
}

/// Which commands have an option that stands with another, or what to write in place of one that none has. None where
/// there is no such option, or no command.
fn hint_for_option(alloc: Global, sorted: &Sorted<'_>) -> Result<Option<String>, AllocError> {
    if let Some(option) = sorted.strange {
        return hint_for_strange(alloc, option);
    }
    if !sorted.operands.iter().any(|word| is_command(word)) {
        return Ok(None);
    }
    match sorted.misplaced() {
        Some((option, told)) => {
            format!(in alloc; "hint: '--{option}' is an option of {told}\n").map(Some)
        }
        None => Ok(None),
    }
}

/// Words that go on with a command line, each after a space: in quotes where they need them.
#[derive(Clone, Copy, Drop)]
struct Following<'a>(&'a [&'a str]);

impl fmt::Display for Following<'_> {
    fn fmt<W: fmt::Write>(&self, f: &mut fmt::Formatter<W>) -> fmt::Result {
        for word in self.0 {
            write_word(f, " ", word)?;
        }
        Ok(())
    }
}

/// A file as it goes on with a command line, if one is named, after that text: in quotes where its name needs
/// them.
#[derive(Clone, Copy, Drop)]
struct Named<'a>(&'static str, Option<&'a str>);

impl fmt::Display for Named<'_> {
    fn fmt<W: fmt::Write>(&self, f: &mut fmt::Formatter<W>) -> fmt::Result {
        match self.1 {
            Some(file) => write_word(f, self.0, file),
            None => Ok(()),
        }
    }
}

/// Writes a word as it goes on with a command line, after that text: in quotes where it needs them.
fn write_word<W: fmt::Write>(
    formatter: &mut fmt::Formatter<W>,
    before: &str,
    word: &str,
) -> fmt::Result {
    if is_plain(word) {
        return write!(formatter, "{before}{word}");
    }
    let word = Quoted(word);
    write!(formatter, "{before}{word}")
}

/// Whether a word can stand in a command line as it is.
fn is_plain(word: &str) -> bool {
    !word.is_empty() && word.bytes().all(|byte| byte.is_ascii_graphic())
}

/// The format that an option is, by which other programs let it be chosen.
fn format_of(option: &str) -> Option<&'static str> {
    for (name, format) in FORMAT_OPTIONS {
        if name == option {
            return Some(format);
        }
    }
    None
}

/// The option that a word is, and the commands that have it, where that command has it not.
fn misplaced_in(command: &str, word: &str) -> Option<(&'static str, &'static str)> {
    for (option, told) in OF_SOME {
        if is_option(word, option) && !has_option(command, option) {
            return Some((option, told));
        }
    }
    None
}

/// Whether the command of that name has an option.
fn has_option(command: &str, option: &str) -> bool {
    setting_of(command, option).is_some()
}

/// The option of that name, where the command of that name has it.
fn setting_of(command: &str, option: &str) -> Option<Setting> {
    match command_named(command) {
        Some(listed) => listed.setting(option),
        None => None,
    }
}

/// Whether a word is the option of that name, with a value or without.
fn is_option(word: &str, name: &str) -> bool {
    let (option, _) = word.split_once('=').unwrap_or((word, ""));
    option.strip_prefix("--") == Some(name)
}

/// Whether an option has a value, of that command, or else of the first that has it; None where there is no such option.
fn has_value(command: &str, option: &str) -> Option<bool> {
    let name = option.strip_prefix("--")?;
    if name == "quiet" {
        return Some(false);
    }
    let setting = match setting_of(command, name) {
        Some(setting) => setting,
        None => setting_named(name)?,
    };
    Some(!matches!(setting.value, Value::Absent | Value::Optional(..)))
}

/// Whether a word is a command.
fn is_command(word: &str) -> bool {
    command_named(word).is_some()
}

/// Whether a word that is no command has a sign that files have in their names and commands do not.
fn is_file(word: &str) -> bool {
    word == "-" || word.contains('.') || word.contains('/')
}
