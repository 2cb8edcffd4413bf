//! The options of the commands: which value each has, and beside which others it may stand.

use super::help::{
    ABOUT_ACCEPT, ABOUT_ALL, ABOUT_ALL_CHANGES, ABOUT_ALL_DEADLINES, ABOUT_ALL_TARGETS,
    ABOUT_AROUND, ABOUT_AT_MOST, ABOUT_BATCH_AT_MOST, ABOUT_BATCH_FORMAT, ABOUT_BESIDE,
    ABOUT_BOUNDS, ABOUT_BY_CEILING, ABOUT_CEILINGS_JOBS, ABOUT_CERTIFYING, ABOUT_EACH_AROUND,
    ABOUT_ENVELOPE, ABOUT_FIRST_PLACEMENTS, ABOUT_FORMAT, ABOUT_GROUP, ABOUT_JOBS, ABOUT_KINDS,
    ABOUT_LEAST, ABOUT_LIMIT, ABOUT_LINKS_FORMAT, ABOUT_LINKS_UNIT, ABOUT_LISTING, ABOUT_MARGIN,
    ABOUT_OF_CEILING, ABOUT_OF_PLAN, ABOUT_OUTAGE, ABOUT_PLACED_TARGETS, ABOUT_PLACING,
    ABOUT_PROGRESS, ABOUT_SECONDS, ABOUT_SEEK, ABOUT_SEEK_TRAFFIC, ABOUT_SET, ABOUT_SKEW,
    ABOUT_SPEED, ABOUT_STATUS, ABOUT_STEPS, ABOUT_SWEEP_FORMAT, ABOUT_TARGET, ABOUT_TELL,
    ABOUT_TICK, ABOUT_TRACE, ABOUT_TRACE_CHECK, ABOUT_TRACE_UNIT, ABOUT_UNIT, ABOUT_WANTED,
    ABOUT_WHY, ABOUT_WHY_THERE, ABOUT_WITHOUT, ABOUT_WORKERS, ABOUT_WRITTEN_AROUND,
};
use super::limits::MOST_SECONDS;
use clap::builder::ValueParser;
use convoy_commands::{
    DEFAULT_SIMULATIONS, DEFAULT_STEPS, MOST_SIMULATIONS, MOST_STEPS, MOST_TICKETS, MOST_WORKERS,
};

/// An option of a command.
#[derive(Clone, Copy)]
pub(crate) struct Setting {
    pub(crate) name: &'static str,
    pub(crate) about: &'static str,
    pub(crate) value: Value,
    pub(crate) company: Company,
}

/// Which value an option has.
#[derive(Clone, Copy)]
pub(crate) enum Value {
    /// None: the option is given or not.
    Absent,
    /// One that help calls by this word, and that has to be so.
    Given(&'static str, ValueParser<'static>),
    /// The same, of an option that has to be given, once or more often.
    Several(&'static str, ValueParser<'static>),
    /// One as `Given`, with the one that it has where the option is not given.
    Usual(&'static str, ValueParser<'static>, &'static str),
    /// One as `Given`, but only after `=`, with the one that it has where the option is given without.
    Optional(&'static str, ValueParser<'static>, &'static str),
}

/// Beside which other options of its command an option may stand.
#[derive(Clone, Copy)]
pub(crate) enum Company {
    /// Beside each.
    Any,
    /// Beside none that is of this group as well.
    OneOf(&'static str),
    /// Only beside one of this group.
    With(&'static str),
    /// Not beside this one.
    Without(&'static str),
    /// Beside none of these.
    WithoutAny(&'static [&'static str]),
}

/// The group of the options by which `ceiling` is asked for several ceilings.
const TARGETS: &str = "targets";

/// The group of the options by which `ranges` reads a trace.
const TRACES: &str = "traces";

/// How a table may be written.
const FORMATS: Value = Value::Given("FORMAT", ValueParser::Names(&["text", "csv", "json"]));

/// The units in which times may be told.
const UNITS: Value = Value::Given("UNIT", ValueParser::Names(&["ns", "us", "ms", "s"]));

/// The word for the span that is the greatest delay, as which an option is taken that is given without one.
pub const GREATEST_SPAN: &str = "D";

/// How a target is named.
const NAMED_TARGET: Value = Value::Given("MESSAGE@GROUP", ValueParser::String);

/// How many schedules may be simulated, and how many are where that is not said.
const SIMULATIONS: Value = Value::Usual("N", ValueParser::Unsigned(0, MOST_SIMULATIONS), "20000");

/// How many rows of a table may be made at a time: as many as workers may share a search.
const ROWS_AT_A_TIME: Value = Value::Given("N", ValueParser::Signed(1, MOST_WORKERS as i64));

// The usual numbers are told as texts.
const _: () = prove!(DEFAULT_SIMULATIONS == 20_000);

const _: () = prove!(DEFAULT_STEPS == 100_000_000);

/// The limit of a search.
pub(crate) const LIMIT: Setting = Setting {
    name: "limit",
    about: ABOUT_LIMIT,
    value: Value::Given("N", ValueParser::Unsigned(1, MOST_TICKETS)),
    company: Company::Any,
};

/// The unit of a trace.
pub(crate) const TRACE_UNIT: Setting = Setting {
    name: "unit",
    about: ABOUT_TRACE_UNIT,
    value: UNITS,
    company: Company::Any,
};

/// By how much the clocks of a trace may be wrong.
pub(crate) const SKEW: Setting = Setting {
    name: "skew",
    about: ABOUT_SKEW,
    value: Value::Given("TIME", ValueParser::String),
    company: Company::Any,
};

/// The limit of a check.
pub(crate) const STEPS: Setting = Setting {
    name: "limit",
    about: ABOUT_STEPS,
    value: Value::Usual("N", ValueParser::Unsigned(1, MOST_STEPS), "100000000"),
    company: Company::Any,
};

/// After how many seconds a search stops.
pub(crate) const SECONDS: Setting = Setting {
    name: "seconds",
    about: ABOUT_SECONDS,
    value: Value::Given("S", ValueParser::Unsigned(1, MOST_SECONDS as u64)),
    company: Company::Any,
};

/// How many schedules are simulated before a search.
pub(crate) const SEEK: Setting = Setting {
    name: "seek",
    about: ABOUT_SEEK,
    value: SIMULATIONS,
    company: Company::Any,
};

/// How many schedules are simulated to find traffic.
pub(crate) const SEEK_TRAFFIC: Setting = Setting {
    name: "seek",
    about: ABOUT_SEEK_TRAFFIC,
    value: SIMULATIONS,
    company: Company::Any,
};

/// By which bounds a search goes.
pub(crate) const BOUNDS: Setting = Setting {
    name: "bounds",
    about: ABOUT_BOUNDS,
    value: Value::Given(
        "KIND",
        ValueParser::Names(&["plain", "stamp", "lead", "best"]),
    ),
    company: Company::Any,
};

/// How many workers share a search.
pub(crate) const WORKERS: Setting = Setting {
    name: "workers",
    about: ABOUT_WORKERS,
    value: Value::Usual("N", ValueParser::Signed(1, MOST_WORKERS as i64), "1"),
    company: Company::Any,
};

/// How many rows of a table are made at a time.
pub(crate) const JOBS: Setting = Setting {
    name: "jobs",
    about: ABOUT_JOBS,
    value: ROWS_AT_A_TIME,
    company: Company::Any,
};

/// The same of a batch, which has rows where it is written as a table.
pub(crate) const BATCH_JOBS: Setting = Setting {
    name: "jobs",
    about: ABOUT_JOBS,
    value: ROWS_AT_A_TIME,
    company: Company::With("format"),
};

/// The same of ceilings, of which there are rows where several are asked for.
pub(crate) const CEILINGS_JOBS: Setting = Setting {
    name: "jobs",
    about: ABOUT_CEILINGS_JOBS,
    value: ROWS_AT_A_TIME,
    company: Company::With(TARGETS),
};

/// Whether a search tells how far it has come.
pub(crate) const PROGRESS: Setting = Setting {
    name: "progress",
    about: ABOUT_PROGRESS,
    value: Value::Absent,
    company: Company::Any,
};

/// Whether an answer has the ceiling beside it.
pub(crate) const CEILING: Setting = Setting {
    name: "ceiling",
    about: ABOUT_BESIDE,
    value: Value::Absent,
    company: Company::Any,
};

/// Whether a survey has ceilings: of one target it has none.
pub(crate) const SURVEY_CEILING: Setting = Setting {
    name: "ceiling",
    about: ABOUT_BESIDE,
    value: Value::Absent,
    company: Company::Without("target"),
};

/// Whether the exit status of a batch tells how its jobs end.
pub(crate) const STATUS: Setting = Setting {
    name: "status",
    about: ABOUT_STATUS,
    value: Value::Absent,
    company: Company::Any,
};

/// How the table of a survey is written.
pub(crate) const FORMAT: Setting = Setting {
    name: "format",
    about: ABOUT_FORMAT,
    value: FORMATS,
    company: Company::Any,
};

/// How a batch is written as a table.
pub(crate) const BATCH_FORMAT: Setting = Setting {
    name: "format",
    about: ABOUT_BATCH_FORMAT,
    value: FORMATS,
    company: Company::Any,
};

/// How a sweep is written: as a table, or as a curve.
pub(crate) const SWEEP_FORMAT: Setting = Setting {
    name: "format",
    about: ABOUT_SWEEP_FORMAT,
    value: Value::Given(
        "FORMAT",
        ValueParser::Names(&["text", "csv", "json", "svg"]),
    ),
    company: Company::Any,
};

/// How a table of ceilings is written.
pub(crate) const CEILINGS_FORMAT: Setting = Setting {
    name: "format",
    about: ABOUT_FORMAT,
    value: FORMATS,
    company: Company::With(TARGETS),
};

/// Whether the ceilings of all targets are asked for.
pub(crate) const ALL: Setting = Setting {
    name: "all",
    about: ABOUT_ALL,
    value: Value::Absent,
    company: Company::OneOf(TARGETS),
};

/// The group at which the ceilings of all messages are asked for.
pub(crate) const GROUP: Setting = Setting {
    name: "group",
    about: ABOUT_GROUP,
    value: Value::Given("GROUP", ValueParser::String),
    company: Company::OneOf(TARGETS),
};

/// Whether the text is one of kinds of messages, which has no messages with deadlines.
pub(crate) const KINDS: Setting = Setting {
    name: "kinds",
    about: ABOUT_KINDS,
    value: Value::Absent,
    company: Company::WithoutAny(&["target", "at-most", "group", "jobs", "outage"]),
};

/// How long outages last in all, through which it is told what no latency is above.
pub(crate) const OUTAGE: Setting = Setting {
    name: "outage",
    about: ABOUT_OUTAGE,
    value: Value::Given("SPAN", ValueParser::String),
    company: Company::Any,
};

/// How far replicas are from the leaders of their groups. The ceiling is one without replicas.
pub(crate) const ACCEPT: Setting = Setting {
    name: "accept",
    about: ABOUT_ACCEPT,
    value: Value::Given("SPAN", ValueParser::String),
    company: Company::WithoutAny(&["outage", "ceiling"]),
};

/// Whether a survey is one of changes.
pub(crate) const WITHOUT: Setting = Setting {
    name: "without",
    about: ABOUT_WITHOUT,
    value: Value::Absent,
    company: Company::WithoutAny(&["ceiling", "outage"]),
};

/// Whether a survey of changes has a row for each, also where nothing changes.
pub(crate) const ALL_CHANGES: Setting = Setting {
    name: "all",
    about: ABOUT_ALL_CHANGES,
    value: Value::Absent,
    company: Company::With("without"),
};

/// The deadline of messages to which the text gives none.
pub(crate) const AT_MOST: Setting = Setting {
    name: "at-most",
    about: ABOUT_AT_MOST,
    value: Value::Given("TIME", ValueParser::String),
    company: Company::Any,
};

/// The deadline of the messages of a batch to which their texts give none.
pub(crate) const BATCH_AT_MOST: Setting = Setting {
    name: "at-most",
    about: ABOUT_BATCH_AT_MOST,
    value: Value::Given("TIME", ValueParser::String),
    company: Company::Any,
};

/// Whether all is asked around the target, and how far.
pub(crate) const AROUND: Setting = Setting {
    name: "around",
    about: ABOUT_AROUND,
    value: Value::Optional("SPAN", ValueParser::String, GREATEST_SPAN),
    company: Company::Any,
};

/// The same, of a table of several targets.
pub(crate) const EACH_AROUND: Setting = Setting {
    name: "around",
    about: ABOUT_EACH_AROUND,
    value: Value::Optional("SPAN", ValueParser::String, GREATEST_SPAN),
    company: Company::Any,
};

/// The same, of a sweep: as windows its rows are of the issue times of the text.
pub(crate) const SWEEP_AROUND: Setting = Setting {
    name: "around",
    about: ABOUT_AROUND,
    value: Value::Optional("SPAN", ValueParser::String, GREATEST_SPAN),
    company: Company::Without("envelope"),
};

/// Whether the scenario around the target is written.
pub(crate) const WRITTEN_AROUND: Setting = Setting {
    name: "around",
    about: ABOUT_WRITTEN_AROUND,
    value: Value::Optional("SPAN", ValueParser::String, GREATEST_SPAN),
    company: Company::Any,
};

/// The target of the scenario that is written.
pub(crate) const WRITTEN_TARGET: Setting = Setting {
    name: "target",
    about: ABOUT_TARGET,
    value: NAMED_TARGET,
    company: Company::With("around"),
};

/// The target.
pub(crate) const TARGET: Setting = Setting {
    name: "target",
    about: ABOUT_TARGET,
    value: NAMED_TARGET,
    company: Company::Any,
};

/// The target of a ceiling, where one alone is asked for.
pub(crate) const CEILING_TARGET: Setting = Setting {
    name: "target",
    about: ABOUT_TARGET,
    value: NAMED_TARGET,
    company: Company::Without(TARGETS),
};

/// Whether the budgets of all deadlines are asked for.
pub(crate) const ALL_DEADLINES: Setting = Setting {
    name: "all",
    about: ABOUT_ALL_DEADLINES,
    value: Value::Absent,
    company: Company::Any,
};

/// Whether the ceiling has to keep a deadline.
pub(crate) const OF_CEILING: Setting = Setting {
    name: "ceiling",
    about: ABOUT_OF_CEILING,
    value: Value::Absent,
    company: Company::Any,
};

/// The target of a budget, an order or a plan, where one alone is asked for.
pub(crate) const BUDGET_TARGET: Setting = Setting {
    name: "target",
    about: ABOUT_TARGET,
    value: NAMED_TARGET,
    company: Company::Without("all"),
};

/// The target of a survey of changes.
pub(crate) const CHANGES_TARGET: Setting = Setting {
    name: "target",
    about: ABOUT_TARGET,
    value: NAMED_TARGET,
    company: Company::With("without"),
};

/// Whether an order is to be the best for all messages.
pub(crate) const ALL_TARGETS: Setting = Setting {
    name: "all",
    about: ABOUT_ALL_TARGETS,
    value: Value::Absent,
    company: Company::Any,
};

/// Whether the reasons are told why no order is better.
pub(crate) const WHY: Setting = Setting {
    name: "why",
    about: ABOUT_WHY,
    value: Value::Absent,
    company: Company::Without("scenario"),
};

/// Whether the scenario is written with its groups in the best order, in place of a table.
pub(crate) const LISTING: Setting = Setting {
    name: "scenario",
    about: ABOUT_LISTING,
    value: Value::Absent,
    company: Company::Without("format"),
};

/// Whether a placement and an order are to be the best for all messages.
pub(crate) const PLACED_TARGETS: Setting = Setting {
    name: "all",
    about: ABOUT_PLACED_TARGETS,
    value: Value::Absent,
    company: Company::Any,
};

/// How many of the best placements are told at most.
const MOST_FIRST: u64 = 100;

/// How many of the best placements are told.
pub(crate) const FIRST_PLACEMENTS: Setting = Setting {
    name: "first",
    about: ABOUT_FIRST_PLACEMENTS,
    value: Value::Given("K", ValueParser::Unsigned(1, MOST_FIRST)),
    company: Company::Any,
};

/// Whether the reasons are told why no order is better at the best placement.
pub(crate) const WHY_THERE: Setting = Setting {
    name: "why",
    about: ABOUT_WHY_THERE,
    value: Value::Absent,
    company: Company::Without("scenario"),
};

/// Whether the scenario of the best placement is written, in place of a table.
pub(crate) const PLACING: Setting = Setting {
    name: "scenario",
    about: ABOUT_PLACING,
    value: Value::Absent,
    company: Company::Without("format"),
};

/// Whether a certificate of the best choice is written, in place of a table.
pub(crate) const CERTIFYING: Setting = Setting {
    name: "certificate",
    about: ABOUT_CERTIFYING,
    value: Value::Absent,
    company: Company::WithoutAny(&["first", "scenario", "why", "format", "unit"]),
};

/// Whether a placement is to be the best by its ceilings, for which nothing is searched that has options.
pub(crate) const BY_CEILING: Setting = Setting {
    name: "ceiling",
    about: ABOUT_BY_CEILING,
    value: Value::Absent,
    company: Company::WithoutAny(&[
        "first",
        "why",
        "certificate",
        "limit",
        "seconds",
        "seek",
        "bounds",
        "workers",
        "jobs",
        "progress",
    ]),
};

/// By how much a round trip may be longer than the greatest that was measured.
pub(crate) const MARGIN: Setting = Setting {
    name: "margin",
    about: ABOUT_MARGIN,
    value: Value::Usual("PERCENT", ValueParser::Unsigned(0, 255), "0"),
    company: Company::Without("check"),
};

/// Whether a trace is read.
pub(crate) const TRACE: Setting = Setting {
    name: "trace",
    about: ABOUT_TRACE,
    value: Value::Absent,
    company: Company::OneOf(TRACES),
};

/// The scenario beside which the links of a trace are told.
pub(crate) const CHECK: Setting = Setting {
    name: "check",
    about: ABOUT_TRACE_CHECK,
    value: Value::Given("SCENARIO", ValueParser::String),
    company: Company::OneOf(TRACES),
};

/// How the links of a trace are written as a table.
pub(crate) const LINKS_FORMAT: Setting = Setting {
    name: "format",
    about: ABOUT_LINKS_FORMAT,
    value: FORMATS,
    company: Company::With(TRACES),
};

/// The unit of numbers of such a trace that have none.
pub(crate) const LINKS_UNIT: Setting = Setting {
    name: "unit",
    about: ABOUT_LINKS_UNIT,
    value: UNITS,
    company: Company::With(TRACES),
};

/// How fast a signal goes at most.
pub(crate) const SPEED: Setting = Setting {
    name: "speed",
    about: ABOUT_SPEED,
    value: Value::Usual("WAY", ValueParser::Names(&["fibre", "air"]), "fibre"),
    company: Company::WithoutAny(&["trace", "check"]),
};

/// The least that a packet takes where no distance is known.
pub(crate) const LEAST: Setting = Setting {
    name: "least",
    about: ABOUT_LEAST,
    value: Value::Given("DURATION", ValueParser::String),
    company: Company::WithoutAny(&["trace", "check"]),
};

/// How long a tick lasts.
pub(crate) const TICK: Setting = Setting {
    name: "tick",
    about: ABOUT_TICK,
    value: Value::Usual("DURATION", ValueParser::String, "0.1 ms"),
    company: Company::Without("check"),
};

/// Which values a sweep gives a key, once for each key.
pub(crate) const SET: Setting = Setting {
    name: "set",
    about: ABOUT_SET,
    value: Value::Several("KEY=FROM..TO/STEP", ValueParser::String),
    company: Company::Any,
};

/// Whether a row of a sweep speaks of all times of issue up to the next value.
pub(crate) const ENVELOPE: Setting = Setting {
    name: "envelope",
    about: ABOUT_ENVELOPE,
    value: Value::Absent,
    company: Company::Any,
};

/// In which unit times are told.
pub(crate) const UNIT: Setting = Setting {
    name: "unit",
    about: ABOUT_UNIT,
    value: UNITS,
    company: Company::Any,
};

/// The scenario that a certificate is to be of.
pub(crate) const SCENARIO: Setting = Setting {
    name: "scenario",
    about: ABOUT_WANTED,
    value: Value::Given("FILE", ValueParser::String),
    company: Company::Any,
};

/// Whether the certificate stands below a plan.
pub(crate) const OF_PLAN: Setting = Setting {
    name: "plan",
    about: ABOUT_OF_PLAN,
    value: Value::Absent,
    company: Company::WithoutAny(&["limit", "scenario", "tell", "unit"]),
};

/// The target for which it is checked then.
pub(crate) const PLAN_TARGET: Setting = Setting {
    name: "target",
    about: ABOUT_TARGET,
    value: NAMED_TARGET,
    company: Company::With("plan"),
};

/// Whether it is checked for each message at each group.
pub(crate) const PLAN_TARGETS: Setting = Setting {
    name: "all",
    about: ABOUT_ALL_TARGETS,
    value: Value::Absent,
    company: Company::With("plan"),
};

/// The deadline of messages without one.
pub(crate) const PLAN_AT_MOST: Setting = Setting {
    name: "at-most",
    about: ABOUT_AT_MOST,
    value: Value::Given("TIME", ValueParser::String),
    company: Company::With("plan"),
};

/// Whether what is accepted is told.
pub(crate) const TELL: Setting = Setting {
    name: "tell",
    about: ABOUT_TELL,
    value: Value::Absent,
    company: Company::Any,
};
