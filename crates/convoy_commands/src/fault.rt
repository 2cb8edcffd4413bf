ghost use Rattle.std.specs.Prelude.{◌≡◌, ◌≤◌, ◌++◌, length, OnOk, OnErr, IfOk, string_bytes};
ghost use Rattle.convoy_commands.specs.Faults.{IsShortEnding, ending_text, fault_line_of, kinds_limit_word, limit_word, plan_limit_word, row_of, row_of_kinds, row_of_line, row_of_plan, row_of_ranges, row_of_scenario, row_of_trace, row_of_trace_line, row_of_workflow, sweep_word, told_of_order};

use convoy_kinds::{KindsFault, KindsLimit};
use convoy_outages::OutageFault;
use convoy_packets::ListFault;
use convoy_plans::{PlanFault, PlanLimit};
use convoy_ranges::{Cause, RangesFault};
use convoy_replicas::ReplicaFault;
use convoy_scenario::{Limit, ScenarioFault};
use convoy_streams::ReadFault;
use convoy_traces::{Cause as TraceCause, TraceFault};
use convoy_workflow_words::WorkflowFault;
use std::alloc::{AllocError, Global};
use thiserror::Error;

/// Why a command gave no answer: a fault of the crates below with its own cause, or one of the commands.
/// Each has a number and a line of its own (docs/FORMATS.md, "Faults"); the texts of `Display` are for
/// callers of the library alone.
///
/// Memory that ran out is told as `Fault::Memory`, whichever crate found none.
#[derive(Debug, Drop, Error)]
pub enum Fault {
    /// The text is that of no scenario.
    #[error(transparent)]
    Scenario(ScenarioFault),
    /// The delays that are given are no schedule of the scenario.
    #[error(transparent)]
    Schedule(ListFault),
    /// The order of ties that is given is none of the scenario.
    #[error(transparent)]
    Order(OrderFault),
    /// The input was not read to its end. Its limit, where it has more bytes than the command takes, is
    /// `LONGEST_JOB`, or `LONGEST_CERTIFICATE` where it may be a certificate.
    #[error(transparent)]
    Reading(ReadFault),
    /// The sink failed in its last write, or took none of the bytes offered.
    #[error("the output could not be written")]
    Write,
    /// The input of a batch has more jobs than a batch may have.
    #[error("there are too many jobs")]
    TooManyJobs,
    /// The keys of a text can't be given the values that a sweep is to give them.
    #[error(transparent)]
    Sweep(SweepCause),
    /// A table of round trips gives no ranges.
    #[error(transparent)]
    Ranges(RangesFault),
    /// The text is that of no plan, or the plan has no placement.
    #[error(transparent)]
    Plan(PlanFault),
    /// The text is that of no kinds of messages.
    #[error(transparent)]
    Kinds(KindsFault),
    /// The text is no trace of runs of the scenario.
    #[error(transparent)]
    Trace(TraceFault),
    /// No ceiling through outages that last so long can be told.
    #[error(transparent)]
    Outage(OutageFault),
    /// It can't be told how far replicas are from the leaders of their groups.
    #[error(transparent)]
    Replicas(ReplicaFault),
    /// The text is that of no workflow.
    #[error(transparent)]
    Workflow(WorkflowFault),
    /// Memory ran out, which says nothing of the input.
    #[error("out of memory")]
    Memory,
}

/// Why a list of numbers is no order of ties. Of several faults the first in the order of these variants
/// is told.
#[derive(Clone, Copy, Debug, PartialEq, Eq, Error)]
pub enum OrderFault {
    /// The scenario's time goes in whole ticks, where ties have no order.
    #[error("in whole ticks ties have no order")]
    InTicks,
    /// The list does not have two ranks for each message at each group that it goes to.
    #[error("the order has not two ranks for each message at each of its groups")]
    Length,
    /// A number is no rank: the first such number, by its place in the list.
    #[error("the order has a number that is no rank: {0}")]
    Rank(usize),
}

/// Why the keys of a text can't be given the values that a sweep is to give them.
#[derive(Clone, Copy, Debug, PartialEq, Eq, Error)]
pub enum SweepCause {
    /// The text has no such key.
    #[error("the text has no such key")]
    UnknownKey,
    /// The key is one of several tables of links.
    #[error("the key is one of several tables of links")]
    SeveralTables,
    /// Windows are asked for, and the key is no time of issue.
    #[error("only a time of issue may be a window")]
    NoIssue,
    /// Durations stand beside numbers of ticks, and the length of a tick is not written.
    #[error("durations and numbers of ticks stand beside each other")]
    MixedTimes,
    /// A value is no whole number of ticks.
    #[error("a value is no whole number of ticks")]
    NotWhole,
    /// A value has more ticks than any time may have, or less than 0.
    #[error("a value is beyond the limits of times")]
    BeyondLimits,
    /// A step is 0.
    #[error("a step is 0")]
    NoStep,
    /// The first value is above the last.
    #[error("the first value is above the last")]
    Backwards,
    /// There are more rows than a sweep may have.
    #[error("there are too many values")]
    TooManyValues,
    /// Windows are asked for, and there is but one value.
    #[error("one value is no window")]
    OneValue,
    /// Both settings are of one key.
    #[error("both settings are of one key")]
    KeyTwice,
    /// With that value of the first key, in ticks, the text is that of no scenario: the first such row.
    #[error("with the value {0} the text is that of no scenario")]
    NoScenario(u32),
}

impl From<AllocError> for Fault {
    ghost use Rattle.std.specs.Prelude.{◌≡◌};
    ghost use Rattle.convoy_commands.specs.declared.fault.Fault.TheVariants.{Memory};

    ghost from_gives = { λ _ fault. fault ≡ Memory };

    fn from(_error: AllocError) -> Self {
        Fault::Memory
    }
}

impl From<ReadFault> for Fault {
    ghost use Rattle.std.specs.Prelude.{◌≡◌};
    ghost use Rattle.convoy_commands.specs.Faults.{told_of_reading};

    ghost from_gives = { λ cause fault. fault ≡ told_of_reading cause };

    fn from(cause: ReadFault) -> Self {
        match cause {
            ReadFault::Memory => Fault::Memory,
            cause => Fault::Reading(cause),
        }
    }
}

impl From<ScenarioFault> for Fault {
    ghost use Rattle.std.specs.Prelude.{◌≡◌};
    ghost use Rattle.convoy_commands.specs.Faults.{told_of};

    ghost from_gives = { λ cause fault. fault ≡ told_of cause };

    fn from(cause: ScenarioFault) -> Self {
        match cause {
            ScenarioFault::Memory => Fault::Memory,
            cause => Fault::Scenario(cause),
        }
    }
}

impl From<RangesFault> for Fault {
    ghost use Rattle.std.specs.Prelude.{◌≡◌};
    ghost use Rattle.convoy_commands.specs.Faults.{told_of_ranges};

    ghost from_gives = { λ cause fault. fault ≡ told_of_ranges cause };

    fn from(cause: RangesFault) -> Self {
        match cause {
            RangesFault::Memory => Fault::Memory,
            cause => Fault::Ranges(cause),
        }
    }
}

impl From<PlanFault> for Fault {
    ghost use Rattle.std.specs.Prelude.{◌≡◌};
    ghost use Rattle.convoy_commands.specs.Faults.{told_of_plan};

    ghost from_gives = { λ cause fault. fault ≡ told_of_plan cause };

    fn from(cause: PlanFault) -> Self {
        match cause {
            PlanFault::Scenario(cause) => Fault::from(cause),
            cause => Fault::Plan(cause),
        }
    }
}

impl From<KindsFault> for Fault {
    ghost use Rattle.std.specs.Prelude.{◌≡◌};
    ghost use Rattle.convoy_commands.specs.Faults.{told_of_kinds};

    ghost from_gives = { λ cause fault. fault ≡ told_of_kinds cause };

    fn from(cause: KindsFault) -> Self {
        match cause {
            KindsFault::Scenario(cause) => Fault::from(cause),
            cause => Fault::Kinds(cause),
        }
    }
}

impl From<TraceFault> for Fault {
    ghost use Rattle.std.specs.Prelude.{◌≡◌};
    ghost use Rattle.convoy_commands.specs.Faults.{told_of_trace};

    ghost from_gives = { λ cause fault. fault ≡ told_of_trace cause };

    fn from(cause: TraceFault) -> Self {
        match cause {
            TraceFault::Memory => Fault::Memory,
            cause => Fault::Trace(cause),
        }
    }
}

impl From<OutageFault> for Fault {
    ghost use Rattle.std.specs.Prelude.{◌≡◌};
    ghost use Rattle.convoy_commands.specs.declared.fault.Fault.TheVariants.{Outage};

    ghost from_gives = { λ cause fault. fault ≡ Outage cause };

    fn from(cause: OutageFault) -> Self {
        Fault::Outage(cause)
    }
}

impl From<ReplicaFault> for Fault {
    ghost use Rattle.std.specs.Prelude.{◌≡◌};
    ghost use Rattle.convoy_commands.specs.declared.fault.Fault.TheVariants.{Replicas};

    ghost from_gives = { λ cause fault. fault ≡ Replicas cause };

    fn from(cause: ReplicaFault) -> Self {
        Fault::Replicas(cause)
    }
}

impl From<WorkflowFault> for Fault {
    ghost use Rattle.std.specs.Prelude.{◌≡◌};
    ghost use Rattle.convoy_commands.specs.Faults.{told_of_workflow};

    ghost from_gives = { λ cause fault. fault ≡ told_of_workflow cause };

    fn from(cause: WorkflowFault) -> Self {
        match cause {
            WorkflowFault::Scenario(cause) => Fault::from(cause),
            cause => Fault::Workflow(cause),
        }
    }
}

impl From<ListFault> for Fault {
    ghost use Rattle.std.specs.Prelude.{◌≡◌};
    ghost use Rattle.convoy_commands.specs.Faults.{told_of_list};

    ghost from_gives = { λ cause fault. fault ≡ told_of_list cause };

    fn from(cause: ListFault) -> Self {
        match cause {
            ListFault::Memory => Fault::Memory,
            cause => Fault::Schedule(cause),
        }
    }
}

/// Why a list of numbers is no order of ties.
pub(crate) fn fault_of_order(cause: ListFault) -> Fault
    ensures { result ≡ told_of_order cause }
{
    match cause {
        ListFault::Length => Fault::Order(OrderFault::Length),
        ListFault::Range(place) => Fault::Order(OrderFault::Rank(place)),
        ListFault::Memory => Fault::Memory,
    }
}

/// What ends a fault's text, after its phrase.
#[derive(Clone, Copy)]
pub enum FaultEnding {
    Word(&'static str),
    Number(usize),
}

/// The end of a phrase that is the whole text.
const NOTHING: FaultEnding = FaultEnding::Word("");

/// Appends the line of a fault: `fault`, its number, its text, and byte 10 (docs/FORMATS.md,
/// "Faults"). Where memory runs out the vector is as it was.
pub fn fault_line(fault: &Fault, out: &mut Vec<u8>) -> Result<(), AllocError>
    ensures ok { OnOk result (out.new.items ≡ out.old.items ++ fault_line_of fault.now) }
    ensures err { OnErr result (out.new.items ≡ out.old.items) }
{
    let line = line_of(*out.allocator(), fault)?;
    out.extend_from_slice(line.as_bytes())
}

fn line_of(alloc: Global, fault: &Fault) -> Result<String, AllocError>
    ensures { IfOk result (λ line. string_bytes line ≡ fault_line_of fault.now) }
{
    let (number, phrase, ending) = fault_row(fault);
    match ending {
        FaultEnding::Word(word) => format!(in alloc; "fault {number} {phrase}{word}\n"),
        FaultEnding::Number(value) => format!(in alloc; "fault {number} {phrase}{value}\n"),
    }
}

/// A fault's number, and its text: a phrase and what ends it (docs/FORMATS.md, "Faults").
pub fn fault_row(fault: &Fault) -> (u8, &'static str, FaultEnding)
    ensures number { result.0 ≡ (row_of fault.now).0 }
    ensures text { result.1.now ++ ending_text result.2 ≡ (row_of fault.now).1 }
    ensures short { (length result.1.now ≤ 64) × IsShortEnding result.2 }
{
    match fault {
        Fault::Scenario(cause) => scenario_row(*cause),
        Fault::Schedule(ListFault::Length) => (12, "schedule length", NOTHING),
        Fault::Schedule(ListFault::Range(packet)) => {
            (13, "delay out of range ", FaultEnding::Number(*packet))
        }
        Fault::Order(OrderFault::InTicks) => (15, "order in ticks", NOTHING),
        Fault::Order(OrderFault::Length) => (16, "order length", NOTHING),
        Fault::Order(OrderFault::Rank(place)) => (
            17,
            "rank out of range ",
            FaultEnding::Number(*place),
        ),
        Fault::Reading(ReadFault::Read) => (40, "read failed", NOTHING),
        Fault::Write => (41, "write failed", NOTHING),
        Fault::Reading(ReadFault::TooLong(_)) => (42, "job too long", NOTHING),
        Fault::TooManyJobs => (43, "too many jobs", NOTHING),
        Fault::Reading(ReadFault::TooManyReads) => (44, "too many reads", NOTHING),
        Fault::Sweep(SweepCause::NoScenario(value)) => (
            46,
            "no scenario with ",
            FaultEnding::Number(*value as usize),
        ),
        Fault::Sweep(cause) => (45, "no sweep ", FaultEnding::Word(word_of_sweep(*cause))),
        Fault::Ranges(cause) => ranges_row(*cause),
        Fault::Plan(cause) => plan_row(*cause),
        Fault::Kinds(cause) => kinds_row(*cause),
        Fault::Trace(cause) => trace_row(*cause),
        Fault::Outage(OutageFault::Unmeasured) => (67, "outage without a length of ticks", NOTHING),
        Fault::Outage(OutageFault::TooLong) => (68, "outage over limit", NOTHING),
        Fault::Replicas(ReplicaFault::Unmeasured) => {
            (69, "accept without a length of ticks", NOTHING)
        }
        Fault::Replicas(ReplicaFault::TooLong) => (70, "accept over limit", NOTHING),
        Fault::Workflow(cause) => workflow_row(*cause),
        Fault::Memory | Fault::Schedule(ListFault::Memory) | Fault::Reading(ReadFault::Memory) => (
            11,
            "out of memory",
            NOTHING,
        ),
    }
}

/// The words for why the keys of a text can't be given values; none for a value that has a row of its own.
fn word_of_sweep(cause: SweepCause) -> &'static str
    ensures word { result.now ≡ sweep_word cause }
    ensures short { length result.now ≤ 64 }
{
    match cause {
        SweepCause::UnknownKey => "unknown key",
        SweepCause::SeveralTables => "several tables",
        SweepCause::NoIssue => "no time of issue",
        SweepCause::MixedTimes => "mixed times",
        SweepCause::NotWhole => "not whole",
        SweepCause::BeyondLimits => "beyond limits",
        SweepCause::NoStep => "no step",
        SweepCause::Backwards => "backwards",
        SweepCause::TooManyValues => "too many values",
        SweepCause::OneValue => "one value",
        SweepCause::KeyTwice => "key twice",
        SweepCause::NoScenario(_) => "",
    }
}

/// The same of a table of round trips.
fn ranges_row(fault: RangesFault) -> (u8, &'static str, FaultEnding)
    ensures number { result.0 ≡ (row_of_ranges fault).0 }
    ensures text { result.1.now ++ ending_text result.2 ≡ (row_of_ranges fault).1 }
    ensures short { (length result.1.now ≤ 64) × IsShortEnding result.2 }
{
    match fault {
        RangesFault::TooLong => (55, "table too long", NOTHING),
        RangesFault::Empty => (55, "no round trip", NOTHING),
        RangesFault::Line(line, cause) => {
            let (number, phrase) = line_row(cause);
            (number, phrase, FaultEnding::Number(line))
        }
        RangesFault::Memory => (11, "out of memory", NOTHING),
    }
}

/// The number of what is wrong with a line of such a table, and the phrase before the line's number.
fn line_row(cause: Cause) -> (u8, &'static str)
    ensures number { result.0 ≡ (row_of_line cause).0 }
    ensures text { result.1.now ≡ (row_of_line cause).1 }
    ensures short { length result.1.now ≤ 64 }
{
    match cause {
        Cause::Header => (55, "unknown header in line "),
        Cause::Cells => (55, "wrong number of cells in line "),
        Cause::TooMany => (55, "too many pairs in line "),
        Cause::Name => (56, "bad name in line "),
        Cause::Time => (57, "no time in line "),
        Cause::Distance => (58, "no distance in line "),
        Cause::Near => (59, "range below a tick in line "),
        Cause::Crossed => (59, "round trip too short in line "),
        Cause::Wide => (59, "range over limit in line "),
    }
}

/// The same of a plan.
fn plan_row(fault: PlanFault) -> (u8, &'static str, FaultEnding)
    ensures number { result.0 ≡ (row_of_plan fault).0 }
    ensures text { result.1.now ++ ending_text result.2 ≡ (row_of_plan fault).1 }
    ensures short { (length result.1.now ≤ 64) × IsShortEnding result.2 }
{
    match fault {
        PlanFault::Scenario(cause) => scenario_row(cause),
        PlanFault::Shape(key) => (2, "shape of ", FaultEnding::Word(key.word())),
        PlanFault::OverLimit(limit) => (
            3,
            "over limit ",
            FaultEnding::Word(word_of_plan_limit(limit)),
        ),
        PlanFault::NoRange => (20, "no range", NOTHING),
        PlanFault::UnknownSite => (47, "unknown site", NOTHING),
        PlanFault::NoSites => (48, "group without sites", NOTHING),
        PlanFault::NoPlace => (49, "message without from", NOTHING),
        PlanFault::NoPlacement => (50, "no placement", NOTHING),
    }
}

fn word_of_plan_limit(limit: PlanLimit) -> &'static str
    ensures word { result.now ≡ plan_limit_word limit }
    ensures short { length result.now ≤ 64 }
{
    match limit {
        PlanLimit::Sites => "sites",
        PlanLimit::Placements => "placements",
    }
}

/// The same of kinds of messages.
fn kinds_row(fault: KindsFault) -> (u8, &'static str, FaultEnding)
    ensures number { result.0 ≡ (row_of_kinds fault).0 }
    ensures text { result.1.now ++ ending_text result.2 ≡ (row_of_kinds fault).1 }
    ensures short { (length result.1.now ≤ 64) × IsShortEnding result.2 }
{
    match fault {
        KindsFault::Scenario(cause) => scenario_row(cause),
        KindsFault::Shape(key) => (2, "shape of ", FaultEnding::Word(key.word())),
        KindsFault::OverLimit(limit) => (
            3,
            "over limit ",
            FaultEnding::Word(word_of_kinds_limit(limit)),
        ),
        KindsFault::NotOneTo => (51, "not one of to and to_any", NOTHING),
        KindsFault::DoubleSender => (52, "double sender", NOTHING),
    }
}

/// The same of a workflow.
fn workflow_row(fault: WorkflowFault) -> (u8, &'static str, FaultEnding)
    ensures number { result.0 ≡ (row_of_workflow fault).0 }
    ensures text { result.1.now ++ ending_text result.2 ≡ (row_of_workflow fault).1 }
    ensures short { (length result.1.now ≤ 64) × IsShortEnding result.2 }
{
    match fault {
        WorkflowFault::Scenario(cause) => scenario_row(cause),
        WorkflowFault::Shape(key) => (2, "shape of ", FaultEnding::Word(key.word())),
        WorkflowFault::OverLimit => (3, "over limit after", NOTHING),
        WorkflowFault::UnknownCause => (71, "unknown cause", NOTHING),
        WorkflowFault::NotAtSender => (72, "cause not at sender", NOTHING),
        WorkflowFault::UnknownOrigin => (73, "unknown origin", NOTHING),
        WorkflowFault::OriginWaits => (74, "origin waits too long", NOTHING),
    }
}

fn word_of_kinds_limit(limit: KindsLimit) -> &'static str
    ensures word { result.now ≡ kinds_limit_word limit }
    ensures short { length result.now ≤ 64 }
{
    match limit {
        KindsLimit::Tables => "tables",
        KindsLimit::Sizes => "to_any",
        KindsLimit::Kinds => "kinds",
    }
}

/// The same of a trace.
fn trace_row(fault: TraceFault) -> (u8, &'static str, FaultEnding)
    ensures number { result.0 ≡ (row_of_trace fault).0 }
    ensures text { result.1.now ++ ending_text result.2 ≡ (row_of_trace fault).1 }
    ensures short { (length result.1.now ≤ 64) × IsShortEnding result.2 }
{
    match fault {
        TraceFault::Empty => (60, "empty trace", NOTHING),
        TraceFault::Line(line, cause) => {
            let (number, phrase) = trace_line_row(cause);
            (number, phrase, FaultEnding::Number(line))
        }
        TraceFault::TooFine(parts) => (
            63,
            "times finer than 1/",
            FaultEnding::Number(usize::from(parts)),
        ),
        TraceFault::NoPacket => (65, "no packet", NOTHING),
        TraceFault::Memory => (11, "out of memory", NOTHING),
    }
}

/// The number of what is wrong with a line of a trace, and the phrase before the line's number.
fn trace_line_row(cause: TraceCause) -> (u8, &'static str)
    ensures number { result.0 ≡ (row_of_trace_line cause).0 }
    ensures text { result.1.now ≡ (row_of_trace_line cause).1 }
    ensures short { length result.1.now ≤ 64 }
{
    match cause {
        TraceCause::Header => (60, "unknown header in line "),
        TraceCause::Cells => (60, "wrong number of cells in line "),
        TraceCause::Text => (60, "not UTF-8 in line "),
        TraceCause::Object => (60, "no object in line "),
        TraceCause::Event => (61, "unknown event in line "),
        TraceCause::Message => (61, "unknown message in line "),
        TraceCause::Group => (61, "unknown group in line "),
        TraceCause::Elsewhere => (61, "group not addressed in line "),
        TraceCause::From => (61, "no proposer in line "),
        TraceCause::Time => (62, "no time in line "),
        TraceCause::Stamp => (62, "no stamp in line "),
        TraceCause::Twice => (62, "event told twice in line "),
        TraceCause::Late => (63, "time over limit in line "),
        TraceCause::Name => (64, "no name in line "),
        TraceCause::Early => (65, "came before it was sent in line "),
        TraceCause::TooMany => (66, "too many links in line "),
        TraceCause::Wide => (66, "range over limit in line "),
    }
}

/// The same of a fault of the scenario, in a text of its own or in a certificate.
pub(crate) fn scenario_row(fault: ScenarioFault) -> (u8, &'static str, FaultEnding)
    ensures number { result.0 ≡ (row_of_scenario fault).0 }
    ensures text { result.1.now ++ ending_text result.2 ≡ (row_of_scenario fault).1 }
    ensures short { (length result.1.now ≤ 64) × IsShortEnding result.2 }
{
    match fault {
        ScenarioFault::NotToml => (1, "not TOML", NOTHING),
        ScenarioFault::Shape(key) => (2, "shape of ", FaultEnding::Word(key.word())),
        ScenarioFault::NotWhole(key) => (18, "not whole ", FaultEnding::Word(key.word())),
        ScenarioFault::OverLimit(limit) => (
            3,
            "over limit ",
            FaultEnding::Word(word_of_limit(limit)),
        ),
        ScenarioFault::BadName => (4, "bad name", NOTHING),
        ScenarioFault::DoubleName => (5, "double name", NOTHING),
        ScenarioFault::UnknownGroup => (6, "unknown group", NOTHING),
        ScenarioFault::NoDestination => (7, "no destination", NOTHING),
        ScenarioFault::DoubleDestination => (8, "double destination", NOTHING),
        ScenarioFault::UnknownTarget => (9, "unknown target", NOTHING),
        ScenarioFault::TargetNotAddressed => (10, "target not addressed", NOTHING),
        ScenarioFault::NoRange => (20, "no range", NOTHING),
        ScenarioFault::Memory => (11, "out of memory", NOTHING),
    }
}

fn word_of_limit(limit: Limit) -> &'static str
    ensures { result.now ≡ limit_word limit }
{
    match limit {
        Limit::Delay => "delay",
        Limit::Least => "least",
        Limit::Groups => "groups",
        Limit::Places => "places",
        Limit::Multicasts => "multicasts",
        Limit::At => "at",
        Limit::Until => "until",
        Limit::Link => "link",
        Limit::Agree => "agree",
        Limit::Tick => "tick",
    }
}
