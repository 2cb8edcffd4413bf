ghost use Rattle.std.specs.Prelude.{◌≡◌, is_some, map, Ok, IfOk};
ghost use Rattle.convoy_draft.specs.declared.fault.ScenarioFault.TheVariants.{Memory};
ghost use Rattle.convoy_scenario.specs.Memory.{IsUnlessMemory};
ghost use Rattle.convoy_toml.specs.Deadlines.{deadlines_of_written};
ghost use Rattle.convoy_toml.specs.Reading.{shares_of_text, unit_written};
ghost use Rattle.convoy_toml.specs.Times.{draft_of_written};
ghost use Rattle.convoy_toml.specs.Ways.{has_ranges};
ghost use Rattle.convoy_workflow_words.specs.declared.fault.WorkflowFault.TheVariants as workflow;
ghost use Rattle.convoy_workflows.specs.Reading.{counting_from, deadlines_of_workflow, need_own_windows, scenario_with_ranges, view_of, workflow_of_text, workflow_of_written, workflow_read};
ghost use Rattle.convoy_workflows.specs.Rules.{cause_of};
ghost use Rattle.convoy_workflows.specs.Shape.{listed, of_scenario};
ghost use Rattle.convoy_workflows.specs.Windows.{in_windows};
ghost use Rattle.convoy_workflows.specs.Workflows.{IsWorkflow};

use super::origins::origin_of;
use super::plain::plain_number;
use super::rules::{causes_of, checked_causes};
use super::shape::written_of_table;
use super::shares::shares_of_table;
use super::windows::in_windows;
use super::workflow::Workflow;
use super::written::{DraftCause, WrittenCause, WrittenWorkflow};
use convoy_scenario::{DraftScenario, Key, Name, Scenario, ScenarioFault, Time, TimeUnit};
use convoy_toml::{
    Around, Asked, LinkShare, WrittenScenario, WrittenTime, deadlines_of_written, draft_of_written,
    read_table, unit_of_table, ways_without_link,
};
use convoy_workflow_words::WorkflowFault;
use std::alloc::{AllocError, Global};

/// Reads a workflow text, which is TOML (docs/FORMATS.md, "Workflow text"), where something is asked beside it.
///
/// Of a faulty text the first fault is told: of its shape, of its times, of what messages follow, of the scenario in which
/// each message that follows another may be issued as soon, and as late, as it may follow that, of its deadlines, and then of
/// the message from whose issue the time counts; where memory runs out, `ScenarioFault::Memory` is the answer, and says
/// nothing of the text. A target that is asked takes the place of the text's, and its time counts from its own issue. Nothing
/// may be asked around the target: the fault is then `ScenarioFault::Shape(Key::Until)`.
pub fn read_workflow(alloc: Global, text: &[u8], asked: &Asked) -> Result<Workflow, WorkflowFault>
    ensures value { IsUnlessMemory (workflow.Scenario Memory) (workflow_of_text asked.now text.now) (workflow_read result) }
    ensures lawful { IfOk result (λ read. IsWorkflow (view_of read)) }
    ensures unit { IfOk result (λ read. read.unit ≡ unit_written text.now) }
    ensures shares { IfOk result (λ read. read.shares.items ≡ shares_of_text text.now) }
    ensures deadlines { IfOk result (λ read. read.deadlines.items ≡ deadlines_of_workflow asked.now text.now) }
{
    read_text(alloc, text, asked)
}

/// The workflow of a text.
fn read_text(alloc: Global, text: &[u8], asked: &Asked) -> Result<Workflow, WorkflowFault>
    ensures value { IsUnlessMemory (workflow.Scenario Memory) (workflow_of_text asked.now text.now) (workflow_read result) }
    ensures unit { IfOk result (λ read. read.unit ≡ unit_written text.now) }
    ensures shares { IfOk result (λ read. read.shares.items ≡ shares_of_text text.now) }
    ensures deadlines { IfOk result (λ read. read.deadlines.items ≡ deadlines_of_workflow asked.now text.now) }
{
    let table = read_table(alloc, text)?;
    let unit = unit_of_table(&table);
    let shares = shares_of_table(alloc, &table)?;
    let written = written_of_table(alloc, &table, &asked.target)?;
    workflow_of_written(alloc, asked, unit, shares, written)
}

/// The workflow of what is written, with the unit in which D is.
fn workflow_of_written(
    alloc: Global,
    asked: &Asked,
    unit: Option<TimeUnit>,
    shares: Vec<LinkShare>,
    written: WrittenWorkflow,
) -> Result<Workflow, WorkflowFault>
    ensures value { IsUnlessMemory (workflow.Scenario Memory) (workflow_of_written asked.now written) (workflow_read result) }
    ensures unit { IfOk result (λ read. read.unit ≡ unit) }
    ensures shares { IfOk result (λ read. read.shares ≡ shares) }
    ensures deadlines { IfOk result (λ read.
        of_scenario (deadlines_of_written asked.now.at_most written.scenario) ≡ Ok read.deadlines.items) }
{
    workflow_of_parts(
        alloc,
        asked,
        unit,
        shares,
        &written.scenario,
        &written.causes,
        &written.origin,
    )
}

/// The workflow of this scenario as it is written, in which messages follow these, where the time counts from the issue of
/// the message of that name.
fn workflow_of_parts(
    alloc: Global,
    asked: &Asked,
    unit: Option<TimeUnit>,
    shares: Vec<LinkShare>,
    written: &WrittenScenario,
    causes: &[Option<WrittenCause>],
    origin: &Option<Name>,
) -> Result<Workflow, WorkflowFault>
    ensures value { IsUnlessMemory (workflow.Scenario Memory)
        (workflow_of_written asked.now (record { scenario = written.now; causes = causes.now; origin = origin.now })) (workflow_read result) }
    ensures unit { IfOk result (λ read. read.unit ≡ unit) }
    ensures shares { IfOk result (λ read. read.shares ≡ shares) }
    ensures deadlines { IfOk result (λ read.
        of_scenario (deadlines_of_written asked.now.at_most written.now) ≡ Ok read.deadlines.items) }
{
    need_own_windows(asked.around)?;
    let draft = draft_in(alloc, written)?;
    let drafted = checked_causes(alloc, &draft, causes)?;
    let scenario = scenario_in_windows(alloc, written, &drafted, draft)?;
    let deadlines = deadlines_in(alloc, asked.at_most, written)?;
    counting_from(
        alloc, scenario, &drafted, written, origin, deadlines, unit, shares,
    )
}

/// The workflow of this scenario, which is written so and in which messages follow these, where the time counts from the issue of the message of
/// that name.
fn counting_from(
    alloc: Global,
    scenario: Scenario,
    drafted: &[DraftCause],
    written: &WrittenScenario,
    origin: &Option<Name>,
    deadlines: Vec<Option<u32>>,
    unit: Option<TimeUnit>,
    shares: Vec<LinkShare>,
) -> Result<Workflow, WorkflowFault>
    ensures value { IsUnlessMemory (workflow.Scenario Memory)
        (counting_from scenario (map cause_of drafted.now) written.now.messages origin.now) (workflow_read result) }
    ensures unit { IfOk result (λ read. read.unit ≡ unit) }
    ensures shares { IfOk result (λ read. read.shares ≡ shares) }
    ensures deadlines { IfOk result (λ read. read.deadlines ≡ deadlines) }
{
    let causes = causes_of(alloc, drafted)?;
    let origin = origin_of(&scenario, &causes, &written.multicasts, origin)?;
    Ok(Workflow {
        scenario,
        causes,
        origin,
        deadlines,
        shares,
        unit,
        plain: plain_number(written),
    })
}

/// The scenario of a draft in which each message has its window, where messages follow these.
fn scenario_in_windows(
    alloc: Global,
    written: &WrittenScenario,
    causes: &[DraftCause],
    draft: DraftScenario,
) -> Result<Scenario, WorkflowFault>
    ensures { IsUnlessMemory (workflow.Scenario Memory)
        (of_scenario (scenario_with_ranges (is_some written.now.least) (in_windows causes.now draft))) result }
{
    let within = in_windows(alloc, causes, draft)?;
    scenario_with_ranges(alloc, has_least(written), within)
}

/// Whether a least delay of what goes by no link is written.
fn has_least(written: &WrittenScenario) -> bool
    ensures { result ≡ is_some written.now.least }
{
    written.least.is_some()
}

/// Nothing may be asked around the target.
fn need_own_windows(around: Option<Around>) -> Result<(), WorkflowFault>
    ensures { result ≡ need_own_windows around }
{
    match around {
        Some(_) => Err(WorkflowFault::Scenario(ScenarioFault::Shape(Key::Until))),
        None => Ok(()),
    }
}

/// What is written in ticks, where the times of a message that follows another count from that.
fn draft_in(alloc: Global, written: &WrittenScenario) -> Result<DraftScenario, WorkflowFault>
    ensures { IsUnlessMemory (workflow.Scenario Memory) (of_scenario (draft_of_written written.now)) result }
{
    match draft_of_written(alloc, written) {
        Ok(draft) => Ok(draft),
        Err(placed) => Err(WorkflowFault::from(ScenarioFault::from(placed))),
    }
}

/// Whether each packet that travels has a range that is written, where time is real.
fn has_ranges(alloc: Global, has_least: bool, draft: &DraftScenario) -> Result<bool, AllocError>
    ensures { IfOk result (λ has. has ≡ has_ranges has_least draft.now) }
{
    match draft.time {
        Time::Ticks => Ok(true),
        Time::Real if has_least => Ok(true),
        Time::Real => Ok(ways_without_link(alloc, draft)?.is_empty()),
    }
}

/// The scenario of a draft, in which a packet that travels has a range that is written, where time is real.
fn scenario_with_ranges(
    alloc: Global,
    has_least: bool,
    draft: DraftScenario,
) -> Result<Scenario, WorkflowFault>
    ensures { IsUnlessMemory (workflow.Scenario Memory) (of_scenario (scenario_with_ranges has_least draft)) result }
{
    let has_ranges = has_ranges(alloc, has_least, &draft)?;
    let scenario = Scenario::from_draft(alloc, draft)?;
    if has_ranges {
        Ok(scenario)
    } else {
        Err(WorkflowFault::Scenario(ScenarioFault::NoRange))
    }
}

/// The deadlines of the messages, in ticks.
fn deadlines_in(
    alloc: Global,
    at_most: Option<WrittenTime>,
    written: &WrittenScenario,
) -> Result<Vec<Option<u32>>, WorkflowFault>
    ensures { IsUnlessMemory (workflow.Scenario Memory)
        (of_scenario (deadlines_of_written at_most written.now)) (listed result) }
{
    match deadlines_of_written(alloc, at_most, written) {
        Ok(deadlines) => Ok(deadlines),
        Err(placed) => Err(WorkflowFault::from(ScenarioFault::from(placed))),
    }
}
