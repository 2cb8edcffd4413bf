ghost use Rattle.std.specs.Prelude.{◌≡◌, Ok, IfOk, option_map};
ghost use Rattle.std.specs.Result.{result_map_both};
ghost use Rattle.toml.specs.View.{table_view};
ghost use Rattle.convoy_draft.specs.declared.fault.ScenarioFault.TheVariants.{Memory};
ghost use Rattle.convoy_scenario.specs.Memory.{IsUnlessMemory};
ghost use Rattle.convoy_toml.specs.Reading.{acceptances_of_text, accepts_by_text, deadlines_of_text, input_of_written, scenario_of_written, table_of_text, input_of_text, input_of_text_by, input_read, outage_in, outage_of_text, scenario_of_text, scenario_of_text_by, scenario_read, shares_of_text, unit_written};
ghost use Rattle.convoy_toml.specs.Deadlines.{deadlines_of_written};
ghost use Rattle.convoy_toml.specs.Reading.{as_written};

use super::around::asked_around;
use super::asked::Asked;
use super::deadlines::deadlines_of_written;
use super::durations::{outage_of_table, time_of_table, unit_of_table};
use super::group_tables::{acceptances_of_table, accepts_by_table};
use super::input::Input;
use super::outside::{LinkShare, shares_of_table};
use super::placed::Placed;
use super::plain::plain_number;
use super::slow::written_of_table;
use super::times::draft_of_written;
use super::ways::has_ranges;
use super::written::{WrittenAcceptance, WrittenInput, WrittenScenario, WrittenTime};
use convoy_scenario::{Scenario, ScenarioFault, TimeUnit};
use std::alloc::{AllocError, Global};
use toml::Table;

/// Reads a scenario text, which is TOML (docs/FORMATS.md, "Scenario text").
///
/// Of a faulty text the first fault is told, in the order of `ScenarioFault`; where memory runs out,
/// `ScenarioFault::Memory` is the answer, and says nothing of the text. Times that are written as
/// durations are given in ticks of the scenario's length, and none is rounded. The members of
/// `schedule` and of `order` are given as they are written: whether they are delays of the scenario's
/// packets, and ranks of its moments, is not asked here.
pub fn read_toml(alloc: Global, text: &[u8]) -> Result<Input, ScenarioFault>
    ensures scenario { IsUnlessMemory Memory (scenario_of_text text.now) (scenario_read result) }
    ensures input { IsUnlessMemory Memory (input_of_text text.now) (input_read result) }
    ensures read { IfOk result (λ input. scenario_of_text text.now ≡ Ok input.scenario) }
    ensures unit { IfOk result (λ input. input.unit ≡ unit_written text.now) }
    ensures deadlines { IfOk result (λ input. input.deadlines.items ≡ deadlines_of_text as_written text.now) }
    ensures shares { IfOk result (λ input. input.shares.items ≡ shares_of_text text.now) }
    ensures given { IfOk result (λ input. input_of_text text.now
        ≡ Ok (record { scenario = input.scenario; schedule = option_map (λ delays. delays.items) input.schedule; order = option_map (λ ranks. ranks.items) input.order })) }
{
    let input = read_toml_placed(alloc, text, &Asked::as_written())?;
    Ok(input)
}

/// Reads a scenario text as [`read_toml`] does, where something is asked beside it.
///
/// Where the target may be left out and the table `target` is absent, the scenario asks of its first message at the
/// first group that this goes to; a text that has it is read as by [`read_toml`] (`text_laws::targets_may_be_said`).
/// A target that is named takes the place of the text's. A deadline that is asked is that of each message that has none.
/// Where all is asked around the target, the scenario is the one around it ([`asked_around`]).
pub fn read_toml_asked(alloc: Global, text: &[u8], asked: &Asked) -> Result<Input, ScenarioFault>
    ensures scenario { IsUnlessMemory Memory (scenario_of_text_by asked.now text.now) (scenario_read result) }
    ensures input { IsUnlessMemory Memory (input_of_text_by asked.now text.now) (input_read result) }
    ensures read { IfOk result (λ input. scenario_of_text_by asked.now text.now ≡ Ok input.scenario) }
    ensures unit { IfOk result (λ input. input.unit ≡ unit_written text.now) }
    ensures deadlines { IfOk result (λ input. input.deadlines.items ≡ deadlines_of_text asked.now text.now) }
    ensures shares { IfOk result (λ input. input.shares.items ≡ shares_of_text text.now) }
    ensures given { IfOk result (λ input. input_of_text_by asked.now text.now
        ≡ Ok (record { scenario = input.scenario; schedule = option_map (λ delays. delays.items) input.schedule; order = option_map (λ ranks. ranks.items) input.order })) }
{
    let input = read_toml_placed(alloc, text, asked)?;
    Ok(input)
}

/// Reads a scenario text as [`read_toml_asked`] does, and tells of a fault also which table it is of.
fn read_toml_placed(alloc: Global, text: &[u8], asked: &Asked) -> Result<Input, Placed>
    ensures scenario { IsUnlessMemory Memory (scenario_of_text_by asked.now text.now) (scenario_read result) }
    ensures input { IsUnlessMemory Memory (input_of_text_by asked.now text.now) (input_read result) }
    ensures read { IfOk result (λ input. scenario_of_text_by asked.now text.now ≡ Ok input.scenario) }
    ensures unit { IfOk result (λ input. input.unit ≡ unit_written text.now) }
    ensures deadlines { IfOk result (λ input. input.deadlines.items ≡ deadlines_of_text asked.now text.now) }
    ensures shares { IfOk result (λ input. input.shares.items ≡ shares_of_text text.now) }
    ensures given { IfOk result (λ input. input_of_text_by asked.now text.now
        ≡ Ok (record { scenario = input.scenario; schedule = option_map (λ delays. delays.items) input.schedule; order = option_map (λ ranks. ranks.items) input.order })) }
{
    let table = read_table(alloc, text)?;
    let unit = unit_of_table(&table);
    let shares = shares_of_table(alloc, &table)?;
    let written = written_of_table(alloc, &table, asked)?;
    input_of_written(alloc, asked, unit, shares, written)
}

/// How long the outages last in all through which latencies of a scenario text are told as well, as its key `outage` says
/// (docs/FORMATS.md, "Scenario text"); none where the key is absent, or the text is at fault there. Fails where memory runs
/// out, and else never.
pub fn outage_of_text(alloc: Global, text: &[u8]) -> Result<Option<WrittenTime>, AllocError>
    ensures { IfOk result (λ outage. outage ≡ outage_of_text text.now) }
{
    match read_table(alloc, text) {
        Ok(table) => Ok(outage_in(&table)),
        Err(ScenarioFault::Memory) => Err(AllocError),
        Err(_) => Ok(None),
    }
}

/// The groups of a scenario text that are replicated by white box, and how far their replicas are, as its tables of groups say
/// (docs/FORMATS.md, "Groups replicated by white box"); none where they say nothing of that, or the text is at fault
/// there. Fails where memory runs out, and else never.
pub fn acceptances_of_text(alloc: Global, text: &[u8]) -> Result<Vec<WrittenAcceptance>, AllocError>
    ensures { IfOk result (λ acceptances. acceptances.items ≡ acceptances_of_text text.now) }
{
    match read_table(alloc, text) {
        Ok(table) => acceptances_of_table(alloc, &table),
        Err(ScenarioFault::Memory) => Err(AllocError),
        Err(_) => Ok(Vec::new(alloc)),
    }
}

/// Whether a table of groups of a scenario text says that they are replicated by white box, faulty or not
/// (docs/FORMATS.md, "Groups replicated by white box"). Fails where memory runs out, and else never.
pub fn accepts_by_text(alloc: Global, text: &[u8]) -> Result<bool, AllocError>
    ensures { IfOk result (λ accepts. accepts ≡ accepts_by_text text.now) }
{
    match read_table(alloc, text) {
        Ok(table) => accepts_by_table(alloc, &table),
        Err(ScenarioFault::Memory) => Err(AllocError),
        Err(_) => Ok(false),
    }
}

/// How long outages last by the table of a text.
fn outage_in(table: &Table) -> Option<WrittenTime>
    ensures { result ≡ outage_in (table_view table.now) }
{
    let time = time_of_table(table).ok()?;
    outage_of_table(table, time).ok()?
}

/// What is given where this is written (docs/FORMATS.md, "How faults are found"), with the unit in which D is, and the
/// shares of packets.
fn input_of_written(
    alloc: Global,
    asked: &Asked,
    unit: Option<TimeUnit>,
    shares: Vec<LinkShare>,
    written: WrittenInput,
) -> Result<Input, Placed>
    ensures input { IsUnlessMemory Memory (input_of_written asked.now written) (input_read result) }
    ensures unit { IfOk result (λ input. input.unit ≡ unit) }
    ensures shares { IfOk result (λ input. input.shares ≡ shares) }
    ensures deadlines { IfOk result (λ input.
        deadlines_of_written asked.now.at_most written.scenario ≡ Ok input.deadlines.items) }
    ensures given { IfOk result (λ input. input_of_written asked.now written
        ≡ Ok (record { scenario = input.scenario; schedule = option_map (λ delays. delays.items) input.schedule; order = option_map (λ ranks. ranks.items) input.order })) }
{
    let WrittenInput {
        scenario: written,
        schedule,
        order,
    } = written;
    let scenario = scenario_of_written(alloc, &written)?;
    let deadlines = deadlines_of_written(alloc, asked.at_most, &written)?;
    let scenario = asked_around(alloc, scenario, asked.around)?;
    Ok(Input {
        scenario,
        schedule,
        order,
        deadlines,
        shares,
        unit,
        plain: plain_number(&written),
    })
}

/// The scenario of what is written, in which a packet that travels has a range that is written, where time is real: of what
/// is faulty the first fault, in the order of `ScenarioFault`, after those of its shape; and `ScenarioFault::Memory` where
/// memory runs out.
pub fn scenario_of_written(alloc: Global, written: &WrittenScenario) -> Result<Scenario, Placed>
    ensures { IsUnlessMemory Memory (scenario_of_written written.now) result }
{
    let draft = draft_of_written(alloc, written)?;
    let has_ranges = has_ranges(alloc, written.least.is_some(), &draft)?;
    let scenario = Scenario::from_draft(alloc, draft)?;
    if has_ranges {
        Ok(scenario)
    } else {
        Err(Placed::from(ScenarioFault::NoRange))
    }
}

/// The table of a scenario text, or `ScenarioFault::NotToml` where it is none.
pub fn read_table(alloc: Global, text: &[u8]) -> Result<Table, ScenarioFault>
    ensures { IsUnlessMemory Memory (table_of_text text.now)
        (result_map_both table_view (λ fault. fault) result) }
{
    match toml::table_from_slice(alloc, text) {
        Ok(table) => Ok(table),
        Err(error) => {
            if error.is_memory() {
                Err(ScenarioFault::Memory)
            } else {
                Err(ScenarioFault::NotToml)
            }
        }
    }
}
