//! The links of a trace beside the ranges of a scenario.

ghost use Rattle.std.specs.Prelude.{◌≡◌, ◌∷◌, [], ◌++◌, ◌*◌, ◌≤◌, List, ℕ, Bool, IfOk, OnOk, map, nat_lt, ◌||◌, Result, Ok, Err, Vec};
ghost use Rattle.std.specs.List.{list_any};
ghost use Rattle.std.specs.Option.{option_map};
ghost use Rattle.std.specs.Result.{result_map_both};
ghost use Rattle.convoy_scenario.specs.Memory.{IsUnlessMemory};
ghost use Rattle.convoy_scenario.specs.declared.sender.Sender.TheVariants.{Client};
ghost use Rattle.convoy_traces.specs.Rows.{numbered};
ghost use Rattle.convoy_traces.specs.declared.fault.TraceFault.TheVariants.{Memory};
ghost use Rattle.convoy_trace_ranges.specs.Beside.{beside_told, columns, count_above, count_below, is_known, is_left, is_link_left, known_cells, unknown_cells, range_by, range_cells, row_of, sender_named, table_of, told_by, links_beside, as_told, unit_by, unit_cell};

use super::cells::{place_word, push_ticks, push_time};
use super::links::{Link, links_of_text};
use convoy_draft::{Duration, TimeUnit};
use convoy_scenario::{Scenario, Sender};
use convoy_tables::{Format, Row, Table, table_text};
use convoy_times::Measure;
use convoy_traces::{TraceFault, group_numbered, place_numbered};
use std::alloc::{AllocError, Global};

/// The sender of that name, where the scenario has it: a group, or a client at the place of that name; a client of no
/// named place has none.
fn sender_named(scenario: &Scenario, from: &str) -> Option<Sender>
    ensures { result ≡ sender_named scenario.now from.now }
{
    if from.is_empty() {
        return Some(Sender::Client(0));
    }
    match group_numbered(scenario, from.as_bytes()) {
        Some(group) => Some(Sender::Group(group)),
        None => client_named(scenario, from),
    }
}

/// A client at the place of that name, where the scenario has it.
fn client_named(scenario: &Scenario, from: &str) -> Option<Sender>
    ensures { result ≡ option_map Client (numbered 1 scenario.now.places from.now) }
{
    let place = place_numbered(scenario, from.as_bytes())?;
    Some(Sender::Client(place))
}

/// The range of a link in ticks, where the scenario has both its ends.
fn range_by(scenario: &Scenario, link: &Link) -> Option<(u16, u16)>
    ensures { result ≡ range_by scenario.now link.now }
{
    let sender = sender_named(scenario, link.from().as_str())?;
    let to = group_numbered(scenario, link.to().as_str().as_bytes())?;
    Some(scenario.range_between(sender, to))
}

/// So many ticks of such a length, in nanoseconds.
fn lasting(ticks: u16, tick: Duration) -> u128
    ensures { result ≡ ticks * tick }
{
    u128::from(ticks) * u128::from(tick.nanoseconds())
}

/// How many packets took less than so many nanoseconds.
fn count_below(least: u128, delays: &[u64]) -> usize
    ensures { result ≡ count_below least delays.now }
{
    delays
        .iter()
        .filter(|delay| u128::from(**delay) < least)
        .count()
}

/// How many packets took more than so many nanoseconds.
fn count_above(most: u128, delays: &[u64]) -> usize
    ensures { result ≡ count_above most delays.now }
{
    delays
        .iter()
        .filter(|delay| most < u128::from(**delay))
        .count()
}

/// The length of a tick as which a second is told.
fn one_second() -> Duration
    ensures { result ≡ 1000000000 }
{
    match Duration::from_nanoseconds(1_000_000_000) {
        Some(second) => second,
        None => unreachable!(),
    }
}

/// How times are told: where the length of a tick is not known, as if it were a second.
fn told_by(measure: &Option<Measure>) -> Measure
    ensures { result ≡ told_by measure.now }
{
    match measure {
        Some(measure) => *measure,
        None => Measure {
            tick: one_second(),
            unit: TimeUnit::Seconds,
        },
    }
}

/// The unit of numbers that have none, where the length of a tick is known.
fn unit_by(measure: &Option<Measure>) -> Option<TimeUnit>
    ensures { result ≡ unit_by measure.now }
{
    match measure {
        Some(measure) => Some(measure.unit),
        None => None,
    }
}

/// Whether there is a packet below a range, or above it.
fn is_some_out(below: usize, above: usize) -> bool
    ensures { result ≡ (nat_lt 0 below || nat_lt 0 above) }
{
    below > 0 || above > 0
}

/// Whether a packet was out of the range.
fn is_left(told: &Measure, range: Option<(u16, u16)>, delays: &[u64]) -> bool
    ensures { result ≡ is_left told.now.tick range delays.now }
{
    match range {
        Some((least, most)) => is_some_out(
            count_below(lasting(least, told.tick), delays),
            count_above(lasting(most, told.tick), delays),
        ),
        None => false,
    }
}

/// Puts how many packets were below a range and above it at the end of a row, and the ends of the range.
#[tactic(auto, using(std::proofs::lemmas::List::append_assoc))]
fn push_known(
    alloc: Global,
    told: &Measure,
    least: u16,
    most: u16,
    delays: &[u64],
    cells: &mut Row,
) -> Result<(), AllocError>
    ensures { OnOk result (cells.new ≡ cells.old ++ known_cells told.now least most delays.now) }
{
    cells.push_number(count_below(lasting(least, told.tick), delays) as u64)?;
    cells.push_number(count_above(lasting(most, told.tick), delays) as u64)?;
    push_ticks(alloc, *told, u32::from(least), cells)?;
    push_ticks(alloc, *told, u32::from(most), cells)
}

/// Puts nothing there.
#[tactic(auto, using(std::proofs::lemmas::List::append_assoc))]
fn push_unknown(cells: &mut Row) -> Result<(), AllocError>
    ensures { OnOk result (cells.new ≡ cells.old ++ unknown_cells) }
{
    cells.push_nothing()?;
    cells.push_nothing()?;
    cells.push_nothing()?;
    cells.push_nothing()
}

/// Puts the cells of a range at the end of a row.
fn push_range(
    alloc: Global,
    told: &Measure,
    range: Option<(u16, u16)>,
    delays: &[u64],
    cells: &mut Row,
) -> Result<(), AllocError>
    ensures { OnOk result (cells.new ≡ cells.old ++ range_cells told.now range delays.now) }
{
    match range {
        Some((least, most)) => push_known(alloc, told, least, most, delays, cells),
        None => push_unknown(cells),
    }
}

/// Puts the unit in which times are told at the end of a row; ticks have none.
fn push_unit(measure: &Option<Measure>, cells: &mut Row) -> Result<(), AllocError>
    ensures { OnOk result (cells.new ≡ cells.old ++ unit_cell measure.now ∷ []) }
{
    match measure {
        Some(measure) => cells.push_word(measure.unit.word()),
        None => cells.push_nothing(),
    }
}

/// The row of a link.
fn row_of(
    alloc: Global,
    measure: &Option<Measure>,
    scenario: &Scenario,
    link: &Link,
) -> Result<Row, AllocError>
    ensures { IfOk result (λ row. row ≡ row_of measure.now scenario.now link.now) }
{
    let told = told_by(measure);
    let mut cells = Row::new(alloc);
    cells.push_word(place_word(link))?;
    cells.push_word(link.to().as_str())?;
    cells.push_number(link.delays().len() as u64)?;
    push_range(
        alloc,
        &told,
        range_by(scenario, link),
        link.delays(),
        &mut cells,
    )?;
    push_time(alloc, told.unit, link.least(), &mut cells)?;
    push_time(alloc, told.unit, link.greatest(), &mut cells)?;
    push_unit(measure, &mut cells)?;
    Ok(cells)
}

/// The names of the columns.
fn columns_of(alloc: Global) -> Result<Row, AllocError>
    ensures { IfOk result (λ row. row ≡ columns) }
{
    let mut names = Row::new(alloc);
    names.push_words(&[
        "from",
        "to",
        "packets",
        "below",
        "above",
        "least",
        "most",
        "least_seen",
        "most_seen",
        "unit",
    ])?;
    Ok(names)
}

/// Puts the rows of links at the end of a table.
fn push_rows(
    alloc: Global,
    measure: &Option<Measure>,
    scenario: &Scenario,
    links: &[Link],
    table: &mut Table,
) -> Result<(), AllocError>
    ensures { OnOk result (table.new ≡ record table.old {
      rows = table.old.rows ++ map (row_of measure.now scenario.now) links.now;
    }) }
{
    for link in links {
        table.push(row_of(alloc, measure, scenario, link)?)?;
    }
    Ok(())
}

/// The table of links.
fn table_of(
    alloc: Global,
    measure: &Option<Measure>,
    scenario: &Scenario,
    links: &[Link],
) -> Result<Table, AllocError>
    ensures { IfOk result (λ table. table ≡ table_of measure.now scenario.now links.now) }
{
    let mut table = Table::new(alloc, columns_of(alloc)?);
    push_rows(alloc, measure, scenario, links, &mut table)?;
    Ok(table)
}

/// Whether the scenario has both ends of the link.
fn is_known(scenario: &Scenario, link: &Link) -> bool
    ensures { result ≡ is_known scenario.now link.now }
{
    range_by(scenario, link).is_some()
}

/// Whether some link is one of the scenario.
fn is_some_known(scenario: &Scenario, links: &[Link]) -> bool
    ensures { result ≡ list_any (is_known scenario.now) links.now }
{
    links.iter().any(|link| is_known(scenario, link))
}

/// Whether a packet of the link was out of its range.
fn is_link_left(measure: &Option<Measure>, scenario: &Scenario, link: &Link) -> bool
    ensures { result ≡ is_link_left measure.now scenario.now link.now }
{
    is_left(&told_by(measure), range_by(scenario, link), link.delays())
}

/// Whether a packet of some link was out of its range.
fn is_some_left(measure: &Option<Measure>, scenario: &Scenario, links: &[Link]) -> bool
    ensures { result ≡ list_any (is_link_left measure.now scenario.now) links.now }
{
    links
        .iter()
        .any(|link| is_link_left(measure, scenario, link))
}

/// The links of a trace of which the scenario has one at least.
fn links_beside(
    alloc: Global,
    measure: &Option<Measure>,
    scenario: &Scenario,
    text: &[u8],
) -> Result<Vec<Link>, TraceFault>
    ensures { IsUnlessMemory Memory (links_beside measure.now scenario.now text.now)
        (result_map_both (λ links. links.items) (λ fault. fault) result) }
{
    let links = links_of_text(alloc, unit_by(measure), text)?;
    if is_some_known(scenario, &links) {
        Ok(links)
    } else {
        Err(TraceFault::NoPacket)
    }
}

/// Whether a packet of a trace was out of the range that the scenario gives its link, and a table of the links in that
/// format: how many packets were below the range and above it, the range, and what packets took at least and at most
/// (docs/FORMATS.md, "What `ranges` writes"). Times are told in the unit that is asked for, or else in that of D, and
/// compared exactly; numbers without a unit in the trace are of that unit, or of ticks where it is not known how long a
/// tick is.
///
/// The faults are those of [`links_of_text`], and `TraceFault::NoPacket` also where no link of the trace is one of the
/// scenario.
#[tactic(auto, unfolding(crate::specs::Beside::beside_told))]
pub fn beside_answer(
    alloc: Global,
    format: Format,
    unit: Option<TimeUnit>,
    scenario: &Scenario,
    text: &[u8],
) -> Result<(bool, Vec<u8>), TraceFault>
    ensures { IsUnlessMemory Memory (beside_told format unit scenario.now text.now)
        (result_map_both as_told (λ fault. fault) result) }
{
    let measure = Measure::of(scenario, unit, None);
    let links = links_beside(alloc, &measure, scenario, text)?;
    let is_left = is_some_left(&measure, scenario, &links);
    let table = table_of(alloc, &measure, scenario, &links)?;
    let told = table_text(alloc, &table, format)?;
    Ok((is_left, told))
}
