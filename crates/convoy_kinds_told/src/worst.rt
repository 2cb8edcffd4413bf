//! The greatest ceiling of all kinds.

ghost use Rattle.std.specs.Prelude.{◌≡◌, ◌⊎◌, ◌==◌, ◌∷◌, [], ◌++◌, codes, decimal, find, option_copied, Some, Err, IfOk, OnOk};
ghost use Rattle.convoy_draft.specs.declared.fault.ScenarioFault.TheVariants.{Memory};
ghost use Rattle.convoy_kinds.specs.Ceilings.{AreCeilingRows, IsCeilingRow};
ghost use Rattle.convoy_kinds_told.specs.Worst.{worst_told};
ghost use Rattle.convoy_kinds_told.specs.Worst.{IsTrafficBeside, WorstSays, greatest_ceiling, worst_of, worst_text};
ghost use Rattle.convoy_lines.specs.Texts.{ended, line_of};
ghost use Rattle.convoy_times.specs.Measures.{told_in_unit};

use convoy_ceiling::{Found, seek_traffic};
use convoy_kinds::kind_laws::traffic_of_pairs_is_of_kinds;
use convoy_kinds::{CeilingRow, Kinds, KindsFault, ceiling_rows, pair_of, read_kinds};
use convoy_lines::{push_number, push_number_line};
use convoy_scenario::TimeUnit;
use convoy_times::{Measure, push_told};
use convoy_toml_writer::write_toml;
use std::alloc::{AllocError, Global};

/// The greatest ceiling of the kinds of a text at all groups that they go to, and traffic of the kind that has it and of its
/// rival, in which at most so many simulations seek a latency near it: the lines `ceiling` and `attained`, and the traffic with
/// its schedule as a scenario's text; and whether it attains the ceiling. Of several the first is told, in the order of the
/// kinds and of their groups.
///
/// The faults are those of [`read_kinds`]; memory that runs out is `ScenarioFault::Memory`.
pub fn worst_kind_answer(
    alloc: Global,
    unit: Option<TimeUnit>,
    simulations: u64,
    text: &[u8],
) -> Result<(bool, Vec<u8>), KindsFault>
    ensures { WorstSays unit text.now (worst_told result) ⊎ (worst_told result ≡ Err (KindsFault.Scenario Memory)) }
{
    let kinds = read_kinds(alloc, text)?;
    let rows = ceiling_rows(alloc, &kinds)?;
    let worst = worst_row(&kinds, &rows);
    let found = traffic_of(alloc, &kinds, worst, simulations)?;
    let measure = Measure::of(kinds.setting(), unit, kinds.unit());
    let is_attained = found.record.latency() == worst.ceiling;
    let text = told(alloc, measure, worst.ceiling, &found)?;
    Ok((is_attained, text))
}

/// The first row of the greatest ceiling of all.
#[tactic(auto, using(crate::proofs::Greatest::some_worst))]
fn worst_row(kinds: &Kinds, rows: &[CeilingRow]) -> CeilingRow
    requires { AreCeilingRows kinds.now rows.now }
    ensures first { worst_of rows.now ≡ Some result }
    ensures told { IsCeilingRow kinds.now result }
{
    // The kinds are well formed.
    let _count = kinds.kind_count();
    match worst_of(rows) {
        Some(worst) => worst,
        None => unreachable!(),
    }
}

/// Traffic of the kind of a row and of its rival, sought by so many simulations at most. Fails where memory runs out, and
/// else never.
fn traffic_of(
    alloc: Global,
    kinds: &Kinds,
    row: CeilingRow,
    simulations: u64,
) -> Result<Found, AllocError>
    requires { IsCeilingRow kinds.now row }
    ensures { IfOk result (λ found. IsTrafficBeside kinds.now row found.traffic found.record) }
{
    traffic_of_pairs_is_of_kinds();
    let pair = pair_of(alloc, kinds, row.kind, row.rival, row.group)?;
    let found = seek_traffic(alloc, &pair, simulations)?;
    Ok(found)
}

/// The first row of the greatest ceiling.
fn worst_of(rows: &[CeilingRow]) -> Option<CeilingRow>
    ensures { result ≡ worst_of rows.now }
{
    let greatest = greatest_ceiling(rows);
    match find_ceiling(rows, greatest) {
        Some(row) => Some(*row),
        None => None,
    }
}

/// The greatest ceiling of some rows.
fn greatest_ceiling(rows: &[CeilingRow]) -> u32
    ensures { result ≡ greatest_ceiling rows.now }
{
    let mut greatest: u32 = 0;
    for row in rows {
        greatest = greatest.max(row.ceiling);
    }
    greatest
}

/// The first row of that ceiling.
fn find_ceiling(rows: &[CeilingRow], ceiling: u32) -> Option<&CeilingRow>
    ensures { option_copied result ≡ find (λ row. row.ceiling == ceiling) rows.now }
{
    rows.iter().find(|row| row.ceiling == ceiling)
}

/// A ceiling, and the traffic that was found.
fn told(
    alloc: Global,
    measure: Option<Measure>,
    ceiling: u32,
    found: &Found,
) -> Result<Vec<u8>, AllocError>
    requires { found.now.record.scenario ≡ found.now.traffic }
    ensures { IfOk result (λ text. text.items ≡ worst_text measure ceiling found.now.record) }
{
    let mut text = Vec::new(alloc);
    push_ceiling(measure, ceiling, &mut text)?;
    push_number_line(&mut text, "attained", found.record.latency())?;
    write_toml(found.traffic.scenario(), found.record.schedule(), &mut text)?;
    Ok(text)
}

/// Appends the line of a ceiling, in ticks and, where there is a measure, in its unit. Fails where memory runs out, and else
/// never; a front of the line may have been appended then.
#[tactic(auto, using(std::proofs::lemmas::List::append_assoc))]
fn push_ceiling(measure: Option<Measure>, ceiling: u32, out: &mut Vec<u8>) -> Result<(), AllocError>
    ensures { OnOk result (out.new.items
        ≡ out.old.items ++ ended (line_of (codes "ceiling") (decimal ceiling ∷ told_in_unit measure (ceiling ∷ [])))) }
{
    out.extend_from_slice(b"ceiling ")?;
    push_number(out, ceiling)?;
    push_told(measure, &[ceiling], out)?;
    out.push(b'\n')?;
    Ok(())
}
