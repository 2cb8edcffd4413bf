//! What comes before what at each group, by some precedences.

ghost use Rattle.std.specs.Prelude.{◌≡◌, ◌<◌, ◌==◌, ◌||◌, ℕ, Bool};
ghost use Rattle.convoy_regions.specs.declared.stage.Stage.{Stage};
ghost use Rattle.convoy_regions.specs.declared.known.TheConstants.{STAGES};
ghost use Rattle.convoy_regions.specs.Stages.{is_own, known_before, with_precedence};
ghost use Rattle.convoy_regions.specs.Known.{cell, AreLow, IsLow, IsLowPair, Says, SayAll, row_of};

use super::stage::{Precedence, Stage};
use convoy_scenario::{MOST_GROUPS, MOST_MULTICASTS};
use convoy_sim::MomentKind;
use std::marker::Model;

/// How many stages there may be at a group.
pub(crate) const STAGES: usize = 2 * MOST_MULTICASTS;

/// What comes after one stage: for each stage of its group, by its row, whether it does.
#[derive(Clone, Copy)]
pub(crate) struct Row {
    cells: [bool; STAGES],
}

/// What comes before what at one group: of each stage, by its row, what comes after it.
#[derive(Clone, Copy)]
pub(crate) struct Table {
    rows: [Row; STAGES],
}

/// What comes before what by some precedences, which contracts name.
#[derive(Drop)]
pub(crate) struct Known<'a> {
    before: &'a [Precedence],
    tables: [Table; MOST_GROUPS],
}

impl<'a> Model for Known<'a> {
    ghost use Rattle.std.specs.Prelude.{List};
    ghost use Rattle.convoy_regions.specs.Stages.{Precedence};
    ghost use Rattle.convoy_regions.specs.Known.{SayAll};

    ghost Value = { List Precedence };

    ghost view = { λ k. k.before.now };

    ghost invariant = { λ k. SayAll k.before.now k.tables };
}

impl<'a> Known<'a> {
    /// What comes before what by some precedences.
    pub(crate) fn of(before: &'a [Precedence]) -> Known<'a>
        requires { AreLow before.now }
        ensures { result ≡ before.now }
    {
        let tables = list_tables(before);
        Known { before, tables }
    }

    /// Whether the one stage comes before the other, both of one group.
    pub(crate) fn is_before(&self, a: Stage, b: Stage) -> bool
        requires first { IsLow a }
        requires second { IsLow b }
        requires one_group { a.group ≡ b.group }
        ensures { result ≡ known_before self.now a b }
    {
        self.tables[a.group].rows[row_of(a)].cells[row_of(b)]
    }
}

/// The tables by some precedences.
fn list_tables(before: &[Precedence]) -> [Table; MOST_GROUPS]
    requires { AreLow before.now }
    ensures { SayAll before.now result }
{
    let mut tables = [own_table(); MOST_GROUPS];
    for pair in before {
        tables[pair.0.group] = with_precedence(tables[pair.0.group], *pair);
    }
    tables
}

/// The table of a group by no precedence: the arrival of each message comes before its commit.
fn own_table() -> Table
    ensures { (g : ℕ) → Says g is_own result }
{
    let mut table = Table {
        rows: [Row {
            cells: [false; STAGES],
        }; STAGES],
    };
    for message in 0..MOST_MULTICASTS {
        table.rows[2 * message] = with_cell(table.rows[2 * message], 2 * message + 1);
    }
    table
}

/// The table of a group with a precedence more, and what follows from it.
fn with_precedence(mut table: Table, pair: Precedence) -> Table
    requires { IsLowPair pair }
    ensures { (known : Stage → Stage → Bool) → Says pair.0.group known table
        → Says pair.0.group (with_precedence known pair) result }
{
    let (first, second) = (row_of(pair.0), row_of(pair.1));
    let after = with_cell(table.rows[second], second);
    for row in 0..STAGES {
        if row == first || table.rows[row].cells[first] {
            table.rows[row] = union(table.rows[row], after);
        }
    }
    table
}

/// The row with that column too.
fn with_cell(mut row: Row, column: usize) -> Row
    requires { column < STAGES }
    ensures { (k : ℕ) → k < STAGES → cell result k ≡ ((column == k) || cell row k) }
{
    row.cells[column] = true;
    row
}

/// What one of two rows has, or both.
fn union(mut row: Row, more: Row) -> Row
    ensures { (k : ℕ) → k < STAGES → cell result k ≡ (cell row k || cell more k) }
{
    for k in 0..STAGES {
        if more.cells[k] {
            row.cells[k] = true;
        }
    }
    row
}

/// The row of a stage: twice the number of its message, and one more for a commit.
fn row_of(stage: Stage) -> usize
    requires { IsLow stage }
    ensures value { result ≡ row_of stage }
    ensures within { result < STAGES }
{
    match stage.kind {
        MomentKind::Arrival => 2 * stage.message,
        MomentKind::Commit => 2 * stage.message + 1,
    }
}
