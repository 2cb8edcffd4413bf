//! How sure the ranges of links are.

ghost use Rattle.std.specs.Prelude.{◌≡◌, ◌++◌, map, Ok};
ghost use Rattle.toml.specs.View.{table_view};
ghost use Rattle.convoy_draft.specs.declared.fault.ScenarioFault.TheVariants.{Memory};
ghost use Rattle.convoy_scenario.specs.Memory.{IsUnlessMemory};
ghost use Rattle.convoy_toml.specs.Outside.{LinkShare, if_shared, share_in, shares_in, shares_of_table};
ghost use Rattle.convoy_toml.specs.Shape.{listed};

use super::keys::tables;
use super::link_tables::{ends_of_table, share_of_table};
use super::written::LinkEnds;
use convoy_scenario::{Key, ScenarioFault};
use std::alloc::Global;
use std::marker::Model;
use toml::Table;

/// Which share at most of the packets that go by some links is outside their range.
#[derive(Drop)]
pub struct LinkShare {
    /// Where the links lead.
    pub ends: LinkEnds,
    /// The share, in billionths: at most `WHOLE_SHARE`.
    pub billionths: u64,
}

impl Model for LinkShare {
    ghost Value = { LinkShare };

    ghost view = { λ s. record { ends = s.ends; billionths = s.billionths } };
}

/// The shares that the tables of links of a scenario's table write, in their order. The fault is that memory ran out.
pub(crate) fn shares_of_table(alloc: Global, table: &Table) -> Result<Vec<LinkShare>, ScenarioFault>
    ensures { IsUnlessMemory Memory (Ok (shares_of_table (table_view table.now))) (listed result) }
{
    match tables(alloc, table, Key::Link) {
        Ok(tables) => shares_in(alloc, &tables),
        Err(ScenarioFault::Memory) => Err(ScenarioFault::Memory),
        Err(_) => Ok(Vec::new(alloc)),
    }
}

/// The shares that tables of links write.
fn shares_in(alloc: Global, tables: &[&Table]) -> Result<Vec<LinkShare>, ScenarioFault>
    ensures { IsUnlessMemory Memory (Ok (shares_in (map (λ t. table_view t.now) tables.now))) (listed result) }
{
    let mut shares = Vec::new(alloc);
    for table in tables {
        if let Some(share) = share_in(alloc, table)? {
            shares.push(share)?;
        }
    }
    Ok(shares)
}

/// The share that a table of links writes, if it writes one.
fn share_in(alloc: Global, table: &Table) -> Result<Option<LinkShare>, ScenarioFault>
    ensures { IsUnlessMemory Memory (Ok (share_in (table_view table.now))) result }
{
    let Ok(Some(billionths)) = share_of_table(table) else {
        return Ok(None);
    };
    match ends_of_table(alloc, table) {
        Ok(ends) => Ok(Some(LinkShare { ends, billionths })),
        Err(ScenarioFault::Memory) => Err(ScenarioFault::Memory),
        Err(_) => Ok(None),
    }
}
