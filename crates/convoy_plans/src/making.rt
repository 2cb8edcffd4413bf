//! The plan that is written so, in numbers.

ghost use Rattle.std.specs.Prelude.{◌≡◌, ◌<◌, length, IfOk, IsTrue, Ok};
ghost use Rattle.std.specs.List.{list_all};
ghost use Rattle.convoy_draft.specs.Checks.{all_differ};
ghost use Rattle.convoy_toml.specs.Times.{bundles_of};
ghost use Rattle.convoy_plans.specs.Checks.{are_among, is_sent_from, places_of};
ghost use Rattle.convoy_plans.specs.Numbering.{all_housed, plan_in};
ghost use Rattle.convoy_plans.specs.Ranges.{most_table};

use super::lists::Numbers;
use super::numbers::{apart_of, clients_of, goes_of, origins_of};
use super::plan::Plan;
use super::ranges::most_table;
use super::written::WrittenPlan;
use convoy_scenario::{Duration, TimeUnit};
use convoy_toml::Bundle;
use std::alloc::{AllocError, Global};

/// The plan that is written so, where its tables of links are these in ticks, and its groups may be at these sites. Fails
/// where memory runs out, and else never.
pub(crate) fn plan_in(
    alloc: Global,
    written: WrittenPlan,
    tick: Option<Duration>,
    unit: Option<TimeUnit>,
    bundles: &[Bundle],
    deadlines: Vec<Option<u32>>,
    housed: Vec<Numbers>,
) -> Result<Plan, AllocError>
    requires ticks { bundles_of tick written.scenario.links ≡ Ok bundles.now }
    requires housed { housed.items ≡ all_housed written }
    requires some { 0 < length written.sites }
    requires differ { IsTrue (all_differ (places_of written)) }
    requires addressed { IsTrue (list_all (λ message. are_among message.to written.scenario.groups) written.scenario.messages) }
    requires sent { IsTrue (list_all (is_sent_from (places_of written)) written.scenario.messages) }
    ensures { IfOk result (λ plan. plan ≡ plan_in written tick unit bundles.now deadlines.items) }
{
    let origins = origins_of(alloc, &written)?;
    let goes = goes_of(alloc, &written)?;
    let apart = apart_of(alloc, &written)?;
    let most = most_of(alloc, bundles, &written)?;
    let clients = clients_of(alloc, &origins, &written)?;
    let WrittenPlan {
        scenario,
        sites,
        ..
    } = written;
    Ok(Plan {
        written: scenario,
        sites,
        housed,
        apart,
        tick,
        unit,
        deadlines,
        most,
        origins,
        goes,
        clients,
    })
}

/// How long what goes from each site of a plan to each takes at most.
fn most_of(
    alloc: Global,
    bundles: &[Bundle],
    written: &WrittenPlan,
) -> Result<Vec<Numbers>, AllocError>
    ensures { IfOk result (λ rows. rows.items ≡ most_table bundles.now written.now.sites) }
{
    most_table(alloc, bundles, &written.sites)
}
