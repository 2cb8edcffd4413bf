ghost use Rattle.std.specs.Prelude.{IfOk};
ghost use Rattle.convoy_plan_ceilings.specs.LeastCeilings.{IsCeilingChosen};

use super::ceiling_choice::CeilingChoice;
use super::searching::search_below;
use super::standing::Standing;
use convoy_best_order::Wanted;
use convoy_plans::{MOST_SITES, Plan};
use std::alloc::{AllocError, Global};

/// The placement of a plan's groups with the least ceilings (docs/PROTOCOL.md, "The ceiling") for the targets that are wanted
/// ([`targets_by`](convoy_best_plan::targets_by)): that with the least greatest excess of a ceiling over its deadline, in
/// ticks, or over nothing where none of them has a deadline; and of those with that excess one with the least total of the
/// longest times from issues to commits. So whatever traffic of the plan's kinds of messages there is, no other placement
/// promises less. A ceiling is the same in each order of the groups: they stay in the order of the plan.
///
/// None where no placement has a scenario. Fails where memory runs out, and else never.
pub fn least_ceiling(
    alloc: Global,
    plan: &Plan,
    wanted: Wanted,
) -> Result<Option<CeilingChoice>, AllocError>
    ensures { IfOk result (IsCeilingChosen wanted plan.now) }
{
    let groups = plan.group_count();
    let sites = vec![in alloc; None; groups]?;
    let leasts = vec![in alloc; None; MOST_SITES * MOST_SITES]?;
    let standing = Standing {
        chosen: None,
        leasts,
    };
    let searched = search_below(alloc, plan, wanted, groups, &sites, standing)?;
    Ok(searched.chosen)
}
