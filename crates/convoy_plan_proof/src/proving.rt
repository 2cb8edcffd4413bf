ghost use Rattle.std.specs.Prelude.{[], ◌<◌, length, IfOk};
ghost use Rattle.convoy_best_plan.specs.BestPlans.{IsBestPlan};
ghost use Rattle.convoy_plan_proof.specs.PlanProofs.{IsPlanProof};

use super::claim::Claim;
use super::shown::certificates_of;
use super::tree::{Tree, tree_of};
use convoy_best_order::Wanted;
use convoy_best_plan::{PlanWatch, Planned, best_plan};
use convoy_branch::Options;
use convoy_plan_certificate::{PlanCertificate, PlanTextFault, plan_certificate_text};
use convoy_plan_checker::{PlanRefusal, PlanRefused, check_plan_text};
use convoy_plans::Plan;
use std::alloc::{AllocError, Global};
use std::sync::Wait;
use std::thread::Threads;

/// What comes of proving that a choice of a plan is the best.
#[derive(Drop)]
pub enum PlanProof {
    /// The text of a certificate of that.
    Proved(Vec<u8>),
    /// No placement has a scenario.
    Unplaceable,
    /// It is not known whether some choice is the best: a search did not end.
    Open,
    /// The certificate would be too long.
    TooLarge,
    /// The checker refuses the certificate that was made.
    Refused(PlanRefusal),
}

/// Finds the best choice of a plan for the targets that are wanted ([`best_plan`]), and makes the text of a certificate that no
/// choice is better (docs/FORMATS.md, "Certificates of plans"). The text is one that the checker accepts, whatever made it; there
/// is none where a search does not end within the options, or where the text would be too long. Fails where memory runs out, and
/// else never.
pub fn prove_plan<R: Threads + Wait + Sync, W: PlanWatch + Sync>(
    rt: &R,
    alloc: Global,
    plan: &Plan,
    wanted: Wanted,
    options: &Options,
    watches: &[W],
) -> Result<PlanProof, AllocError>
    requires watched { 0 < length watches.now }
    ensures { IfOk result (IsPlanProof wanted plan.now) }
{
    match best_plan(rt, alloc, plan, wanted, &[], options, watches)? {
        Some(planned) => prove_choice(rt, alloc, plan, wanted, &planned, options, watches),
        None => Ok(PlanProof::Unplaceable),
    }
}

/// The same of a choice that was found.
fn prove_choice<R: Threads + Wait + Sync, W: PlanWatch + Sync>(
    rt: &R,
    alloc: Global,
    plan: &Plan,
    wanted: Wanted,
    planned: &Planned,
    options: &Options,
    watches: &[W],
) -> Result<PlanProof, AllocError>
    requires watched { 0 < length watches.now }
    requires best { IsBestPlan options.now wanted plan.now [] planned.now }
    ensures { IfOk result (IsPlanProof wanted plan.now) }
{
    let claim = Claim::of(plan, wanted, planned, options);
    if planned.floor.is_lower(claim.floor) {
        return Ok(PlanProof::Open);
    }
    let (scenario, order, targets) = (&planned.scenario, &planned.best.order, &planned.targets);
    let shown = certificates_of(rt, alloc, scenario, order, targets, options, &watches[0])?;
    let Some(shown) = shown else {
        return Ok(PlanProof::Open);
    };
    match tree_of(rt, alloc, &claim, watches)? {
        Tree::Open => Ok(PlanProof::Open),
        Tree::TooLarge => Ok(PlanProof::TooLarge),
        Tree::Whole(nodes) => {
            let certificate = PlanCertificate {
                placement: Vec::from_slice(alloc, &planned.placement)?,
                order: Vec::from_slice(alloc, order)?,
                shown,
                nodes,
            };
            accepted(
                alloc,
                plan,
                wanted,
                plan_certificate_text(alloc, &certificate)?,
            )
        }
    }
}

/// A text that was made, if the checker accepts it.
fn accepted(
    alloc: Global,
    plan: &Plan,
    wanted: Wanted,
    text: Vec<u8>,
) -> Result<PlanProof, AllocError>
    ensures { IfOk result (IsPlanProof wanted plan.now) }
{
    match check_plan_text(alloc, plan, wanted, &text) {
        Ok(_) => Ok(PlanProof::Proved(text)),
        Err(PlanRefusal::Text(PlanTextFault::Memory)) => Err(AllocError),
        Err(PlanRefusal::Check(PlanRefused::Memory)) => Err(AllocError),
        Err(refusal) => Ok(PlanProof::Refused(refusal)),
    }
}
