ghost use Rattle.std.specs.Prelude.{◌≡◌, ◌↔◌, All, Ok, IfNone, IfOk, IfSome, IsTrue};
ghost use Rattle.convoy_scenario.specs.Memory.{IsUnlessMemory};
ghost use Rattle.convoy_certificate.specs.Certificate.{IsCertificate};
ghost use Rattle.convoy_plans.specs.Placements.{IsPlacement, scenario_at};
ghost use Rattle.convoy_best_order.specs.Orders.{IsOrder};
ghost use Rattle.convoy_best_plan.specs.BestPlans.{HasNoScenario};
ghost use Rattle.convoy_plan_checker.specs.Lateness.{is_order};
ghost use Rattle.convoy_best_order.specs.Targets.{MayBeTarget};
ghost use Rattle.convoy_plan_certificate.specs.PlanTexts.{plan_certificate_text};
ghost use Rattle.convoy_plan_checker.specs.declared.plan_refused.PlanRefused.TheVariants.{Memory};
ghost use Rattle.convoy_plan_checker.specs.PlanCheckLaws.{IsBestChoice};
ghost use Rattle.convoy_plan_checker.specs.Trees.{tree_answer};
ghost use Rattle.convoy_plan_checker.specs.PlanValidity.{AreShown, IsRightChoice, IsValidPlan, claim_with};

use super::claim::Claim;
use super::lateness::is_order;
use super::plan_check_laws::valid_is_best;
use super::plan_refusal::PlanRefusal;
use super::plan_refused::PlanRefused;
use super::shown::{check_shown, greatest_excess};
use super::walking::first_fault;
use convoy_best_order::{Target, Wanted};
use convoy_best_plan::{Floor, scenario_if_made, targets_by, total_of};
use convoy_certificate::Certificate;
use convoy_plan_certificate::{PlanCertificate, read_plan_certificate};
use convoy_plans::{Plan, is_placement};
use convoy_scenario::Scenario;
use std::alloc::{AllocError, Global};

/// Checks a certificate of a plan, for the targets that are wanted: then no choice of the plan is better than the one that the
/// certificate names, whoever made it (docs/FORMATS.md, "Certificates of plans").
///
/// A certificate that is not valid is refused with its first fault, in the order of `PlanRefused`; where memory runs out,
/// `PlanRefused::Memory` is the answer, and says nothing of the certificate.
pub fn check_plan(
    alloc: Global,
    plan: &Plan,
    wanted: Wanted,
    certificate: &PlanCertificate,
) -> Result<(), PlanRefused>
    // What is accepted is valid, and then its choice is the best.
    ensures valid { IfOk result (λ _. IsValidPlan wanted plan.now certificate.now) }
    ensures best { IfOk result (λ _. IsBestChoice wanted plan.now certificate.now) }
    // What is valid is accepted, unless memory runs out.
    ensures only { IsValidPlan wanted plan.now certificate.now → IsUnlessMemory Memory (Ok tt) result }
{
    valid_is_best();
    // A plan is well formed, and so are certificates.
    let _count = plan.group_count();
    are_certificates(&certificate.shown);
    check_parts(alloc, plan, wanted, certificate)
}

/// Certificates are well formed.
fn are_certificates(shown: &[Certificate])
    ensures { All IsCertificate shown.now }
{
    for certificate in shown {
        let _nodes = certificate.nodes();
    }
}

/// The same of a text.
pub fn check_plan_text(
    alloc: Global,
    plan: &Plan,
    wanted: Wanted,
    text: &[u8],
) -> Result<PlanCertificate, PlanRefusal>
    // What is accepted is the text of a certificate that is valid, and then its choice is the best.
    ensures text { IfOk result (λ certificate. text.now ≡ plan_certificate_text certificate) }
    ensures valid { IfOk result (IsValidPlan wanted plan.now) }
    ensures best { IfOk result (IsBestChoice wanted plan.now) }
{
    let certificate = match read_plan_certificate(alloc, text) {
        Ok(certificate) => certificate,
        Err(fault) => return Err(PlanRefusal::Text(fault)),
    };
    match check_plan(alloc, plan, wanted, &certificate) {
        Ok(()) => Ok(certificate),
        Err(refused) => Err(PlanRefusal::Check(refused)),
    }
}

/// Checks the parts of a certificate, in their order.
fn check_parts(
    alloc: Global,
    plan: &Plan,
    wanted: Wanted,
    certificate: &PlanCertificate,
) -> Result<(), PlanRefused>
    ensures valid { IfOk result (λ _. IsValidPlan wanted plan.now certificate.now) }
    ensures only { IsValidPlan wanted plan.now certificate.now → IsUnlessMemory Memory (Ok tt) result }
{
    if !is_placed(plan, certificate) {
        return Err(PlanRefused::Placement);
    }
    let made = scenario_of(alloc, plan, certificate)?;
    match made {
        None => Err(PlanRefused::Unmade),
        Some(scenario) => check_choice(alloc, plan, wanted, scenario, certificate),
    }
}

/// Whether the sites are a placement of the plan.
fn is_placed(plan: &Plan, certificate: &PlanCertificate) -> bool
    ensures { IsTrue result ↔ IsPlacement plan.now certificate.now.placement.items }
{
    is_placement(plan, &certificate.placement)
}

/// The scenario of the placement, if there is one. Fails where memory runs out, and else never.
fn scenario_of(
    alloc: Global,
    plan: &Plan,
    certificate: &PlanCertificate,
) -> Result<Option<Scenario>, AllocError>
    ensures some { IfOk result (λ made. IfSome made (λ scenario.
        scenario_at plan.now certificate.now.placement.items ≡ Ok scenario)) }
    ensures none { IfOk result (λ made. IfNone made (HasNoScenario plan.now certificate.now.placement.items)) }
{
    scenario_if_made(alloc, plan, &certificate.placement)
}

/// Whether the order is one of the groups of the scenario.
fn is_ordered(scenario: &Scenario, certificate: &PlanCertificate) -> bool
    ensures value { result ≡ is_order scenario.now certificate.now.order.items }
    ensures lawful { IsTrue result → IsOrder scenario.now certificate.now.order.items }
{
    is_order(scenario, &certificate.order)
}

/// Checks a certificate whose placement has this scenario.
fn check_choice(
    alloc: Global,
    plan: &Plan,
    wanted: Wanted,
    scenario: Scenario,
    certificate: &PlanCertificate,
) -> Result<(), PlanRefused>
    ensures valid { IfOk result (λ _. IsRightChoice wanted plan.now scenario certificate.now) }
    ensures only { IsRightChoice wanted plan.now scenario certificate.now → IsUnlessMemory Memory (Ok tt) result }
{
    // A scenario is well formed.
    let _count = scenario.group_count();
    if !is_ordered(&scenario, certificate) {
        return Err(PlanRefused::Order);
    }
    let targets = targets_by(alloc, plan, wanted, &scenario)?;
    match check_certificates(alloc, &scenario, &targets, certificate) {
        Ok(()) => check_tree(alloc, plan, wanted, scenario, targets, certificate),
        Err(refused) => Err(refused),
    }
}

/// Checks the certificates in a certificate whose placement has this scenario with these targets.
fn check_certificates(
    alloc: Global,
    scenario: &Scenario,
    targets: &[Target],
    certificate: &PlanCertificate,
) -> Result<(), PlanRefused>
    requires may { All (MayBeTarget scenario.now) targets.now }
    requires order { IsOrder scenario.now certificate.now.order.items }
    ensures valid { IfOk result (λ _. AreShown scenario.now certificate.now.order.items targets.now
        certificate.now.shown.items) }
    ensures only { AreShown scenario.now certificate.now.order.items targets.now certificate.now.shown.items
        → IsUnlessMemory Memory (Ok tt) result }
{
    check_shown(
        alloc,
        scenario,
        &certificate.order,
        targets,
        &certificate.shown,
    )
}

/// Checks the nodes of a certificate whose placement has this scenario with these targets.
fn check_tree(
    alloc: Global,
    plan: &Plan,
    wanted: Wanted,
    scenario: Scenario,
    targets: Vec<Target>,
    certificate: &PlanCertificate,
) -> Result<(), PlanRefused>
    requires { All (MayBeTarget scenario) targets.items }
    ensures { IsUnlessMemory Memory (tree_answer plan.now
        (claim_with wanted scenario targets.items certificate.now.shown.items) certificate.now.nodes.items) result }
{
    let claim = claim_of(alloc, wanted, scenario, targets, &certificate.shown)?;
    match first_fault(alloc, plan, &claim, &certificate.nodes)? {
        None => Ok(()),
        Some(fault) => Err(fault),
    }
}

/// What the tree is to show. Fails where memory runs out, and else never.
fn claim_of(
    alloc: Global,
    wanted: Wanted,
    scenario: Scenario,
    targets: Vec<Target>,
    shown: &[Certificate],
) -> Result<Claim, AllocError>
    ensures { IfOk result (λ claim. claim ≡ claim_with wanted scenario targets.items shown.now) }
{
    let floor = Floor {
        least: greatest_excess(alloc, &targets, shown)?,
        ties: total_of(&scenario),
    };
    Ok(Claim {
        wanted,
        scenario,
        targets,
        floor,
    })
}
