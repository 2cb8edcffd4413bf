//! The certificates of the targets of a choice.

ghost use Rattle.std.specs.Prelude.{◌≡◌, ◌↔◌, All, fold, Ok, IfOk, IsTrue};
ghost use Rattle.convoy_scenario.specs.Memory.{IsUnlessMemory};
ghost use Rattle.convoy_checker.specs.Validity.{IsValid};
ghost use Rattle.convoy_best_order.specs.Excesses.{greater};
ghost use Rattle.convoy_best_order.specs.Orders.{IsOrder};
ghost use Rattle.convoy_best_order.specs.Targets.{MayBeTarget};
ghost use Rattle.convoy_plan_checker.specs.declared.plan_refused.PlanRefused.TheVariants.{Memory};
ghost use Rattle.convoy_plan_checker.specs.PlanValidity.{AreShown, IsShown, excesses_of, greatest_of};

use super::lateness::instance_in;
use super::plan_refused::PlanRefused;
use convoy_best_order::{Excess, Target};
use convoy_certificate::Certificate;
use convoy_checker::{Refused, check};
use convoy_packets::Instance;
use convoy_scenario::{Scenario, difference};
use std::alloc::{AllocError, Global};

/// Checks the certificates of these targets with the groups in that order: there is one for each, of its scenario, and valid.
pub(crate) fn check_shown(
    alloc: Global,
    scenario: &Scenario,
    order: &[usize],
    targets: &[Target],
    shown: &[Certificate],
) -> Result<(), PlanRefused>
    requires may { All (MayBeTarget scenario.now) targets.now }
    requires order { IsOrder scenario.now order.now }
    ensures valid { IfOk result (λ _. AreShown scenario.now order.now targets.now shown.now) }
    ensures only { AreShown scenario.now order.now targets.now shown.now → IsUnlessMemory Memory (Ok tt) result }
{
    let mut rest = targets;
    for (number, certificate) in shown.iter().enumerate() {
        let Some((target, tail)) = rest.split_first() else {
            return Err(PlanRefused::Count);
        };
        match check_one(alloc, scenario, order, *target, number, certificate) {
            Ok(()) => rest = tail,
            Err(refused) => return Err(refused),
        }
    }
    if rest.is_empty() {
        Ok(())
    } else {
        Err(PlanRefused::Count)
    }
}

/// Checks the certificate of that number, which is that of a target.
fn check_one(
    alloc: Global,
    scenario: &Scenario,
    order: &[usize],
    target: Target,
    number: usize,
    certificate: &Certificate,
) -> Result<(), PlanRefused>
    requires may { MayBeTarget scenario.now target }
    requires order { IsOrder scenario.now order.now }
    ensures valid { IfOk result (λ _. IsShown scenario.now order.now target certificate.now) }
    ensures only { IsShown scenario.now order.now target certificate.now → IsUnlessMemory Memory (Ok tt) result }
{
    let instance = instance_in(alloc, scenario, target, order)?;
    if !is_of(&instance, certificate) {
        return Err(PlanRefused::Scenario(number));
    }
    check_alone(alloc, number, certificate)
}

/// Whether the certificate is one of this scenario.
fn is_of(instance: &Instance, certificate: &Certificate) -> bool
    ensures { IsTrue result ↔ (certificate.now.scenario ≡ instance.now) }
{
    difference(instance.scenario(), certificate.scenario()).is_none()
}

/// Checks the certificate of that number by itself.
fn check_alone(alloc: Global, number: usize, certificate: &Certificate) -> Result<(), PlanRefused>
    ensures valid { IfOk result (λ _. IsValid certificate.now) }
    ensures only { IsValid certificate.now → IsUnlessMemory Memory (Ok tt) result }
{
    match check(alloc, certificate) {
        Ok(_) => Ok(()),
        Err(Refused::Memory) => Err(PlanRefused::Memory),
        Err(refused) => Err(PlanRefused::Certificate(number, refused)),
    }
}

/// The greatest of the excesses of the targets: the latencies of their certificates less their limits. Fails where memory runs
/// out, and else never.
pub(crate) fn greatest_excess(
    alloc: Global,
    targets: &[Target],
    shown: &[Certificate],
) -> Result<Excess, AllocError>
    ensures { IfOk result (λ greatest. greatest ≡ greatest_of (excesses_of targets.now shown.now)) }
{
    let excesses = excesses_of(alloc, targets, shown)?;
    Ok(greatest_of(&excesses))
}

/// These excesses.
fn excesses_of(
    alloc: Global,
    targets: &[Target],
    shown: &[Certificate],
) -> Result<Vec<Excess>, AllocError>
    ensures { IfOk result (λ excesses. excesses.items ≡ excesses_of targets.now shown.now) }
{
    let mut excesses = Vec::new(alloc);
    let mut rest = targets;
    for certificate in shown {
        let Some((target, tail)) = rest.split_first() else {
            return Ok(excesses);
        };
        excesses.push(Excess {
            latency: certificate.latency(),
            limit: target.deadline.unwrap_or(0),
        })?;
        rest = tail;
    }
    Ok(excesses)
}

/// The greatest of some excesses.
fn greatest_of(excesses: &[Excess]) -> Excess
    ensures { result ≡ greatest_of excesses.now }
{
    match excesses {
        [] => Excess {
            latency: 0,
            limit: 0,
        },
        [first, others @ ..] => greatest_from(*first, others),
    }
}

/// The greatest of an excess and others.
fn greatest_from(first: Excess, others: &[Excess]) -> Excess
    ensures { result ≡ fold greater first others.now }
{
    let mut greatest = first;
    for excess in others {
        greatest = greater(greatest, *excess);
    }
    greatest
}

/// The greater of two excesses.
fn greater(excess: Excess, other: Excess) -> Excess
    ensures { result ≡ greater excess other }
{
    if excess.is_less(other) { other } else { excess }
}
