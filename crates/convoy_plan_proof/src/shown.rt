//! The certificates of a choice's targets.

ghost use Rattle.std.specs.Prelude.{◌<◌, length};
ghost use Rattle.std.specs.List.{All};
ghost use Rattle.convoy_best_order.specs.Orders.{IsOrder};
ghost use Rattle.convoy_best_order.specs.Targets.{MayBeTarget};

use convoy_best_order::{Target, listed};
use convoy_branch::{Options, Outcome};
use convoy_certificate::Certificate;
use convoy_commands::{Watch, search_instance};
use convoy_packets::Instance;
use convoy_scenario::Scenario;
use std::alloc::{AllocError, Global};
use std::sync::Wait;
use std::thread::Threads;

/// For each of some targets a certificate of its greatest latency where the groups of a scenario are listed in that order; none
/// where a search does not end. Fails where memory runs out, and else never.
pub(crate) fn certificates_of<R: Threads + Wait + Sync, W: Watch + Sync>(
    rt: &R,
    alloc: Global,
    scenario: &Scenario,
    order: &[usize],
    targets: &[Target],
    options: &Options,
    watch: &W,
) -> Result<Option<Vec<Certificate>>, AllocError>
    requires order { IsOrder scenario.now order.now }
    requires lawful { All (MayBeTarget scenario.now) targets.now }
{
    let mut certificates = Vec::new(alloc);
    for place in 0..targets.len() {
        let target = targets[place];
        match certificate_of(rt, alloc, scenario, order, target, options, watch)? {
            Some(certificate) => certificates.push(certificate)?,
            None => return Ok(None),
        }
    }
    Ok(Some(certificates))
}

/// The same of one target.
fn certificate_of<R: Threads + Wait + Sync, W: Watch + Sync>(
    rt: &R,
    alloc: Global,
    scenario: &Scenario,
    order: &[usize],
    target: Target,
    options: &Options,
    watch: &W,
) -> Result<Option<Certificate>, AllocError>
    requires order { IsOrder scenario.now order.now }
    requires target { MayBeTarget scenario.now target }
{
    let asked = scenario.with_target(target.message, target.group)?;
    let instance = Instance::of(alloc, listed(alloc, &asked, order)?)?;
    match search_instance(rt, alloc, &instance, options, watch)? {
        Outcome::Proved { certificate, .. } => Ok(Some(certificate)),
        Outcome::Open { .. } => Ok(None),
    }
}
