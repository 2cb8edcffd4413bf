//! In what a certificate of finishes is not the one that is wanted.

ghost use Rattle.std.specs.Prelude.{◌≡◌, ◌⊎◌, ◌↔◌, ◌<◌, ℕ, length, IsTrue, MatchOption};
ghost use Rattle.std.specs.Option.{option_map};
ghost use Rattle.convoy_finishes.specs.Finishes.{way_at};
ghost use Rattle.convoy_finish_replies.specs.FinishReferences.{AreSameWays, DiffersFrom, DiffersFromWanted, HasOtherWays, IsOf, IsOfAccepted, IsOfWanted};
ghost use Rattle.convoy_scenario.specs.Differences.{IsFirstDifference};

use convoy_finish_answers::Accepted;
use convoy_finish_checker::FinishCertificate;
use convoy_scenario::{Part, difference};
use convoy_workflow_replies::Reference;

/// The first part in which a certificate of finishes differs from what is wanted, if something is; none where it is that.
pub(crate) fn unwanted_part(
    wanted: Option<&Reference>,
    certificate: &FinishCertificate,
) -> Option<Part>
    ensures { MatchOption result (IsOfWanted (option_map (λ r. r.now) wanted.entry) certificate.now)
        (DiffersFromWanted (option_map (λ r. r.now) wanted.entry) certificate.now) }
{
    match wanted {
        Some(reference) => part_other_than(reference, certificate),
        None => None,
    }
}

/// The first part in which it differs from that.
fn part_other_than(reference: &Reference, certificate: &FinishCertificate) -> Option<Part>
    ensures { MatchOption result (IsOf reference.now certificate.now) (DiffersFrom reference.now certificate.now) }
{
    match reference {
        Reference::Scenario(_) => Some(Part::Groups),
        Reference::Accepted(accepted) => part_other_than_in(accepted, certificate),
        Reference::Workflow(_) => Some(Part::Multicasts),
    }
}

/// The first part in which it differs from a scenario of which each group is replicated by white box.
fn part_other_than_in(accepted: &Accepted, certificate: &FinishCertificate) -> Option<Part>
    ensures { MatchOption result (IsOfAccepted accepted.now certificate.now)
        (λ part. IsFirstDifference accepted.now.scenario certificate.now.run.scenario part
        ⊎ HasOtherWays accepted.now certificate.now part) }
{
    match difference(&accepted.scenario, certificate.run.scenario()) {
        Some(part) => Some(part),
        None => part_of_ways(accepted, certificate),
    }
}

/// The same where the scenarios are one.
fn part_of_ways(accepted: &Accepted, certificate: &FinishCertificate) -> Option<Part>
    requires { certificate.now.run.scenario ≡ accepted.now.scenario }
    ensures { MatchOption result (IsOfAccepted accepted.now certificate.now) (HasOtherWays accepted.now certificate.now) }
{
    if are_same_ways(accepted, certificate) {
        None
    } else {
        Some(Part::Groups)
    }
}

/// Whether messages take the same ways by each group.
fn are_same_ways(accepted: &Accepted, certificate: &FinishCertificate) -> bool
    ensures { IsTrue result ↔ AreSameWays accepted.now certificate.now }
{
    let count = accepted.scenario.message_count();
    for message in 0..count {
        if !are_same_of(accepted, certificate, message) {
            return false;
        }
    }
    true
}

/// Whether a message takes the same ways by each group.
fn are_same_of(accepted: &Accepted, certificate: &FinishCertificate, message: usize) -> bool
    requires { message < length accepted.now.scenario.multicasts }
    ensures { IsTrue result ↔ ((k : ℕ) → k < length accepted.now.scenario.groups
        → way_at certificate.now.ways message k ≡ way_at accepted.now.ways message k) }
{
    let _count = accepted.scenario.message_count();
    let groups = accepted.scenario.group_count();
    for group in 0..groups {
        if certificate.ways.way(message, group) != accepted.ways.way(message, group) {
            return false;
        }
    }
    true
}
