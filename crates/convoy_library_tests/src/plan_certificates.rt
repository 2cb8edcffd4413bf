//! A worked plan of two groups at two sites, with a certificate made by hand, and with certificates that are changed.

use convoy_best_order::Wanted;
use convoy_plan_certificate::PlanTextFault;
use convoy_plan_checker::{PlanRefusal, PlanRefused, check_plan_text};
use convoy_plans::{Plan, read_plan};
use convoy_toml::Asked;
use std::alloc::Global;
use std::test::Fail;

/// Group a may be far away or near, group b is near.
const PLAN: &str =
    "time = \"real\"\ntick = \"1 ms\"\nsites = [\"near\", \"far\"]\ngroups = [\"a\", \"b\"]\n\
    group = [{ name = \"a\", sites = [\"far\", \"near\"] }, { name = \"b\", sites = \"near\" }]\n\
    link = [{ from = \"near\", to = \"near\", least = \"1 ms\", most = \"2 ms\" },\n\
    { from = \"near\", to = \"far\", both = true, least = \"5 ms\", most = \"9 ms\" }]\n\
    multicast = [{ name = \"t\", from = \"near\", to = [\"a\", \"b\"], at = \"0 ms\" },\n\
    { name = \"x\", from = \"near\", to = [\"a\", \"b\"], at = \"1 ms\" }]\n\
    target = { message = \"t\", group = \"b\" }\n";

/// Both groups are near, and a is listed first.
const CHOICE: &str = "convoy plan 1\nsites 0 0\norder 0 1\n";

/// Then t takes 5 ticks to b at most.
const SHOWN: &str =
    "convoy 4\ntime real\ntick 1 ms\ndelay 2\ngroups a b\nmulticast t client 0 a b\n\
    multicast x client 1 a b\ntarget t b\nlatency 5\nschedule 2 2 2 2 2 1 2 2\norder 0 0 1 0 0 0 0 0\nb\nend\n";

/// With a far away the commit alone takes more; and no order of the groups is better where both are near.
const TREE: &str =
    "tree\ns 0\nc 0\ns 1\nw\nt 0\nschedule 2 2 2 2 2 1 2 2\norder 0 0 1 0 0 0 0 0\nend\n";

fn plan(alloc: Global) -> Result<Plan, Fail> {
    match read_plan(alloc, &Asked::as_written(), PLAN.as_bytes()) {
        Ok(plan) => Ok(plan),
        Err(_) => Err("the plan is one")?,
    }
}

/// Why a certificate of these parts is refused, if it is.
fn refusal(
    alloc: Global,
    choice: &str,
    shown: &str,
    tree: &str,
) -> Result<Option<PlanRefusal>, Fail> {
    let plan = plan(alloc)?;
    let text = format!(in alloc; "{choice}{shown}{tree}")?;
    match check_plan_text(alloc, &plan, Wanted::Asked, text.as_bytes()) {
        Ok(_) => Ok(None),
        Err(refusal) => Ok(Some(refusal)),
    }
}

/// The same where its text is one.
fn refused(alloc: Global, choice: &str, shown: &str, tree: &str) -> Result<PlanRefused, Fail> {
    match refusal(alloc, choice, shown, tree)? {
        Some(PlanRefusal::Check(refused)) => Ok(refused),
        _ => Err("it is checked, and refused")?,
    }
}

#[test]
fn a_right_certificate_is_accepted(rt: HostRuntime) -> Result<(), Fail> {
    assert!(rt; refusal(rt.alloc(), CHOICE, SHOWN, TREE)?.is_none());
    Ok(())
}

#[test]
fn a_wrong_choice_is_refused(rt: HostRuntime) -> Result<(), Fail> {
    let alloc = rt.alloc();
    let far = "convoy plan 1\nsites 0 1\norder 0 1\n";
    assert!(rt; refused(alloc, far, SHOWN, TREE)? == PlanRefused::Placement);
    let twice = "convoy plan 1\nsites 0 0\norder 0 0\n";
    assert!(rt; refused(alloc, twice, SHOWN, TREE)? == PlanRefused::Order);
    let turned = "convoy plan 1\nsites 0 0\norder 1 0\n";
    assert!(rt; refused(alloc, turned, SHOWN, TREE)? == PlanRefused::Scenario(0));
    assert!(rt; refused(alloc, CHOICE, "", TREE)? == PlanRefused::Count);
    Ok(())
}

/// Why the choice with another tree is refused.
fn refused_tree(alloc: Global, tree: &str) -> Result<PlanRefused, Fail> {
    refused(alloc, CHOICE, SHOWN, tree)
}

#[test]
fn a_wrong_tree_is_refused(rt: HostRuntime) -> Result<(), Fail> {
    let alloc = rt.alloc();
    assert!(rt; refused_tree(alloc, "tree\nend\n")? == PlanRefused::TreeCount);
    assert!(rt; refused_tree(alloc, "tree\ns 2\nend\n")? == PlanRefused::Split(0));
    assert!(rt; refused_tree(alloc, "tree\ns 0\na 0 1\nend\n")? == PlanRefused::Apart(1));
    assert!(rt; refused_tree(alloc, "tree\nc 0\nend\n")? == PlanRefused::Commit(0));
    Ok(())
}

#[test]
fn a_wrong_leaf_is_refused(rt: HostRuntime) -> Result<(), Fail> {
    let alloc = rt.alloc();
    assert!(rt;
        refused_tree(alloc, "tree\ns 0\nc 0\ns 1\nn\nend\n")? == PlanRefused::NoScenario(3)
    );
    assert!(rt; refused_tree(alloc, "tree\ns 0\nc 0\ns 1\nw\nend\n")? == PlanRefused::Late(3));
    // All takes as little as it may.
    let early = "tree\ns 0\nc 0\ns 1\nw\nt 0\nschedule 1 1 1 1 1 1 1 1\nend\n";
    assert!(rt; refused_tree(alloc, early)? == PlanRefused::Late(3));
    Ok(())
}

#[test]
fn a_wrong_text_is_refused(rt: HostRuntime) -> Result<(), Fail> {
    let alloc = rt.alloc();
    let spelled = "tree\ns 0 \nc 0\nend\n";
    match refusal(alloc, CHOICE, SHOWN, spelled)? {
        Some(PlanRefusal::Text(fault)) => {
            assert!(rt; fault == PlanTextFault::Spelling);
        }
        _ => Err("it is no text of a certificate")?,
    }
    Ok(())
}
