//! How much work it is to check a certificate (docs/FORMATS.md, "Steps").

ghost use Rattle.std.specs.Prelude.{◌≡◌, ◌≤◌, ◌<◌, ◌+◌, ◌*◌, [], length, All, IfOk};
ghost use Rattle.std.specs.List.{filter};
ghost use Rattle.convoy_draft.specs.declared.limits.TheConstants.{MOST_GROUPS};
ghost use Rattle.convoy_scenario.specs.Scenario.{message_at};
ghost use Rattle.convoy_intervals.specs.Boxes.{IsBox};
ghost use Rattle.convoy_regions.specs.Regions.{IsRegion, any_order};
ghost use Rattle.convoy_regions.specs.Stages.{IsPrecedence};
ghost use Rattle.convoy_stamps.specs.Reach.{pairs_of};
ghost use Rattle.convoy_sure.specs.Windows.{tables_by};
ghost use Rattle.convoy_intervals.specs.Boxes.{Box};
ghost use Rattle.convoy_checker.specs.Steps.{is_late, lead_steps, node_steps, pair_steps, test_count, test_steps, ticks_seen, tie_steps};
ghost use Rattle.convoy_checker.specs.Steps.{windows_asked};

use super::open_region::OpenRegion;
use convoy_certificate::Node;
use convoy_intervals::DelayBox;
use convoy_origin::Origin;
use convoy_origin::widened_laws::widened_region_is_itself;
use convoy_packets::Instance;
use convoy_regions::Precedence;
use convoy_scenario::widened_laws::widened_is_itself;
use convoy_scenario::{AllocResult, MOST_GROUPS, MOST_MULTICASTS, Scenario, Time};
use convoy_stamps::Pair;
use convoy_sure::{LAST_SETTLING, Windows, destinations, list_pairs, target_group};
use std::alloc::Global;

/// How many steps one pair takes in a test of leads at most.
const MOST_PAIR_STEPS: u64 = LAST_SETTLING as u64 + 2;

/// How many pairs a scenario has at most.
const MOST_PAIRS: usize = MOST_MULTICASTS * MOST_GROUPS;

/// How many steps it takes at most to look at a node over its region.
pub(crate) fn node_steps(
    alloc: Global,
    origin: &Origin,
    node: Node,
    region: &OpenRegion,
) -> AllocResult<u64>
    requires inside { IsRegion origin.now region.now }
    ensures { IfOk result (λ steps. steps ≡ node_steps origin.now node region.now) }
{
    let instance = origin.instance();
    match node {
        Node::Split { .. } | Node::Bound => Ok(1),
        Node::Order { .. } => Ok(1 + region.before().len() as u64),
        Node::Point => {
            let ties = tie_steps(alloc, instance, region.before())?;
            Ok(1 + instance.table().len() as u64 + ties)
        }
        Node::Stamp => stamp_steps(alloc, instance.scenario()),
        Node::Lead { latency } => {
            moved_lead_steps(alloc, origin, latency, region.delay_box(), region.before())
        }
    }
}

/// How many steps a lead leaf that names that latency, in ticks, takes at most: those of the widened region.
fn moved_lead_steps(
    alloc: Global,
    origin: &Origin,
    latency: u32,
    delay_box: &DelayBox,
    before: &[Precedence],
) -> AllocResult<u64>
    requires inside { IsBox origin.now delay_box.now }
    requires within { All (IsPrecedence origin.now) before.now }
    ensures { IfOk result (λ steps. steps ≡ node_steps origin.now (Node.Lead latency)
        (record { ranges = delay_box.now; before = before.now })) }
{
    widened_is_itself();
    widened_region_is_itself();
    match origin.moved() {
        None => lead_steps(alloc, origin.instance(), latency, delay_box, before),
        Some(moved) => {
            let wide = origin.moved_box(alloc, moved, delay_box)?;
            lead_steps(alloc, moved, latency, &wide, before)
        }
    }
}

/// How many steps a test of ties takes where there are these precedences: none in whole ticks.
fn tie_steps(alloc: Global, instance: &Instance, before: &[Precedence]) -> AllocResult<u64>
    ensures value { (ranges : Box) → IfOk result (λ steps. steps
        ≡ tie_steps instance.now.time instance.now (record { ranges = ranges; before = before.now })) }
    ensures fits { IfOk result (λ steps. steps ≤ MOST_PAIRS * MOST_PAIRS + length before.now) }
{
    match instance.time() {
        Time::Ticks => Ok(0),
        Time::Real => {
            let pairs = list_pairs(alloc, instance.scenario())?;
            let pairs = pairs.len() as u64;
            Ok(pairs * pairs + before.len() as u64)
        }
    }
}

/// How many steps a stamp leaf takes.
fn stamp_steps(alloc: Global, scenario: &Scenario) -> AllocResult<u64>
    ensures { IfOk result (λ steps. steps ≡ node_steps scenario.now Node.Stamp (any_order [])) }
{
    let pairs = list_pairs(alloc, scenario)?;
    Ok(1 + target_destinations(scenario) * pairs.len() as u64)
}

/// How many steps it takes at most to ask leads of the region of a box and some precedences, for that latency, in ticks.
fn lead_steps(
    alloc: Global,
    instance: &Instance,
    latency: u32,
    delay_box: &DelayBox,
    before: &[Precedence],
) -> AllocResult<u64>
    requires inside { IsBox instance.now delay_box.now }
    ensures { IfOk result (λ steps. steps ≡ lead_steps instance.now
        (record { ranges = delay_box.now; before = before.now }) latency) }
{
    let scenario = instance.scenario();
    let pairs = list_pairs(alloc, scenario)?;
    let windows = Windows::of(alloc, instance, delay_box)?;
    let pairs = pairs.as_slice();
    let tests = test_count(scenario, &windows, pairs, latency);
    let steps = tests * test_steps(scenario, &windows, pairs);
    let asked = windows_asked(before);
    Ok(1 + pairs.len() as u64 + before.len() as u64 + asked * steps)
}

/// Of how many windows leads are asked where there are these precedences.
fn windows_asked(before: &[Precedence]) -> u64
    ensures value { result ≡ windows_asked before.now }
    ensures few { result ≤ 2 }
{
    (1 + before.len() as u64).min(2)
}

/// To how many groups the target goes.
fn target_destinations(scenario: &Scenario) -> u64
    ensures value { result
        ≡ length (message_at scenario.now scenario.now.target_message).destinations }
    ensures fits { result ≤ MOST_GROUPS }
{
    destinations(scenario, scenario.target_message()).len() as u64
}

/// How many tests of leads there are at most where the latency is that one, in ticks.
fn test_count(scenario: &Scenario, windows: &Windows, pairs: &[Pair], latency: u32) -> u64
    requires pairs { pairs.now ≡ pairs_of scenario.now }
    requires messages { All (λ p. p.message < length scenario.now.multicasts) pairs.now }
    requires few { length pairs.now ≤ MOST_PAIRS }
    ensures value { result
        ≡ test_count scenario.now (tables_by windows.now).times latency }
    ensures fits { result ≤ MOST_PAIRS * (2 + 2 * MOST_GROUPS) }
{
    let late = late_pairs(scenario, windows, pairs, latency);
    late as u64 * (2 + 2 * target_destinations(scenario))
}

/// Of how many pairs the message may be committed at the target's group after that latency, in ticks.
fn late_pairs(scenario: &Scenario, windows: &Windows, pairs: &[Pair], latency: u32) -> usize
    requires messages { All (λ p. p.message < length scenario.now.multicasts) pairs.now }
    ensures value { result
        ≡ length (filter (is_late scenario.now (tables_by windows.now).times latency) pairs.now) }
    ensures fits { result ≤ length pairs.now }
{
    let mut late = 0;
    for pair in pairs {
        if is_late(scenario, windows, latency, *pair) {
            late += 1;
        }
    }
    late
}

/// Whether the message of a pair may be committed at the target's group after that latency, in ticks.
fn is_late(scenario: &Scenario, windows: &Windows, latency: u32, pair: Pair) -> bool
    requires { pair.message < length scenario.now.multicasts }
    ensures { result ≡ is_late scenario.now (tables_by windows.now).times latency pair }
{
    let issued = scenario.issue_tick(scenario.target_message());
    let last = windows.greatest_settling(pair.message, target_group(scenario));
    u64::from(issued) + u64::from(latency) < u64::from(last)
}

/// How many steps one test of leads takes at most.
fn test_steps(scenario: &Scenario, windows: &Windows, pairs: &[Pair]) -> u64
    requires pairs { pairs.now ≡ pairs_of scenario.now }
    requires messages { All (λ p. p.message < length scenario.now.multicasts) pairs.now }
    requires groups { All (λ p. p.group < MOST_GROUPS) pairs.now }
    requires few { length pairs.now ≤ MOST_PAIRS }
    ensures value { result ≡ test_steps scenario.now (tables_by windows.now).times }
    ensures fits { result ≤ MOST_PAIRS * MOST_PAIR_STEPS }
{
    let mut steps: u64 = 0;
    for pair in pairs {
        steps += pair_steps(scenario, windows, pairs.len(), *pair);
    }
    steps
}

/// How many steps one pair of so many takes at most in a test of leads.
fn pair_steps(scenario: &Scenario, windows: &Windows, pairs: usize, pair: Pair) -> u64
    requires message { pair.message < length scenario.now.multicasts }
    requires group { pair.group < MOST_GROUPS }
    requires pairs { pairs ≡ length (pairs_of scenario.now) }
    requires few { pairs ≤ MOST_PAIRS }
    ensures value { result ≡ pair_steps scenario.now (tables_by windows.now).times pair }
    ensures fits { result ≤ MOST_PAIR_STEPS }
{
    let committed = windows.greatest_settling(scenario.target_message(), target_group(scenario));
    let last = committed.min(windows.greatest_settling(pair.message, pair.group));
    let first = windows.least_settling(pair.message, pair.group);
    1 + ticks_seen(pairs, (last + 1).saturating_sub(first))
}

/// At how many of so many ticks leads look for starts at most, where there are so many pairs.
fn ticks_seen(pairs: usize, ticks: u32) -> u64
    requires few { pairs ≤ MOST_PAIRS }
    ensures value { result ≡ ticks_seen pairs ticks }
    ensures fits { result ≤ ticks }
{
    u64::from(ticks).min(3 * pairs as u64)
}
