//! Callers of the library.

use crate::scenarios::{base, swapped};
use crate::{
    Answer, Fault, Judgement, check_certificate, exchange, greatest_latency, greatest_latency_by,
    judge_timeout, latency_under, timeout_in_traffic,
};
use convoy_certificate::TextFault;
use convoy_checker::Refused;
use convoy_packets::{Instance, ListFault};
use convoy_scenario::{Limit, ScenarioFault};
use convoy_scenario_lines::Expected;
use std::alloc::Global;
use std::test::Fail;

/// The base scenario of docs/PROTOCOL.md.
const BASE: &str = r#"
delay = 3
groups = ["a", "b"]
multicast = [
  { name = "x", to = ["b"], at = 0 },
  { name = "t", to = ["a", "b"], at = 0 },
  { name = "y", from = "a", to = ["a", "b"], at = 6 },
]
target = { message = "t", group = "a" }
"#;

#[test]
fn latencies_under_schedules(rt: HostRuntime) {
    let alloc = rt.alloc();
    for (schedule, want) in [
        ([1; 8].as_slice(), Ok(2)),
        ([3; 8].as_slice(), Ok(12)),
        ([3; 7].as_slice(), Err(Fault::Schedule(ListFault::Length))),
        (
            [3, 3, 3, 3, 4, 3, 3, 3].as_slice(),
            Err(Fault::Schedule(ListFault::Range(4))),
        ),
    ] {
        assert!(rt; latency_under(alloc, BASE.as_bytes(), schedule) == want);
    }
    let too_long =
        b"delay = 17\ngroups = [\"a\"]\nmulticast = []\ntarget = { message = \"t\", group = \"a\" }\n";
    assert!(rt;
        latency_under(alloc, too_long, &[])
            == Err(Fault::Scenario(ScenarioFault::OverLimit(Limit::Delay)))
    );
}

/// What a certificate of the base scenario with that latency and those nodes vouches for: the latency, and the greatest
/// delay of the scenario.
fn vouched(alloc: Global, latency: u32, nodes: &str) -> Result<(u32, u16), Fault> {
    let text = format!(in alloc;
        "convoy 1
delay 3
groups a b
multicast x client 0 b
multicast t client 0 a b
multicast y a 6 a b
target t a
latency {latency}
schedule 3 3 3 3 3 3 3 3
{nodes}end
"
    )?;
    let vouched = check_certificate(alloc, text.as_bytes())?;
    Ok((vouched.latency, vouched.scenario.delay()))
}

#[test]
fn certificates_vouch(rt: HostRuntime) {
    for (latency, nodes, want) in [
        (12, "b\n", Ok((12, 3))),
        (11, "b\n", Err(Fault::Invalid(Refused::Latency(12)))),
        (12, "b\nb\n", Err(Fault::Invalid(Refused::TreeCount))),
        (
            12,
            "c\n",
            Err(Fault::Text(TextFault::Line(10, Expected::Node))),
        ),
    ] {
        assert!(rt;
            vouched(rt.alloc(), latency, nodes) == want,
            "latency {latency} {nodes}"
        );
    }
}

#[test]
fn greatest_latencies(rt: HostRuntime) -> Result<(), Fail> {
    let alloc = rt.alloc();
    let (first, second) = (base(alloc)?, swapped(alloc)?);
    assert!(rt; greatest_latency(alloc, &first, 1) == Ok(Answer::Exactly(12)));
    assert!(rt; greatest_latency(alloc, &second, 1_469) == Ok(Answer::Exactly(6)));
    let open = Answer::Between { least: 6, most: 12 };
    assert!(rt; greatest_latency(alloc, &second, 10) == Ok(open));
    assert!(rt; greatest_latency_by(&rt, alloc, &second, 1, 10) == Ok(open));
    assert!(rt; greatest_latency_by(&rt, alloc, &second, 4, 100_000) == Ok(Answer::Exactly(6)));
    Ok(())
}

#[test]
fn timeouts_are_judged(rt: HostRuntime) -> Result<(), Fail> {
    let alloc = rt.alloc();
    let (first, second) = (base(alloc)?, swapped(alloc)?);
    assert!(rt; judge_timeout(alloc, &first, 12, 1) == Ok(Judgement::Enough));
    assert!(rt; judge_timeout(alloc, &second, 5, 10) == Ok(Judgement::TooShort(6)));
    let unknown = Judgement::Unknown { least: 6, most: 12 };
    assert!(rt; judge_timeout(alloc, &second, 6, 10) == Ok(unknown));
    assert!(rt; judge_timeout(alloc, &second, 6, 1_469) == Ok(Judgement::Enough));
    // The ceiling does not look at stamps, so the order of the groups makes no difference.
    assert!(rt; timeout_in_traffic(first.scenario()) == 12);
    assert!(rt; timeout_in_traffic(second.scenario()) == 12);
    Ok(())
}

/// The greatest latency of a message alone, or why there is no such scenario.
fn exchanged(alloc: Global, delay: u32) -> Result<Answer, Fault> {
    let instance = Instance::of(alloc, exchange(alloc, delay)?)?;
    Ok(greatest_latency(alloc, &instance, 1)?)
}

/// A message alone takes twice the greatest delay: on its way, and with its stamps on theirs.
#[test]
fn exchanges_take_two_delays(rt: HostRuntime) {
    let too_long = Err(Fault::Scenario(ScenarioFault::OverLimit(Limit::Delay)));
    for (delay, want) in [
        (0, too_long),
        (1, Ok(Answer::Exactly(2))),
        (3, Ok(Answer::Exactly(6))),
        (16, Ok(Answer::Exactly(32))),
        (17, too_long),
    ] {
        assert!(rt; exchanged(rt.alloc(), delay) == want, "delay {delay}");
    }
}

#[test]
fn faults_tell_themselves(rt: HostRuntime) -> Result<(), Fail> {
    let alloc = rt.alloc();
    for (fault, want) in [
        (
            Fault::Scenario(ScenarioFault::UnknownTarget),
            "the scenario is faulty: the target's message is not known",
        ),
        (
            Fault::Schedule(ListFault::Range(4)),
            "the delays are no schedule of the scenario: the schedule gives packet 4 a delay that it may not take",
        ),
        (
            Fault::Text(TextFault::AfterEnd),
            "the text is no certificate: the text goes on after the line `end`",
        ),
        (
            Fault::Invalid(Refused::TreeCount),
            "the certificate is not valid: the nodes are not one whole tree",
        ),
        (Fault::Memory, "out of memory"),
    ] {
        let line = format!(in alloc; "{fault}")?;
        assert!(rt; line.as_str() == want);
    }
    Ok(())
}
