//! Worked traces of the base example of docs/PROTOCOL.md, in real time: t is delivered at a at tick 12.

use convoy_fits::{Departure, Verdict, judge};
use convoy_scenario::{LinkParts, MessageParts, Scenario, ScenarioParts, Time};
use convoy_traces::{Clock, Event, trace_of_text};
use std::alloc::Global;
use std::test::Fail;

/// Two groups; no packet takes more than 3 ticks. Clients send x to b and t to both at tick 0, and a sends y to both at
/// tick 6.
fn base(alloc: Global) -> Result<Scenario, Fail> {
    let parts = ScenarioParts {
        time: Time::Real,
        tick: None,
        delay: 3,
        groups: &["a", "b"],
        places: &[],
        links: &[],
        messages: &[
            MessageParts {
                name: "x",
                sender: None,
                to: &["b"],
                at: 0,
                until: 0,
            },
            MessageParts {
                name: "t",
                sender: None,
                to: &["a", "b"],
                at: 0,
                until: 0,
            },
            MessageParts {
                name: "y",
                sender: Some("a"),
                to: &["a", "b"],
                at: 6,
                until: 6,
            },
        ],
        target_message: "t",
        target_group: "a",
    };
    Ok(Scenario::new(alloc, &parts)?)
}

/// The worst run of the base example, in ticks, up to the deliveries at a.
const WORST: &str = "event,message,group,from,time,stamp\n\
    issue,x,,,0,\nissue,t,,,0,\nissue,y,,,6,\n\
    arrival,x,b,,3,1.b\narrival,t,b,,3,2.b\narrival,t,a,,3,1.a\n\
    proposal,t,a,b,6,2.b\nproposal,t,b,a,6,1.a\n\
    arrival,y,a,,6,2.a\narrival,y,b,,9,3.b\n\
    proposal,y,a,b,12,3.b\nproposal,y,b,a,9,2.a\n\
    commit,t,a,,6,2.b\ncommit,y,a,,12,3.b\n\
    delivery,x,b,,3,1.b\ndelivery,t,b,,6,2.b\ndelivery,y,b,,9,3.b\n";

/// What is judged of a run of the base example with these lines below, by clocks that are right within the skew.
fn judged(alloc: Global, run: &str, lines: &str, skew: u32) -> Result<Verdict, Fail> {
    let scenario = base(alloc)?;
    judged_in(alloc, &scenario, run, lines, skew)
}

/// The same of a run of another scenario.
fn judged_in(
    alloc: Global,
    scenario: &Scenario,
    run: &str,
    lines: &str,
    skew: u32,
) -> Result<Verdict, Fail> {
    let clock = Clock {
        tick: 1_000_000_000,
        unit: None,
    };
    let mut text = String::from_str(alloc, run)?;
    text.push_str(lines)?;
    let trace = trace_of_text(alloc, scenario, clock, text.as_str().as_bytes())?;
    Ok(judge(alloc, scenario, &trace, skew)?)
}

#[test]
fn worst_run_fits(rt: HostRuntime) -> Result<(), Fail> {
    let lines = "delivery,t,a,,12,2.b\ndelivery,y,a,,12,3.b\n";
    let verdict = judged(rt.alloc(), WORST, lines, 0)?;
    assert!(rt; matches!(&verdict, Verdict::Fits(Some(12))));
    Ok(())
}

#[test]
fn run_that_ends_early_fits(rt: HostRuntime) -> Result<(), Fail> {
    let verdict = judged(rt.alloc(), WORST, "", 0)?;
    assert!(rt; matches!(&verdict, Verdict::Fits(None)));
    Ok(())
}

/// The same worst run by the clock of b, which is a fine tick ahead: what comes to b comes so, and what it sends.
const AHEAD: &str = "event,message,group,from,time,stamp\n\
    issue,x,,,0,\nissue,t,,,0,\nissue,y,,,6,\n\
    arrival,x,b,,4,1.b\narrival,t,b,,4,2.b\narrival,t,a,,3,1.a\n\
    proposal,t,a,b,6,2.b\nproposal,t,b,a,7,1.a\n\
    arrival,y,a,,6,2.a\narrival,y,b,,10,3.b\n\
    proposal,y,a,b,12,3.b\nproposal,y,b,a,10,2.a\n\
    commit,t,a,,6,2.b\ncommit,y,a,,12,3.b\n\
    delivery,x,b,,4,1.b\ndelivery,t,b,,7,2.b\ndelivery,y,b,,10,3.b\n\
    delivery,t,a,,12,2.b\ndelivery,y,a,,12,3.b\n";

#[test]
fn run_by_a_clock_that_is_ahead_fits_within_as_much(rt: HostRuntime) -> Result<(), Fail> {
    let verdict = judged(rt.alloc(), AHEAD, "", 1)?;
    assert!(rt; matches!(&verdict, Verdict::Fits(Some(12))));
    Ok(())
}

#[test]
fn run_by_a_clock_that_is_ahead_departs_without_a_skew(rt: HostRuntime) -> Result<(), Fail> {
    let verdict = judged(rt.alloc(), AHEAD, "", 0)?;
    assert!(rt; matches!(&verdict, Verdict::Outside(Departure::Packet(_, 0, 4, 1, 3))));
    Ok(())
}

#[test]
fn delivery_before_a_lesser_stamp_departs(rt: HostRuntime) -> Result<(), Fail> {
    let lines = "delivery,t,a,,6,2.b\ndelivery,y,a,,12,3.b\n";
    let verdict = judged(rt.alloc(), WORST, lines, 0)?;
    let departs = match verdict {
        Verdict::Departs(Departure::Moment(one, moment)) => {
            one.message == 1
                && one.time == 6
                && moment == 12
                && matches!(&one.event, Event::Delivery(0))
        }
        _ => false,
    };
    assert!(rt; departs);
    Ok(())
}

/// A group sends itself m at tick 0, and has a link to itself of 2 to 3 ticks, for its messages alone or for its stamps, too.
fn own_message(alloc: Global, stamps: bool) -> Result<Scenario, Fail> {
    let parts = ScenarioParts {
        time: Time::Real,
        tick: None,
        delay: 3,
        groups: &["a"],
        places: &[],
        links: &[LinkParts {
            sender: Some("a"),
            to: "a",
            least: 2,
            most: 3,
            stamps,
        }],
        messages: &[MessageParts {
            name: "m",
            sender: Some("a"),
            to: &["a"],
            at: 0,
            until: 0,
        }],
        target_message: "m",
        target_group: "a",
    };
    Ok(Scenario::new(alloc, &parts)?)
}

/// Its issue; the arrival, the commit and the delivery of m come below.
const OWN: &str = "event,message,group,from,time,stamp\nissue,m,,,0,\n";

#[test]
fn own_message_by_a_link_fits_in_its_range(rt: HostRuntime) -> Result<(), Fail> {
    let scenario = own_message(rt.alloc(), false)?;
    let lines = "arrival,m,a,,2,1.a\ncommit,m,a,,2,1.a\ndelivery,m,a,,2,1.a\n";
    let verdict = judged_in(rt.alloc(), &scenario, OWN, lines, 0)?;
    assert!(rt; matches!(&verdict, Verdict::Fits(Some(2))));
    Ok(())
}

#[test]
fn own_message_by_a_link_departs_at_once(rt: HostRuntime) -> Result<(), Fail> {
    let scenario = own_message(rt.alloc(), false)?;
    let lines = "arrival,m,a,,0,1.a\ncommit,m,a,,0,1.a\ndelivery,m,a,,0,1.a\n";
    let verdict = judged_in(rt.alloc(), &scenario, OWN, lines, 0)?;
    assert!(rt; matches!(&verdict, Verdict::Outside(Departure::Packet(_, 0, 0, 2, 3))));
    Ok(())
}

#[test]
fn own_stamp_by_a_link_fits_in_its_range(rt: HostRuntime) -> Result<(), Fail> {
    let scenario = own_message(rt.alloc(), true)?;
    let lines =
        "arrival,m,a,,2,1.a\nproposal,m,a,a,5,1.a\ncommit,m,a,,5,1.a\ndelivery,m,a,,5,1.a\n";
    let verdict = judged_in(rt.alloc(), &scenario, OWN, lines, 0)?;
    assert!(rt; matches!(&verdict, Verdict::Fits(Some(5))));
    Ok(())
}

#[test]
fn own_stamp_by_a_link_departs_at_once(rt: HostRuntime) -> Result<(), Fail> {
    let scenario = own_message(rt.alloc(), true)?;
    let lines =
        "arrival,m,a,,2,1.a\nproposal,m,a,a,2,1.a\ncommit,m,a,,2,1.a\ndelivery,m,a,,2,1.a\n";
    let verdict = judged_in(rt.alloc(), &scenario, OWN, lines, 0)?;
    assert!(rt; matches!(&verdict, Verdict::Outside(Departure::Packet(_, 2, 2, 2, 3))));
    Ok(())
}

#[test]
fn arrival_before_an_own_stamp_need_not_be_told(rt: HostRuntime) -> Result<(), Fail> {
    let scenario = own_message(rt.alloc(), true)?;
    let lines = "commit,m,a,,4,1.a\ndelivery,m,a,,4,1.a\n";
    let verdict = judged_in(rt.alloc(), &scenario, OWN, lines, 0)?;
    assert!(rt; matches!(&verdict, Verdict::Fits(Some(4))));
    Ok(())
}
