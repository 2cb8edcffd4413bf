//! Worked traces: what is told is computed by hand.

use convoy_scenario::{MessageParts, Scenario, ScenarioParts, Time, TimeUnit};
use convoy_traces::{
    Cause, Clock, Event, Stamp, Told, Trace, TraceFault, is_same_event, trace_of_text,
};
use std::alloc::Global;
use std::test::Fail;

/// A message to two groups, in ticks of a millisecond of which a packet takes three at most.
fn exchange(alloc: Global) -> Result<Scenario, Fail> {
    let parts = ScenarioParts {
        time: Time::Real,
        tick: None,
        delay: 3,
        groups: &["a", "b"],
        places: &[],
        links: &[],
        messages: &[MessageParts {
            name: "m",
            sender: None,
            to: &["a", "b"],
            at: 0,
            until: 0,
        }],
        target_message: "m",
        target_group: "a",
    };
    Ok(Scenario::new(alloc, &parts)?)
}

/// What a text tells where a tick is a millisecond.
fn read(alloc: Global, text: &str) -> Result<Result<Trace, TraceFault>, Fail> {
    let clock = Clock {
        tick: 1_000_000,
        unit: Some(TimeUnit::Milliseconds),
    };
    Ok(trace_of_text(alloc, &exchange(alloc)?, clock, text.as_bytes()))
}

/// Whether that is told in such a line.
fn is_line(told: &Told, line: usize, event: Event, time: u32) -> bool {
    told.line == line && told.message == 0 && told.time == time && is_same_event(told.event, event)
}

#[test]
fn lines_are_told_in_fine_ticks(rt: HostRuntime) -> Result<(), Fail> {
    let text =
        "time,message,event,group,from,stamp\n0,m,issue,,,\n# a comment\n1.25 ms,m,arrival,b,,1.b\n2,m,proposal,a,b,1.b\n";
    let trace = read(rt.alloc(), text)??;
    assert!(rt; trace.factor() == 4);
    let told = trace.told();
    assert!(rt; told.len() == 3);
    assert!(rt; is_line(&told[0], 2, Event::Issue, 0));
    assert!(rt; is_line(&told[1], 4, Event::Arrival(1), 5));
    assert!(rt; is_line(&told[2], 5, Event::Proposal(0, 1), 8));
    assert!(rt; told[1].stamp == Some(Stamp { time: 1, group: 1 }));
    Ok(())
}

#[test]
fn objects_are_lines(rt: HostRuntime) -> Result<(), Fail> {
    let text = "{\"event\": \"issue\", \"message\": \"m\", \"time\": 0}\n\
        {\"event\": \"delivery\", \"message\": \"m\", \"group\": \"b\", \"time\": \"3 ms\", \"stamp\": \"2.a\"}\n";
    let trace = read(rt.alloc(), text)??;
    assert!(rt; trace.factor() == 1);
    let told = trace.told();
    assert!(rt; told.len() == 2);
    assert!(rt; is_line(&told[1], 2, Event::Delivery(1), 3));
    Ok(())
}

/// The fault of a text.
fn fault_of(alloc: Global, text: &str) -> Result<TraceFault, Fail> {
    match read(alloc, text)? {
        Ok(_) => Err("the text is a trace")?,
        Err(fault) => Ok(fault),
    }
}

#[test]
fn faults_tell_their_lines(rt: HostRuntime) -> Result<(), Fail> {
    let alloc = rt.alloc();
    assert!(rt; fault_of(alloc, "\n")? == TraceFault::Empty);
    assert!(rt; fault_of(alloc, "event,message,time\n")? == TraceFault::Line(1, Cause::Header));
    let unknown = "event,message,group,time\nissue,n,,0\n";
    assert!(rt; fault_of(alloc, unknown)? == TraceFault::Line(2, Cause::Message));
    let twice = "event,message,group,time\ncommit,m,a,1\n\ncommit,m,a,2\n";
    assert!(rt; fault_of(alloc, twice)? == TraceFault::Line(4, Cause::Twice));
    let negative = "event,message,group,time\ncommit,m,a,-1\n";
    assert!(rt; fault_of(alloc, negative)? == TraceFault::Line(2, Cause::Time));
    let from = "event,message,group,time\nproposal,m,a,1\n";
    assert!(rt; fault_of(alloc, from)? == TraceFault::Line(2, Cause::From));
    let fine = "event,message,group,time\ncommit,m,a,0.00001\n";
    assert!(rt; fault_of(alloc, fine)? == TraceFault::TooFine(21_845));
    Ok(())
}
