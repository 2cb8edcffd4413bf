//! Worked traces: what is told is computed by hand.

use convoy_draft::{Duration, TimeUnit};
use convoy_ranges::{RangesAsked, Speed};
use convoy_scenario::{MessageParts, Scenario, ScenarioParts, Time};
use convoy_tables::Format;
use convoy_trace_ranges::{
    beside_answer, links_of_text, shares_of, trace_ranges_text, trace_table_text,
};
use convoy_traces::{Cause, TraceFault};
use std::alloc::Global;
use std::test::Fail;

/// A run of a message to two groups, and another that came to one of them.
const TRACE: &str = "event,message,group,from,time\n\
    arrival,t-1,a,,1.25\nissue,t-1,,,1\narrival,t-1,b,,3\n# a comment\n\
    proposal,t-1,b,a,2 ms\nproposal,t-1,a,a,1.5\ncommit,t-1,b,,9\n\
    issue,t-2,b,,5\narrival,t-2,a,,5.5\nproposal,t-2,a,c,6\n";

/// In ticks of a tenth of a millisecond, with a margin in percent.
fn asked(margin: u8) -> Result<RangesAsked, Fail> {
    let tick = Duration::from_nanoseconds(100_000).ok_or("a tick")?;
    Ok(RangesAsked::new(margin, Speed::Fibre, None, tick).ok_or("rules")?)
}

#[test]
fn packets_become_links(rt: HostRuntime) -> Result<(), Fail> {
    let text = trace_ranges_text(
        rt.alloc(),
        &asked(10)?,
        TimeUnit::Milliseconds,
        TRACE.as_bytes(),
    )?;
    let first = "\n[[link]]\nto = \"a\"\n\
        least = \"0.2 ms\" # 0.25 ms, the least of 1 packet, with 10 % less\n\
        most = \"0.3 ms\" # 0.25 ms, the greatest of 1 packet, with 10 % more; half within 0.25 ms, 90 % within 0.25 ms, 99 % within 0.25 ms, 99.9 % within 0.25 ms\n\
        \n[[link]]\nto = \"b\"\n";
    assert!(rt; text.as_str().contains(first));
    assert!(rt;
        text.as_str()
            .contains("\n[[link]]\nfrom = \"b\"\nto = \"a\"\n")
    );
    Ok(())
}

#[test]
fn links_have_rows(rt: HostRuntime) -> Result<(), Fail> {
    let alloc = rt.alloc();
    let text = trace_table_text(alloc, Format::Csv, TimeUnit::Milliseconds, TRACE.as_bytes())?;
    let rows = "from,to,packets,least,p50,p90,p99,p99.9,greatest,unit\n\
        client,a,1,0.25,0.25,0.25,0.25,0.25,0.25,ms\n\
        client,b,1,2,2,2,2,2,2,ms\n\
        a,b,1,0.75,0.75,0.75,0.75,0.75,0.75,ms\n\
        b,a,1,0.5,0.5,0.5,0.5,0.5,0.5,ms\n";
    assert!(rt; text.as_slice() == rows.as_bytes());
    Ok(())
}

#[test]
fn shares_are_delays(rt: HostRuntime) -> Result<(), Fail> {
    let shares = shares_of(rt.alloc(), &[40, 10, 30, 20])?;
    assert!(rt; shares.half == 20 && shares.most == 40);
    assert!(rt; shares.nearly_all == 40 && shares.all_but_few == 40);
    Ok(())
}

/// The first packet of that run, in ticks.
const COUNTED: &str = "event,message,group,from,time\nissue,t-1,,,1\narrival,t-1,a,,1.25\n";

/// Two groups, in ticks of no known length, of which a packet takes up to three.
fn pair(alloc: Global) -> Result<Scenario, Fail> {
    let parts = ScenarioParts {
        time: Time::Ticks,
        tick: None,
        delay: 3,
        groups: &["a", "b"],
        places: &[],
        links: &[],
        messages: &[MessageParts {
            name: "m",
            sender: None,
            to: &["a", "b"],
            at: 0,
            until: 0,
        }],
        target_message: "m",
        target_group: "a",
    };
    Ok(Scenario::new(alloc, &parts)?)
}

#[test]
fn ranges_are_left(rt: HostRuntime) -> Result<(), Fail> {
    let alloc = rt.alloc();
    let (left, text) = beside_answer(alloc, Format::Csv, None, &pair(alloc)?, COUNTED.as_bytes())?;
    assert!(rt; left);
    let rows = "from,to,packets,below,above,least,most,least_seen,most_seen,unit\n\
        client,a,1,1,0,1,3,0.25,0.25,\n";
    assert!(rt; text.as_slice() == rows.as_bytes());
    Ok(())
}

/// The fault of a text.
fn fault_of(alloc: Global, text: &str) -> Result<TraceFault, Fail> {
    match links_of_text(alloc, Some(TimeUnit::Milliseconds), text.as_bytes()) {
        Ok(_) => Err("the text has links")?,
        Err(fault) => Ok(fault),
    }
}

#[test]
fn faults_tell_their_lines(rt: HostRuntime) -> Result<(), Fail> {
    let alloc = rt.alloc();
    assert!(rt; fault_of(alloc, "")? == TraceFault::Empty);
    let name = "event,message,group,time\nissue,,,0\n";
    assert!(rt; fault_of(alloc, name)? == TraceFault::Line(2, Cause::Name));
    let twice = "event,message,group,time\nissue,m,,0\nissue,m,a,1\n";
    assert!(rt; fault_of(alloc, twice)? == TraceFault::Line(3, Cause::Twice));
    let early = "event,message,group,time\narrival,m,a,1\nissue,m,,2\n";
    assert!(rt; fault_of(alloc, early)? == TraceFault::Line(2, Cause::Early));
    let lonely = "event,message,group,time\nissue,m,a,1\narrival,m,a,2\n";
    assert!(rt; fault_of(alloc, lonely)? == TraceFault::NoPacket);
    Ok(())
}
