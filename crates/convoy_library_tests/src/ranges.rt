//! Worked tables: what is told is computed by hand.

use convoy_draft::Duration;
use convoy_ranges::{Cause, RangesAsked, RangesFault, Speed, USUAL_TICK, ranges_text};
use std::alloc::Global;
use std::test::Fail;

/// By fibre, with a margin in percent, in ticks of a tenth of a millisecond.
fn asked(margin: u8) -> Result<RangesAsked, Fail> {
    let tick = Duration::from_nanoseconds(USUAL_TICK).ok_or("a tick")?;
    Ok(RangesAsked::new(margin, Speed::Fibre, None, tick).ok_or("rules")?)
}

/// What is written for a table.
fn told(alloc: Global, margin: u8, table: &str) -> Result<Result<String, RangesFault>, Fail> {
    Ok(ranges_text(alloc, &asked(margin)?, table.as_bytes()))
}

#[test]
fn pairs_become_links(rt: HostRuntime) -> Result<(), Fail> {
    let table = "from,to,round_trip,kilometres\n\
        # measured in a week\n\
        eu, us, 97 ms, 6600\n\
        us,eu,88.5,\n\
        eu,eu,0.35 ms,\n";
    let text = told(rt.alloc(), 10, table)??;
    let links = "\n[[link]]\nfrom = \"eu\"\nto = \"us\"\nboth = true\n\
        least = \"33 ms\" # 6600 km at 200 km a millisecond\n\
        most = \"73.7 ms\" # 106.7 ms, the round trip of line 3 with 10 % more, less 33 ms of the way back\n\
        \n[[link]]\nfrom = \"eu\"\nto = \"eu\"\n\
        least = \"0.1 ms\" # no distance is known\n\
        most = \"0.3 ms\" # 0.4 ms, the round trip of line 5 with 10 % more, less 0.1 ms of the way back\n";
    assert!(rt; text.as_str().ends_with(links));
    Ok(())
}

#[test]
fn matrices_become_links(rt: HostRuntime) -> Result<(), Fail> {
    let table = ",tokyo,paris\ntokyo,-,221.25\nparis,219,\n";
    let text = told(rt.alloc(), 0, table)??;
    let links = " up.\n\n[[link]]\nfrom = \"tokyo\"\nto = \"paris\"\nboth = true\n\
        least = \"0.1 ms\" # no distance is known\n\
        most = \"221.2 ms\" # 221.3 ms, the round trip of line 2, less 0.1 ms of the way back\n";
    assert!(rt; text.as_str().ends_with(links));
    Ok(())
}

/// The fault of a table.
fn fault_of(alloc: Global, table: &str) -> Result<RangesFault, Fail> {
    match told(alloc, 0, table)? {
        Ok(_) => Err("the table has ranges")?,
        Err(fault) => Ok(fault),
    }
}

#[test]
fn faults_tell_their_lines(rt: HostRuntime) -> Result<(), Fail> {
    let alloc = rt.alloc();
    assert!(rt; fault_of(alloc, "")? == RangesFault::Empty);
    assert!(rt; fault_of(alloc, "from,to,rtt\n")? == RangesFault::Line(1, Cause::Header));
    let names = "from,to,round_trip\n\na,B,1\n";
    assert!(rt; fault_of(alloc, names)? == RangesFault::Line(3, Cause::Name));
    let times = "from,to,round_trip\na,b,1\na,b,1 h";
    assert!(rt; fault_of(alloc, times)? == RangesFault::Line(3, Cause::Time));
    let near = "from,to,round_trip,kilometres\na,b,1,19\n";
    assert!(rt; fault_of(alloc, near)? == RangesFault::Line(2, Cause::Near));
    let far = "from,to,round_trip,kilometres\na,b,10,1020\nb,a,10.01,\n";
    assert!(rt; fault_of(alloc, far)? == RangesFault::Line(3, Cause::Crossed));
    Ok(())
}
