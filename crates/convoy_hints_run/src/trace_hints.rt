//! Hints for traces of real runs.

use convoy_traces::{Cause, TraceFault};
use std::alloc::{AllocError, Global};

/// The hint for a text that is no trace of the scenario.
pub(crate) fn hint_for_trace(alloc: Global, fault: TraceFault) -> Result<String, AllocError> {
    match fault {
        TraceFault::Empty => format!(in alloc;
            "hint: a trace has a line for each event, below one that names the columns: event,message,group,from,time,stamp\n"
        ),
        TraceFault::Line(_, cause) => String::from_str(alloc, hint_for_line(cause)),
        TraceFault::TooFine(parts) => format!(in alloc;
            "hint: drop digits until each time is a whole number of 1/{parts} of a tick, or write the scenario in longer ticks; and count from a start that is near\n"
        ),
        TraceFault::NoPacket => String::from_str(
            alloc,
            "hint: a packet needs two lines: for the issue of a message and its arrival, or for an arrival at the group that proposes and the proposal that comes from there\n",
        ),
        TraceFault::Memory => String::from_str(alloc, ""),
    }
}

/// The hint for a trace of more bytes than that.
pub(crate) fn hint_for_long_trace(alloc: Global, most: usize) -> Result<String, AllocError> {
    format!(in alloc; "hint: a trace is of one run, and has at most {most} bytes\n")
}

/// The hint for what is wrong with a line of a trace.
fn hint_for_line(cause: Cause) -> &'static str {
    match cause {
        Cause::Header => {
            "hint: the first line names the columns: event, message, group and time, and from and stamp where they are told; or each line is an object with these keys\n"
        }
        Cause::Cells => "hint: each line has as many cells as the first one\n",
        Cause::Text => "hint: write the trace in UTF-8\n",
        Cause::Object => "hint: where the first line is an object, each line is one\n",
        Cause::Event => {
            "hint: an event is 'issue', 'arrival', 'proposal', 'commit' or 'delivery'\n"
        }
        Cause::Message => "hint: a trace tells of the messages of the scenario, by their names\n",
        Cause::Group | Cause::Elsewhere => {
            "hint: 'group' is where it happens: one of the groups that the message goes to\n"
        }
        Cause::From => {
            "hint: of a proposal 'from' is the group that proposed, and 'group' the one where it arrives\n"
        }
        Cause::Time => {
            "hint: a time is a duration, as 1.25 ms, or a number of the unit; it is not negative\n"
        }
        Cause::Stamp => "hint: a stamp is a time and a group, as 2.b\n",
        Cause::Twice => {
            "hint: a trace is of one run: each event of a message is told once at a group\n"
        }
        Cause::Late => "hint: count times from a start that is near, or drop digits\n",
        Cause::Name => {
            "hint: a message has any name, and a group one as eu-west_1; of an issue 'group' is the group that sends, or nothing, where a client does\n"
        }
        Cause::Early => {
            "hint: the clocks of the two places differ: set their times right first, or measure round trips\n"
        }
        Cause::TooMany => {
            "hint: name groups of the scenario and not processes: a link is from one group to another\n"
        }
        Cause::Wide => "hint: ask for a longer tick, as '--tick 1ms'\n",
    }
}
