//! When a trace tells that something happened.

ghost use Rattle.std.specs.Prelude.{◌≡◌};
ghost use Rattle.convoy_fits.specs.Fits.{end_of, time_told};

use convoy_traces::{Event, Told, is_same_event};

/// When the event of the message is told to have happened.
pub(crate) fn time_told(told: &[Told], message: usize, event: Event) -> Option<u32>
    ensures { result ≡ time_told told.now message event }
{
    for one in told {
        if one.message == message && is_same_event(one.event, event) {
            return Some(one.time);
        }
    }
    None
}

/// The last time that is told; 0 where none is.
pub(crate) fn end_of(told: &[Told]) -> u32
    ensures { result ≡ end_of told.now }
{
    let mut last = 0;
    for one in told {
        last = last.max(one.time);
    }
    last
}
