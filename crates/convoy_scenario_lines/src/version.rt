/// A version of the lines of a scenario (docs/FORMATS.md, "Certificate text").
#[derive(Clone, Copy, PartialEq, Eq)]
pub enum Version {
    /// The lines of a scenario in whole ticks in which no message may wait, without links and places.
    One,
    /// The lines of a scenario in whole ticks in which no message may wait, without places: lines `link`
    /// may stand after the line `groups`, but none is for the own stamps of a group.
    Two,
    /// The lines of any scenario: the first is a line `time`, which says how time goes, a line `tick`
    /// may follow, and then they are as those of `Two`, but that a line `places` may stand right after
    /// the line `groups`. The line of a message that may wait has the first and the last tick at which it
    /// may be issued, and a link from a group to itself may be for its own stamps, too.
    Three,
}
