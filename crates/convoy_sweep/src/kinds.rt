use convoy_scenario::Name;
use convoy_survey::Finding;
use convoy_toml::WrittenTime;

/// How many rows a sweep has at most; and how many values each of its keys has at most.
pub const MOST_ROWS: usize = 10_000;

/// The greatest number of ticks that a key may be given.
pub const LAST_TICK: u32 = 4_294_967_295;

/// A key of a scenario text that a sweep gives values.
#[derive(Drop)]
pub enum SweepKey {
    /// D, be it written or not: `delay`.
    Delay,
    /// The first time at which the message of that name may be issued: `MESSAGE.at`.
    At(Name),
    /// The last, be it written or not: `MESSAGE.until`.
    Until(Name),
    /// The least delay of the links of a table, one of which leads that way: `FROM-TO.least`.
    Least(Name),
    /// Their greatest delay: `FROM-TO.most`.
    Most(Name),
}

/// Which values a sweep gives a key: those from `from` on in steps, up to at most `to`, as they are written.
#[derive(Drop)]
pub struct Setting {
    pub key: SweepKey,
    pub from: WrittenTime,
    pub to: WrittenTime,
    pub step: WrittenTime,
}

/// One key, or two, with the values that a sweep gives them: with each value of the first come all of the second.
#[derive(Drop)]
pub struct Sweep {
    pub first: Setting,
    pub second: Option<Setting>,
}

/// The values of a setting, in ticks: the first of them, and so many more.
#[derive(Clone, Copy)]
pub(crate) struct ValueRange {
    pub from: u32,
    pub step: u32,
    pub steps: usize,
}

/// The values of both settings of a sweep.
#[derive(Clone, Copy)]
pub(crate) struct Ranges {
    pub outer: ValueRange,
    pub inner: Option<ValueRange>,
}

/// What a key is given, in ticks: a value, or a window from one value to another.
#[derive(Clone, Copy, Debug, PartialEq, Eq)]
pub struct Given {
    pub value: u32,
    /// The end of the window, where it is one.
    pub last: Option<u32>,
}

/// What the keys of a sweep are given in one row.
#[derive(Clone, Copy, Debug, PartialEq, Eq)]
pub struct Point {
    pub first: Given,
    /// Of the second key, where there is one.
    pub second: Option<Given>,
}

/// A row of a sweep.
#[derive(Clone, Copy)]
pub struct Swept {
    pub point: Point,
    /// What a search found of the latency in the scenario that the text makes at the point; or that memory ran out.
    pub finding: Finding,
}
