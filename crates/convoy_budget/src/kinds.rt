use convoy_scenario::Sender;

/// A way on which packets travel: from a sender to a group.
#[derive(Clone, Copy)]
pub struct Way {
    pub sender: Sender,
    /// The group that it leads to, by number.
    pub to: usize,
}

/// At which end a range gets wider.
#[derive(Clone, Copy)]
pub enum Side {
    /// Packets may come later: the most grows, and the least stays.
    Later,
    /// Packets may come earlier: the least falls, and the most stays.
    Earlier,
}

/// The range of one way, which gets wider at one end.
#[derive(Clone, Copy)]
pub struct Widening {
    pub way: Way,
    pub side: Side,
}

/// What has to keep a deadline.
#[derive(Clone, Copy)]
pub struct Test {
    /// The deadline, in ticks.
    pub deadline: u32,
    /// Whether the ceiling has to keep it, and not just the greatest latency.
    pub of_ceiling: bool,
}

/// How wide a range may get before a deadline is missed. Its breadth is the number of ticks from its least to its most.
#[derive(Clone, Copy)]
pub enum Room {
    /// The deadline is kept even with the widest range that may be written.
    Any,
    /// It is kept with that breadth, and not with one tick more.
    Until { breadth: u16 },
    /// It is kept with that breadth, and it is not known whether it is so with one tick more.
    AtLeast { breadth: u16 },
    /// It is not kept even where packets always take the same time.
    Never,
    /// Nor is it known whether it is kept there.
    Unknown,
    /// Memory ran out, which says nothing of the deadline.
    OutOfMemory,
}

/// A message at a group that it goes to, both by number, with its deadline in ticks.
#[derive(Clone, Copy)]
pub struct Target {
    pub message: usize,
    pub group: usize,
    pub deadline: u32,
}

/// What one way may take before a target misses its deadline, where the other ways stay as they are.
#[derive(Clone, Copy)]
pub struct Budget {
    pub target: Target,
    pub way: Way,
    /// The least and the greatest delay of the way as it is, in ticks.
    pub least: u16,
    pub most: u16,
    /// How wide its range may be from its least on.
    pub later: Room,
    /// How wide its range may be up to its most.
    pub earlier: Room,
}
