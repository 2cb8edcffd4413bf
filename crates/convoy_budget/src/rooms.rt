//! What rooms say of a row.

ghost use Rattle.std.specs.Prelude.{◌≡◌, ◌-◌, ◌||◌};
ghost use Rattle.convoy_budget.specs.Cells.{answer_word, breadth_kept, is_beyond, is_fault, is_open, is_row_beyond, is_row_fault, is_row_open, least_from, left_over, most_until};

use super::kinds::{Budget, Room};

/// The breadth, in ticks, that is known to keep the deadline, where that is neither any nor none.
fn breadth_kept(room: Room) -> Option<u16>
    ensures { result ≡ breadth_kept room }
{
    match room {
        Room::Until { breadth } | Room::AtLeast { breadth } => Some(breadth),
        Room::Any | Room::Never | Room::Unknown | Room::OutOfMemory => None,
    }
}

/// Whether not all is known that is asked.
fn is_open(room: Room) -> bool
    ensures { result ≡ is_open room }
{
    match room {
        Room::AtLeast { .. } | Room::Unknown => true,
        Room::Any | Room::Until { .. } | Room::Never | Room::OutOfMemory => false,
    }
}

/// Whether memory ran out.
fn is_fault(room: Room) -> bool
    ensures { result ≡ is_fault room }
{
    match room {
        Room::OutOfMemory => true,
        Room::Any | Room::Until { .. } | Room::AtLeast { .. } | Room::Never | Room::Unknown =>
            false,
    }
}

/// Whether a range of that breadth is wider than the deadline allows.
fn is_beyond(today: u16, room: Room) -> bool
    ensures { result ≡ is_beyond today room }
{
    match room {
        Room::Until { breadth } => breadth < today,
        Room::Never => true,
        Room::Any | Room::AtLeast { .. } | Room::Unknown | Room::OutOfMemory => false,
    }
}

impl Budget {
    /// Whether not all is known that is asked of its way.
    pub fn is_open(&self) -> bool
        ensures { result ≡ is_row_open self.now }
    {
        is_open(self.later) || is_open(self.earlier)
    }

    /// Whether memory ran out for it.
    pub fn is_fault(&self) -> bool
        ensures { result ≡ is_row_fault self.now }
    {
        is_fault(self.later) || is_fault(self.earlier)
    }

    /// Whether the range as it is is wider than the deadline allows.
    pub fn is_beyond(&self) -> bool
        ensures { result ≡ is_row_beyond self.now }
    {
        let today = self.most.saturating_sub(self.least);
        is_beyond(today, self.later) || is_beyond(today, self.earlier)
    }

    /// The words for what is known: of a fault those of its line.
    pub fn answer(&self) -> &'static str
        ensures { result.now ≡ answer_word self.now }
    {
        if self.is_fault() {
            "fault 11 out of memory"
        } else if self.is_open() {
            "open"
        } else {
            "exact"
        }
    }

    /// The greatest most, in ticks, that is known to keep the deadline, where that is neither any nor none.
    pub fn most_until(&self) -> Option<u32>
        ensures { result ≡ most_until self.now }
    {
        match breadth_kept(self.later) {
            Some(breadth) => Some(u32::from(self.least) + u32::from(breadth)),
            None => None,
        }
    }

    /// The least least, in ticks, that is known to keep the deadline, where that is neither any nor none.
    pub fn least_from(&self) -> Option<u32>
        ensures { result ≡ least_from self.now }
    {
        match breadth_kept(self.earlier) {
            Some(breadth) => Some(u32::from(self.most.saturating_sub(breadth))),
            None => None,
        }
    }

    /// By how many ticks the most may grow, where that is known and it need not fall.
    pub fn left_over(&self) -> Option<u32>
        ensures { result ≡ left_over self.now }
    {
        let most = u32::from(self.most);
        match self.most_until() {
            Some(until) if most <= until => Some(until - most),
            _ => None,
        }
    }
}
