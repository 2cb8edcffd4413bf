ghost use Rattle.std.specs.Prelude.{◌≡◌};
ghost use Rattle.convoy_timeline.specs.Timeline.{rank, kind_word, is_before, is_before_in_tick, is_before_in_kind};

use self::EntryKind::{Commit, Deliver, Propose};
use convoy_sim::Timestamp;

/// What an entry tells: inside a tick, proposals come first, and deliveries last.
#[derive(Clone, Copy, PartialEq, Eq)]
pub enum EntryKind {
    /// The message arrives at the group, which proposes a local stamp for it.
    Propose,
    /// The group commits the message.
    Commit,
    /// The group delivers the message.
    Deliver,
}

impl EntryKind {
    /// The place of the kind inside a tick.
    fn rank(self) -> u8
        ensures { result ≡ rank self }
    {
        match self {
            Propose => 0,
            Commit => 1,
            Deliver => 2,
        }
    }

    /// The word that stands for the kind in a line.
    pub fn word(self) -> &'static str
        ensures { result.now ≡ kind_word self }
    {
        match self {
            Propose => "propose",
            Commit => "commit",
            Deliver => "deliver",
        }
    }
}

/// What happens to a message at a group, at that tick and with that stamp.
#[derive(Clone, Copy)]
pub struct Entry {
    /// In ticks.
    pub tick: u32,
    /// What happens.
    pub kind: EntryKind,
    /// The number of the message.
    pub message: usize,
    /// The number of the group.
    pub group: usize,
    /// The local stamp where the message is proposed, else its final stamp.
    pub stamp: Timestamp,
}

impl Entry {
    /// This entry is before the other: by tick, and then as in one tick.
    pub fn is_before(&self, other: &Entry) -> bool
        ensures { result ≡ is_before self.now other.now }
    {
        self.tick < other.tick || (self.tick == other.tick && self.is_before_in_tick(other))
    }

    /// In one tick: by kind, and then as among entries of one kind.
    fn is_before_in_tick(&self, other: &Entry) -> bool
        ensures { result ≡ is_before_in_tick self.now other.now }
    {
        let (rank, other_rank) = (self.kind.rank(), other.kind.rank());
        rank < other_rank || (rank == other_rank && self.is_before_in_kind(other))
    }

    /// Among entries of this kind: deliveries by group and final stamp, all others by message and
    /// group.
    fn is_before_in_kind(&self, other: &Entry) -> bool
        ensures { result ≡ is_before_in_kind self.now.kind self.now other.now }
    {
        match self.kind {
            Propose | Commit => {
                self.message < other.message
                    || (self.message == other.message && self.group < other.group)
            }
            Deliver => {
                self.group < other.group
                    || (self.group == other.group && self.stamp.is_less(other.stamp))
            }
        }
    }
}
