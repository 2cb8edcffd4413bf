ghost use Rattle.std.specs.Prelude.{◌≡◌, [], ◌==◌, ◌&&◌, length};

use super::mosts::Mosts;
use arrayvec::ArrayVec;
use std::marker::Model;

/// A memo of the stamp of a message at a group, where it arrives there by a tick: the most that it can
/// be, for each of the bars.
#[derive(Drop)]
pub(crate) struct Memo {
    message: usize,
    group: usize,
    by: u32,
    stamps: Mosts,
}

impl Model for Memo {
    ghost use Rattle.convoy_starts.specs.Mosts.{Memo};

    ghost Value = { Memo };

    ghost view = { λ t. record { message = t.message; group = t.group; by = t.by; stamps = t.stamps.items } };
}

impl Memo {
    /// A memo of nothing.
    pub(crate) fn nothing() -> Memo
        ensures { result ≡ record { message = 0; group = 0; by = 0; stamps = [] } }
    {
        Memo::new(0, 0, 0, ArrayVec::new())
    }

    /// Such a memo.
    pub(crate) fn new(message: usize, group: usize, by: u32, stamps: Mosts) -> Memo
        ensures { result ≡ record { message = message; group = group; by = by; stamps = stamps.items } }
    {
        Memo {
            message,
            group,
            by,
            stamps,
        }
    }

    /// Whether it is of the stamp of that message at that group, by that tick.
    pub(crate) fn is_of(&self, message: usize, group: usize, by: u32) -> bool
        ensures { result ≡ ((self.now.message == message) && (self.now.group == group) && (self.now.by == by)) }
    {
        self.message == message && self.group == group && self.by == by
    }

    /// The most that the stamp can be, for each of the bars.
    pub(crate) fn stamps(&self) -> &[u32]
        ensures { result.now ≡ self.now.stamps }
    {
        &self.stamps
    }
}
