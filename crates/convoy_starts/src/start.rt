ghost use Rattle.std.specs.Prelude.{◌≡◌, ◌<◌, ◌≤◌, nat_le};
ghost use Rattle.std.specs.List.{list_any};
ghost use Rattle.convoy_starts.specs.Starts.{barred_at, value_for, covers, covers_all, Start};

use super::mosts::Mosts;
use std::marker::Model;

/// A start: the commit of a message at a group at a tick, the most that it can raise the clock there
/// to, and the same for each message that might be committed nowhere before.
#[derive(Drop)]
pub(crate) struct Start {
    at: u32,
    message: usize,
    group: usize,
    base: u32,
    barred: Mosts,
}

impl Model for Start {
    ghost Value = { Start };

    ghost view = { λ s.
        record { at = s.at; message = s.message; group = s.group; base = s.base; barred = s.barred.items } };

    ghost invariant = { λ s. (s.at < 4294967295) × (s.base ≤ 65535) };
}

impl Start {
    /// Such a start.
    pub(crate) fn new(at: u32, message: usize, group: usize, base: u32, barred: Mosts) -> Start
        requires at { at < u32.MAX }
        requires base { base ≤ u16.MAX }
        ensures { result ≡ record {
          at = at;
          message = message;
          group = group;
          base = base;
          barred = barred.items;
        } }
    {
        Start {
            at,
            message,
            group,
            base,
            barred,
        }
    }

    /// Its tick.
    pub(crate) fn at(&self) -> u32
        ensures value { result ≡ self.now.at }
        ensures soon { result < u32.MAX }
    {
        self.at
    }

    /// Its message.
    pub(crate) fn message(&self) -> usize
        ensures { result ≡ self.now.message }
    {
        self.message
    }

    /// Its group.
    pub(crate) fn group(&self) -> usize
        ensures { result ≡ self.now.group }
    {
        self.group
    }

    /// The most that it gives where a message is committed nowhere before.
    fn barred_at(&self, message: usize) -> u32
        ensures { result ≡ barred_at self.now message }
    {
        self.barred.get(message).copied().unwrap_or(self.base)
    }

    /// The most that it gives where both messages are committed nowhere before.
    pub(crate) fn value_for(&self, x: usize, q: usize) -> u32
        ensures value { result ≡ value_for self.now x q }
        ensures small { result ≤ u16.MAX }
    {
        self.base.min(self.barred_at(x).min(self.barred_at(q)))
    }

    /// That of two messages for which it gives less where the message is committed nowhere before: the
    /// first where it gives as much for both.
    pub(crate) fn lesser_bar(&self, x: usize, q: usize) -> usize {
        if self.barred_at(q) < self.barred_at(x) {
            q
        } else {
            x
        }
    }

    /// Whether it gives all that a later one of the same message and group gives.
    fn covers(&self, new: &Start) -> bool
        ensures { result ≡ covers self.now new.now }
    {
        self.message == new.message
            && self.group == new.group
            && new.base <= self.base
            && covers_all(&self.barred, &new.barred)
    }
}

/// Whether no value of the first list is less than that of the second.
fn covers_all(old: &[u32], new: &[u32]) -> bool
    ensures { result ≡ covers_all old.now new.now }
{
    let mut i = 0;
    while i < old.len() {
        if i >= new.len() {
            return false;
        }
        if old[i] < new[i] {
            return false;
        }
        i += 1;
    }
    true
}

/// Whether one of the starts covers another.
pub(crate) fn is_covered(starts: &[Start], new: &Start) -> bool
    ensures { result ≡ list_any (λ old. covers old new.now) starts.now }
{
    for old in starts {
        if old.covers(new) {
            return true;
        }
    }
    false
}
