//! The ledger, and the clerks that draw on it.

ghost use Rattle.std.specs.Prelude.{◌≡◌, ◌≢◌, ◌+◌, ◌-◌, ◌/◌, ◌<◌, ◌≤◌, ◌||◌, [], ◌∷◌, ◌++◌};
ghost use Rattle.std.specs.Prelude.{true, false, length, All, IfOk, IfErr, IfSome, IfNone, IsNone, OnErr};
ghost use Rattle.convoy_shares.specs.Shares.{whole};
ghost use Rattle.convoy_ledger.specs.Tickets.{most_tickets, HasAll};

use super::fault::ClerksOut;
use super::rule::{CountsDraws, Draw, Halve, View, Weigh};
use atomic_table::{Seat, Table};
use convoy_shares::{ShareTooSmall, WHOLE};
use std::alloc::{AllocError, Global};
use std::fmt;
use std::marker::Model;

/// So many tickets, numbered from 0, which clerks draw. Threads share a ledger by `&`, each with a
/// clerk of its own: no call on a shared ledger takes memory or waits for another thread.
#[derive(Drop)]
pub struct Ledger {
    table: Table<(), View, u64, CountsDraws, Global>,
    most: u64,
}

impl Model for Ledger {
    ghost use Rattle.std.specs.Prelude.{◌≡◌, ◌≤◌};
    ghost use Rattle.convoy_ledger.specs.Tickets.{LedgerId, most_tickets};

    ghost Value = { LedgerId };

    ghost view = { λ l. record { table = l.table.shared.table_id; most = l.most } };

    ghost invariant = { λ l. (l.table.shared.key ≡ l.most)
        × (l.table.shared.table_id.words ≡ 1)
        × (l.table.shared.table_id.slots ≡ 0)
        × (l.most ≤ most_tickets) };
}

/// What a thread draws with. Contracts see its ledger, the tickets that it drew, and whether it is
/// done. Its share is for the end: the shares of all clerks of a ledger add up to the whole, so a
/// clerk with the whole share has joined all others, and may close the ledger.
#[derive(Drop)]
pub struct Clerk {
    seat: Seat<(), View>,
    share: u64,
    drawn: u64,
    done: bool,
}

impl Model for Clerk {
    ghost use Rattle.std.specs.Prelude.{◌≡◌, ◌<◌, []};
    ghost use Rattle.convoy_ledger.specs.Tickets.{Account, list_length};

    ghost Value = { Account };

    ghost view = { λ c. record {
      ledger = record { table = c.seat.table_id; most = c.seat.me.0.most };
      tickets = c.seat.me.0.tickets;
      share = c.share;
      done = c.done;
    } };

    ghost invariant = { λ c. (c.seat.me.1 ≡ [])
        × (c.seat.me.0.share ≡ c.share)
        × (c.seat.me.0.done ≡ c.done)
        × (0 < c.share)
        × (c.drawn ≡ list_length c.seat.me.0.tickets) };
}

impl Ledger {
    /// A ledger of `most` tickets, none of them drawn, and its one clerk, which has the whole share,
    /// 4,294,967,296. Fails only where memory runs out.
    pub fn open(alloc: Global, most: u64) -> Result<(Ledger, Clerk), AllocError>
        requires { (1 ≤ most) × (most ≤ most_tickets) }
        ensures most { IfOk result (λ opened. opened.0.most ≡ most) }
        ensures clerk { IfOk result (λ opened. opened.1
            ≡ record { ledger = opened.0; tickets = []; share = whole; done = false }) }
    {
        let (table, seat) = Table::of_words(alloc, &[0], &most)?;
        let clerk = Clerk {
            seat,
            share: WHOLE,
            drawn: 0,
            done: false,
        };
        Ok((Ledger { table, most }, clerk))
    }

    /// Draws the next ticket for a clerk of this ledger. `None` tells that all tickets are drawn:
    /// the clerk is then done, and draws no more.
    ///
    /// It is one atomic step, or none where the clerk is done.
    pub fn draw(&self, clerk: &mut Clerk) -> Option<u64>
        requires { clerk.old.ledger ≡ self.now }
        // A ticket is one of the ledger's, and greater than all that the clerk drew before.
        ensures ticket { IfSome result (λ ticket. (ticket < self.now.most)
            × All (λ earlier. earlier < ticket) clerk.old.tickets
            × (length clerk.old.tickets ≤ ticket)) }
        ensures drawn { IfSome result (λ ticket. clerk.new
            ≡ record clerk.old { tickets = clerk.old.tickets ++ ticket ∷ []; done = false }) }
        ensures none { IfNone result (clerk.new ≡ record clerk.old { done = true }) }
        ensures done { clerk.old.done ≡ true → IsNone result }
    {
        if clerk.done {
            return None;
        }
        let ticket = self.table.shared.fetch_add::<Draw>(&mut clerk.seat, 0, 1);
        if ticket < self.most {
            clerk.drawn += 1;
            Some(ticket)
        } else {
            clerk.done = true;
            None
        }
    }

    /// A second clerk of this ledger, with no tickets and half of the clerk's share, rounded down;
    /// it is done where the clerk is. Refused only where the share is 1.
    pub fn split(&self, clerk: &mut Clerk) -> Result<Clerk, ShareTooSmall>
        requires { clerk.old.ledger ≡ self.now }
        ensures given { IfOk result (λ second. second
            ≡ record clerk.old { tickets = []; share = clerk.old.share / 2 }) }
        ensures kept { IfOk result (λ second. clerk.new
            ≡ record clerk.old { share = clerk.old.share - clerk.old.share / 2 }) }
        ensures err { OnErr result ((clerk.old.share ≡ 1) × (clerk.new ≡ clerk.old)) }
    {
        if clerk.share == 1 {
            return Err(ShareTooSmall);
        }
        let seat = self.table.shared.split_seat::<Halve>(&mut clerk.seat);
        let share = clerk.share / 2;
        clerk.share -= share;
        Ok(Clerk {
            seat,
            share,
            drawn: 0,
            done: clerk.done,
        })
    }

    /// Joins another clerk of this ledger to the clerk, which takes over its tickets and its share,
    /// and is done where either was.
    pub fn join(&self, clerk: &mut Clerk, other: Clerk)
        requires clerk { clerk.old.ledger ≡ self.now }
        requires other { other.ledger ≡ self.now }
        ensures { clerk.new ≡ record clerk.old {
          tickets = clerk.old.tickets ++ other.tickets;
          share = clerk.old.share + other.share;
          done = clerk.old.done || other.done;
        } }
    {
        let Clerk {
            seat,
            share,
            drawn,
            done,
        } = other;
        self.table.shared.join_seat::<Halve>(&mut clerk.seat, seat);
        self.table.shared.load::<Weigh>(&mut clerk.seat, 0);
        clerk.share += share;
        clerk.drawn += drawn;
        clerk.done |= done;
    }

    /// Ends the ledger, and answers how many tickets were drawn, each of them by one clerk: this one
    /// has them all, and where it is done, all were drawn. Refused only where the clerk has not the
    /// whole share, so that other clerks are out.
    pub fn close(self, clerk: Clerk) -> Result<u64, ClerksOut>
        requires { clerk.ledger ≡ self }
        ensures all { IfOk result (λ drawn. HasAll clerk drawn) }
        ensures err { IfErr result (λ out. (out.0 ≡ self) × (out.1 ≡ clerk) × (clerk.share ≢ whole)) }
    {
        if clerk.share != WHOLE {
            return Err(ClerksOut(self, clerk));
        }
        let Ledger { table, most } = self;
        let Clerk { seat, .. } = clerk;
        let closed = table.close_with(seat);
        let draws = closed.word(0);
        closed.free();
        Ok(draws.min(most))
    }
}

impl Clerk {
    /// How many tickets the clerk drew, with those of the clerks that were joined to it.
    pub fn drawn(&self) -> u64
        ensures { result ≡ length self.now.tickets }
    {
        self.drawn
    }

    /// Whether the clerk is done: it, or one that was joined to it or from which it was split,
    /// found that all tickets are drawn.
    pub fn done(&self) -> bool
        ensures { result ≡ self.now.done }
    {
        self.done
    }
}

impl fmt::Debug for Ledger {
    fn fmt<W: fmt::Write>(&self, f: &mut fmt::Formatter<W>) -> fmt::Result {
        f.debug_struct("Ledger")
            .field("most", &self.most)
            .finish_non_exhaustive()
    }
}

impl fmt::Debug for Clerk {
    fn fmt<W: fmt::Write>(&self, f: &mut fmt::Formatter<W>) -> fmt::Result {
        f.debug_struct("Clerk")
            .field("share", &self.share)
            .field("drawn", &self.drawn)
            .field("done", &self.done)
            .finish_non_exhaustive()
    }
}
