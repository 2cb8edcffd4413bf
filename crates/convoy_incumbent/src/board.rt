//! The board, and the hands that look at it and publish on it.

ghost use Rattle.std.specs.Prelude.{◌≡◌, ℕ, ◌+◌, ◌-◌, ◌/◌, ◌<◌, ◌≤◌, max, [], ◌∷◌, ◌++◌, length};
ghost use Rattle.std.specs.Prelude.{IfOk, IfErr, OnErr};
ghost use Rattle.convoy_sim.specs.Greatest.{IsReached};
ghost use Rattle.convoy_sim.specs.Record.{IsAttained};
ghost use Rattle.convoy_shares.specs.Shares.{whole};
ghost use Rattle.convoy_incumbent.specs.Boards.{pair_of, IsGreatestOf, IsNoteOf, NoneAbove};
ghost use Rattle.convoy_incumbent.specs.Faults.{GiveBack};

use super::fault::CloseFault;
use super::noted::{Noted, PLACES, better_of};
use super::rule::{Halve, KeepsGreatest, Look, Publish, Store, View, Weigh};
use atomic_table::{Seat, Table};
use convoy_shares::{ShareTooSmall, WHOLE};
use convoy_sim::Record;
use std::alloc::{AllocError, Global};
use std::fmt;
use std::marker::Model;
use std::sync::Wait;

/// The greatest latency that was published for a scenario, with its record. Threads share a board by
/// `&`, each with a hand of its own; `look`, `publish`, `split` and `join` take no memory, wait for no
/// other thread, and always succeed but for a share that is too small.
#[derive(Drop)]
pub struct Board {
    store: Store,
    table: Table<(), View, Store, KeepsGreatest, Global>,
}

impl Model for Board {
    ghost use Rattle.std.specs.Prelude.{◌≡◌};
    ghost use Rattle.convoy_incumbent.specs.Boards.{BoardId, board_of};

    ghost Value = { BoardId };

    ghost view = { λ b. board_of b.table.shared.table_id b.store };

    ghost invariant = { λ b. (b.table.shared.key ≡ b.store)
        × (b.table.shared.table_id.words ≡ 1)
        × (b.table.shared.table_id.slots ≡ 0) };
}

/// What a thread looks and publishes with. Contracts see its board, the greatest latency that it has
/// seen, and the pairs that it put, each a latency with the place of its record. Its share is for the
/// end: the shares of all hands of a board add up to the whole, so a hand with the whole share has
/// joined all others, and may close the board.
#[derive(Drop)]
pub struct Hand {
    seat: Seat<(), View>,
    share: u64,
    best: Option<Noted>,
}

impl Model for Hand {
    ghost use Rattle.std.specs.Prelude.{◌≡◌, ◌<◌, []};
    ghost use Rattle.convoy_incumbent.specs.Boards.{Holding, board_of, IsBest, NoneAbove};

    ghost Value = { Holding };

    ghost view = { λ h. record {
      board = board_of h.seat.table_id h.seat.me.0.store;
      seen = h.seat.me.0.seen;
      pairs = h.seat.me.0.pairs;
      share = h.share;
    } };

    ghost invariant = { λ h. (h.seat.me.1 ≡ [])
        × (h.seat.me.0.share ≡ h.share)
        × (0 < h.share)
        × IsBest (board_of h.seat.table_id h.seat.me.0.store) h.seat.me.0.pairs h.best
        × NoneAbove h.seat.me.0.seen h.seat.me.0.pairs };
}

impl Board {
    /// A board with its first record, and its one hand, which has put that record's pair and has the
    /// whole share, 4,294,967,296. The board is of the record's scenario. Where memory ran out the
    /// record comes back.
    pub fn open<R: Wait>(rt: &R, alloc: Global, first: Record) -> Result<(Board, Hand), Record>
        ensures board { IfOk result (λ opened. opened.0.scenario ≡ first.scenario) }
        ensures hand { IfOk result (λ opened. (place : ℕ) × (opened.1 ≡ record {
          board = opened.0;
          seen = first.latency;
          pairs = record { latency = first.latency; place = place } ∷ [];
          share = whole;
        })) }
        ensures err { IfErr result (λ back. back ≡ first) }
    {
        let Ok(spare) = first.copy() else {
            return Err(first);
        };
        let Ok(records) = boxcar::Vec::new(alloc) else {
            return Err(first);
        };
        let latency = first.latency();
        let scenario = first.scenario();
        let pushed = records.push_shown(rt, first)?;
        let noted = Noted::of(pushed, latency);
        let first = noted.pair();
        let word = first.word();
        let store = Store {
            records,
            scenario,
            first,
        };
        let Ok((table, seat)) = Table::of_words(alloc, &[word], &store) else {
            return Err(spare);
        };
        let hand = Hand {
            seat,
            share: WHOLE,
            best: Some(noted),
        };
        Ok((Board { store, table }, hand))
    }

    /// Puts a record of the board's scenario into the board's table, from where it can be published.
    /// Where memory ran out the record comes back.
    pub fn note<R: Wait>(&self, rt: &R, found: Record) -> Result<Noted, Record>
        requires { found.scenario ≡ self.now.scenario }
        ensures noted { IfOk result (λ noted. IsNoteOf self.now noted × (noted.value ≡ found)) }
        ensures err { IfErr result (λ back. back ≡ found) }
    {
        let latency = found.latency();
        let pushed = self.store.records.push_shown(rt, found)?;
        Ok(Noted::of(pushed, latency))
    }

    /// The greatest latency that was published before, in ticks, by whichever hand.
    ///
    /// It is one atomic step.
    pub fn look(&self, hand: &mut Hand) -> u32
        requires { hand.old.board ≡ self.now }
        // Some assignment has it.
        ensures reached { IsReached self.now.scenario result }
        // It is at least all that the hand saw or published before.
        ensures least { (hand.old.seen ≤ result) × NoneAbove result hand.old.pairs }
        ensures hand { hand.new ≡ record hand.old { seen = result } }
    {
        let word = self.table.shared.load::<Look>(&mut hand.seat, 0);
        (word / PLACES) as u32
    }

    /// Publishes a record that was noted on this board: the board's latency rises to that of the
    /// record where it is greater. Answers the greatest latency that the hand has now seen, in
    /// ticks.
    ///
    /// It is one atomic step.
    pub fn publish(&self, hand: &mut Hand, noted: Noted) -> u32
        requires hand { hand.old.board ≡ self.now }
        requires noted { IsNoteOf self.now noted }
        // Some assignment has it.
        ensures reached { IsReached self.now.scenario result }
        // It is at least all that the hand saw or published before, and the latency of the record.
        ensures least { (hand.old.seen ≤ result)
            × NoneAbove result (hand.old.pairs ++ pair_of noted ∷ []) }
        ensures hand { hand.new
            ≡ record hand.old { seen = result; pairs = hand.old.pairs ++ pair_of noted ∷ [] } }
    {
        let word = noted.pair().word();
        let found = self
            .table
            .shared
            .fetch_max::<Publish>(&mut hand.seat, 0, word);
        let best = hand.best.take();
        hand.best = better_of(best, Some(noted));
        (found.max(word) / PLACES) as u32
    }

    /// A second hand of this board, which has seen as much, put no pairs, and has half of the hand's
    /// share, rounded down. Refused only where the share is 1.
    pub fn split(&self, hand: &mut Hand) -> Result<Hand, ShareTooSmall>
        requires { hand.old.board ≡ self.now }
        ensures given { IfOk result (λ second. second
            ≡ record hand.old { pairs = []; share = hand.old.share / 2 }) }
        ensures kept { IfOk result (λ second. hand.new
            ≡ record hand.old { share = hand.old.share - hand.old.share / 2 }) }
        ensures err { OnErr result ((hand.old.share ≡ 1) × (hand.new ≡ hand.old)) }
    {
        if hand.share == 1 {
            return Err(ShareTooSmall);
        }
        let seat = self.table.shared.split_seat::<Halve>(&mut hand.seat);
        let share = hand.share / 2;
        hand.share -= share;
        Ok(Hand {
            seat,
            share,
            best: None,
        })
    }

    /// Joins another hand of this board to the hand, which takes over its pairs and its share, and
    /// has seen the greater of what both saw.
    pub fn join(&self, hand: &mut Hand, other: Hand)
        requires hand { hand.old.board ≡ self.now }
        requires other { other.board ≡ self.now }
        ensures { hand.new ≡ record hand.old {
          seen = max hand.old.seen other.seen;
          pairs = hand.old.pairs ++ other.pairs;
          share = hand.old.share + other.share;
        } }
    {
        let Hand { seat, share, best } = other;
        self.table.shared.join_seat::<Halve>(&mut hand.seat, seat);
        self.table.shared.load::<Weigh>(&mut hand.seat, 0);
        hand.share += share;
        let mine = hand.best.take();
        hand.best = better_of(mine, best);
    }

    /// Ends the board, and gives a record of the greatest latency that was published. Where it
    /// fails, board and hand come back as they were.
    pub fn close(self, mut hand: Hand) -> Result<Record, CloseFault>
        requires { hand.board ≡ self }
        ensures attained { IfOk result (λ best. (best.scenario ≡ self.scenario) × IsAttained best) }
        // The hand has the pairs of all hands, that of the first record among them.
        ensures greatest { IfOk result (λ best. IsGreatestOf best.latency hand.pairs) }
        ensures least { IfOk result (λ best. hand.seen ≤ best.latency) }
        ensures err { IfErr result (λ fault. GiveBack self hand fault) }
    {
        if hand.share != WHOLE {
            return Err(CloseFault::HandsOut(self, hand));
        }
        self.table.shared.load::<Weigh>(&mut hand.seat, 0);
        match self.best_of(&hand) {
            Ok(best) => Ok(best),
            Err(AllocError) => Err(CloseFault::Memory(self, hand)),
        }
    }

    /// A copy of the record of the greatest pair that the hand put.
    fn best_of(&self, hand: &Hand) -> Result<Record, AllocError>
        requires board { hand.now.board ≡ self.now }
        requires some { 0 < length hand.now.pairs }
        ensures attained { IfOk result (λ best. (best.scenario ≡ self.now.scenario) × IsAttained best) }
        ensures greatest { IfOk result (λ best. IsGreatestOf best.latency hand.now.pairs) }
    {
        match &hand.best {
            Some(noted) => Ok(noted.record_in(&self.store.records).copy()?),
            None => unreachable!(),
        }
    }
}

impl Hand {
    /// The share of the hand: 4,294,967,296 is the whole.
    pub fn share(&self) -> u64
        ensures { result ≡ self.now.share }
    {
        self.share
    }
}

impl fmt::Debug for Board {
    fn fmt<W: fmt::Write>(&self, f: &mut fmt::Formatter<W>) -> fmt::Result {
        f.debug_struct("Board").finish_non_exhaustive()
    }
}

impl fmt::Debug for Hand {
    fn fmt<W: fmt::Write>(&self, f: &mut fmt::Formatter<W>) -> fmt::Result {
        f.debug_struct("Hand")
            .field("share", &self.share)
            .finish_non_exhaustive()
    }
}
