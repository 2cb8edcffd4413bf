ghost use Rattle.std.specs.Prelude.{◌≡◌, ◌≤◌, IfOk};
ghost use Rattle.convoy_library.specs.Record.{IsAttained};
ghost use Rattle.convoy_library_tests.specs.Sharing.{IsFirstHand, Publishes};

use super::fault::Fault;
use convoy_library::incumbent::{Board, CloseFault, Hand};
use convoy_library::sim::Record;
use std::alloc::Global;
use std::sync::Wait;
use std::thread::{Threads, join};

/// The best of three records of one scenario, of which two threads publish one each on a board that
/// was opened with the third.
pub fn best_of_three<R: Threads + Wait + Sync>(
    rt: &R,
    alloc: Global,
    opening: Record,
    first: Record,
    second: Record,
) -> Result<Record, Fault>
    requires first { first.scenario ≡ opening.scenario }
    requires second { second.scenario ≡ opening.scenario }
    ensures attained { IfOk result (λ best. (best.scenario ≡ opening.scenario) × IsAttained best) }
    ensures least { IfOk result (λ best. (opening.latency ≤ best.latency)
        × (first.latency ≤ best.latency) × (second.latency ≤ best.latency)) }
{
    let (board, mut hand) = opened(rt, alloc, opening)?;
    let Ok(other) = board.split(&mut hand) else {
        unreachable!()
    };
    let shared = &board;
    let (hand, other) = join(
        rt,
        move || -> Result<Hand, Fault>
            requires { (hand.board ≡ shared.now) × (first.scenario ≡ shared.now.scenario) }
            ensures { IfOk result (Publishes hand first.latency) }
        { published(rt, shared, hand, first) },
        move || -> Result<Hand, Fault>
            requires { (other.board ≡ shared.now) × (second.scenario ≡ shared.now.scenario) }
            ensures { IfOk result (Publishes other second.latency) }
        { published(rt, shared, other, second) },
    );
    let mut hand = hand?;
    board.join(&mut hand, other?);
    match board.close(hand) {
        Ok(best) => Ok(best),
        Err(CloseFault::Memory(..)) => Err(Fault::Memory),
        Err(CloseFault::HandsOut(..)) => unreachable!(),
    }
}

/// A board that is opened with a record, and its one hand.
fn opened<R: Wait>(rt: &R, alloc: Global, opening: Record) -> Result<(Board, Hand), Fault>
    ensures board { IfOk result (λ opened. opened.0.scenario ≡ opening.scenario) }
    ensures hand { IfOk result (λ opened. IsFirstHand opened.0 opening.latency opened.1) }
{
    match Board::open(rt, alloc, opening) {
        Ok(opened) => Ok(opened),
        Err(_) => Err(Fault::Memory),
    }
}

/// The hand, after it has published a record on its board.
fn published<R: Wait>(rt: &R, board: &Board, mut hand: Hand, found: Record) -> Result<Hand, Fault>
    requires hand { hand.board ≡ board.now }
    requires found { found.scenario ≡ board.now.scenario }
    ensures { IfOk result (Publishes hand found.latency) }
{
    match board.note(rt, found) {
        Ok(noted) => {
            board.publish(&mut hand, noted);
            Ok(hand)
        }
        Err(_) => Err(Fault::Memory),
    }
}
