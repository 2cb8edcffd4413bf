//! Worked rows on boards, by one thread and by two.

ghost use Rattle.std.specs.Prelude.{◌≡◌};

use crate::best_of_three;
use crate::scenarios::lone;
use crate::schedules::given;
use convoy_incumbent::{Board, CloseFault, Hand};
use convoy_packets::Instance;
use convoy_sim::Record;
use std::alloc::Global;
use std::process::Abort;
use std::sync::Wait;
use std::test::Fail;

const LATENCY_2: [i64; 4] = [1, 1, 1, 1];

const LATENCY_5: [i64; 4] = [5, 1, 1, 1];

const LATENCY_9: [i64; 4] = [1, 4, 1, 5];

const ALSO_LATENCY_9: [i64; 4] = [1, 5, 1, 4];

/// The record of a schedule. Where memory runs out, the test ends.
fn record_of<R: Abort>(rt: &R, alloc: Global, instance: &Instance, list: &[i64]) -> Record
    ensures { result.scenario ≡ instance.now }
{
    match given(alloc, instance, list) {
        Ok(schedule) => Record::of(instance, schedule),
        Err(_) => panic!(rt; "there is no such schedule"),
    }
}

/// A board that is opened with a record, and its hand.
fn opened<R: Abort + Wait>(rt: &R, alloc: Global, first: Record) -> (Board, Hand)
    ensures board { result.0.scenario ≡ first.scenario }
    ensures hand { result.1.board ≡ result.0 }
{
    match Board::open(rt, alloc, first) {
        Ok(opened) => opened,
        Err(_) => panic!(rt; "no board was opened"),
    }
}

/// Half of a hand.
fn half_of<R: Abort>(rt: &R, board: &Board, hand: &mut Hand) -> Hand
    requires { hand.old.board ≡ board.now }
    ensures given { result.board ≡ board.now }
    ensures kept { hand.new.board ≡ board.now }
{
    match board.split(hand) {
        Ok(second) => second,
        Err(_) => panic!(rt; "a hand could not be split"),
    }
}

/// What a hand is answered that notes and publishes a record.
fn published<R: Abort + Wait>(rt: &R, board: &Board, hand: &mut Hand, found: Record) -> u32
    requires hand { hand.old.board ≡ board.now }
    requires found { found.scenario ≡ board.now.scenario }
    ensures { hand.new.board ≡ board.now }
{
    match board.note(rt, found) {
        Ok(noted) => board.publish(hand, noted),
        Err(_) => panic!(rt; "a record was not noted"),
    }
}

/// The latency with which a board closes.
fn closed<R: Abort>(rt: &R, board: Board, hand: Hand) -> u32
    requires { hand.board ≡ board }
{
    match board.close(hand) {
        Ok(best) => best.latency(),
        Err(_) => panic!(rt; "not closed with the whole share"),
    }
}

/// Three hands publish records in turn, and look at what the others have published.
fn publish_in_turn<R: Abort + Wait>(
    rt: &R,
    alloc: Global,
    instance: &Instance,
    board: &Board,
    first: &mut Hand,
    second: &mut Hand,
    third: &mut Hand,
)
    requires board { instance.now ≡ board.now.scenario }
    requires first { first.old.board ≡ board.now }
    requires second { second.old.board ≡ board.now }
    requires third { third.old.board ≡ board.now }
    ensures first { first.new.board ≡ board.now }
    ensures second { second.new.board ≡ board.now }
    ensures third { third.new.board ≡ board.now }
{
    assert!(rt; board.look(second) == 2);
    let found = record_of(rt, alloc, instance, &LATENCY_5);
    assert!(rt; published(rt, board, first, found) == 5);
    let found = record_of(rt, alloc, instance, &LATENCY_9);
    assert!(rt; published(rt, board, second, found) == 9);
    let found = record_of(rt, alloc, instance, &ALSO_LATENCY_9);
    assert!(rt; published(rt, board, third, found) == 9);
    assert!(rt; board.look(first) == 9);
    // A lesser latency leaves the greater one.
    let found = record_of(rt, alloc, instance, &LATENCY_5);
    assert!(rt; published(rt, board, first, found) == 9);
    assert!(rt; board.look(second) == 9);
}

#[test]
fn board_of_three_hands(rt: HostRuntime) -> Result<(), Fail> {
    let alloc = rt.alloc();
    let instance = lone(alloc)?;
    let least = record_of(&rt, alloc, &instance, &LATENCY_2);
    let (board, mut first) = opened(&rt, alloc, least);
    let mut second = half_of(&rt, &board, &mut first);
    let mut third = half_of(&rt, &board, &mut second);
    publish_in_turn(
        &rt,
        alloc,
        &instance,
        &board,
        &mut first,
        &mut second,
        &mut third,
    );
    board.join(&mut first, third);
    let Err(CloseFault::HandsOut(board, mut first)) = board.close(first) else {
        panic!(rt; "closed while a hand was out");
    };
    board.join(&mut first, second);
    assert!(rt; closed(&rt, board, first) == 9);
    Ok(())
}

#[test]
fn look_sees_others(rt: HostRuntime) -> Result<(), Fail> {
    let alloc = rt.alloc();
    let instance = lone(alloc)?;
    let least = record_of(&rt, alloc, &instance, &LATENCY_2);
    let (board, mut first) = opened(&rt, alloc, least);
    let mut second = half_of(&rt, &board, &mut first);
    let found = record_of(&rt, alloc, &instance, &LATENCY_9);
    assert!(rt; published(&rt, &board, &mut first, found) == 9);
    assert!(rt; board.look(&mut second) == 9);
    board.join(&mut first, second);
    assert!(rt; closed(&rt, board, first) == 9);
    Ok(())
}

/// Splits a hand so many times, and then once more in vain; joins all again, and answers the share that
/// was left at last.
fn share_after_splits<R: Abort>(rt: &R, board: &Board, hand: &mut Hand, times: u32) -> u64
    requires { hand.old.board ≡ board.now }
    ensures { hand.new.board ≡ board.now }
{
    if times == 0 {
        assert!(rt; board.split(hand).is_err());
        return hand.share();
    }
    let second = half_of(rt, board, hand);
    let share = share_after_splits(rt, board, hand, times - 1);
    board.join(hand, second);
    share
}

#[test]
fn hand_shares(rt: HostRuntime) -> Result<(), Fail> {
    let alloc = rt.alloc();
    let instance = lone(alloc)?;
    let least = record_of(&rt, alloc, &instance, &LATENCY_2);
    let (board, mut hand) = opened(&rt, alloc, least);
    assert!(rt; share_after_splits(&rt, &board, &mut hand, 32) == 1);
    assert!(rt; hand.share() == 4_294_967_296);
    assert!(rt; closed(&rt, board, hand) == 2);
    Ok(())
}

#[test]
fn best_of_records(rt: HostRuntime) -> Result<(), Fail> {
    let alloc = rt.alloc();
    let instance = lone(alloc)?;
    let opening = record_of(&rt, alloc, &instance, &LATENCY_2);
    let first = record_of(&rt, alloc, &instance, &LATENCY_9);
    let second = record_of(&rt, alloc, &instance, &LATENCY_5);
    let Ok(best) = best_of_three(&rt, alloc, opening, first, second) else {
        panic!(rt; "no best record");
    };
    assert!(rt; best.latency() == 9);
    Ok(())
}
