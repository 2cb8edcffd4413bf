//! What a worker looks, publishes and draws with, and how it takes up a branch.

ghost use Rattle.std.specs.Prelude.{◌≡◌, ◌≤◌, ◌+◌, false, true, length, IfOk, IfSome, OnOk};
ghost use Rattle.std.specs.Bool.{OnFalse, OnTrue};
ghost use Rattle.convoy_branch.specs.Steps.{IsStep, IsTriedIf, known_after};
ghost use Rattle.convoy_share.specs.Means.{IsTakenUp};

use super::shared::Shared;
use convoy_branch::front_laws::{fronts_better, turns_are_fronts, turns_are_nodes};
use convoy_branch::{Gate, Step, Turn, step_branch};
use convoy_incumbent::{Board, Hand};
use convoy_ledger::{Clerk, Ledger};
use convoy_regions::Branch;
use convoy_sim::Record;
use std::alloc::AllocError;
use std::sync::Wait;

/// What a worker looks and publishes with, and what it draws with, beside its number and how many
/// branches it has taken up.
#[derive(Drop)]
pub(crate) struct Means {
    pub hand: Hand,
    pub clerk: Clerk,
    pub worker: u32,
    pub taken_up: u64,
}

impl Means {
    /// Those of a worker that has taken up nothing.
    pub fn of(hand: Hand, clerk: Clerk, worker: u32) -> Means
        ensures hand { result.hand ≡ hand }
        ensures clerk { result.clerk ≡ clerk }
    {
        Means {
            hand,
            clerk,
            worker,
            taken_up: 0,
        }
    }
}

/// What became of a branch that was taken up.
#[derive(Drop)]
pub(crate) enum TakenUp {
    /// A ticket was spent for it.
    Turned(Turn),
    /// There was no ticket left, or the search was stopped.
    Left(Branch),
}

/// Takes up a branch: looks at the board, draws a ticket, does the step, and publishes what it found.
/// Where there is no ticket, or the search is stopped, the branch is left.
pub(crate) fn take_up<R: Wait, G: Gate>(
    rt: &R,
    gate: &G,
    shared: &Shared,
    means: &mut Means,
    branch: Branch,
    tried: bool,
) -> Result<TakenUp, AllocError>
    requires hand { means.old.hand.board ≡ shared.now.board.now }
    requires clerk { means.old.clerk.ledger ≡ shared.now.ledger.now }
    requires of_scenario { branch.scenario ≡ shared.now.instance.now }
    requires known { IsTriedIf shared.now.instance.now branch.region tried means.old.hand.seen }
    ensures { IfOk result (λ taken. IsTakenUp shared.now.bounds shared.now.instance.now
        shared.now.limit.may_stop shared.now.ledger.now.most branch means.old means.new taken) }
{
    fronts_better();
    turns_are_fronts();
    turns_are_nodes();
    let _ = shared.instance.table();
    let _delay_box = branch.delay_box();
    if shared.limit.is_over(gate) {
        return Ok(TakenUp::Left(branch));
    }
    means.taken_up = means.taken_up.saturating_add(1);
    gate.before_branch(means.worker, means.taken_up);
    let seen = shared.board.look(&mut means.hand);
    if !has_drawn(shared.ledger, &mut means.clerk) {
        return Ok(TakenUp::Left(branch));
    }
    let step = step_of(shared, branch, tried, seen)?;
    let Step { found, turn } = step;
    publish_found(rt, shared.board, &mut means.hand, found)?;
    Ok(TakenUp::Turned(turn))
}

/// The step over a branch, where that latency is known, in ticks.
fn step_of(shared: &Shared, branch: Branch, tried: bool, known: u32) -> Result<Step, AllocError>
    requires of_scenario { branch.scenario ≡ shared.now.instance.now }
    requires known { IsTriedIf shared.now.instance.now branch.region tried known }
    ensures { IfOk result
        (λ step. IsStep shared.now.bounds shared.now.instance.now branch.region known step) }
{
    let Shared {
        alloc,
        origin,
        bounds,
        limit,
        ..
    } = *shared;
    match step_branch(alloc, origin, branch, tried, known, bounds, limit.splits) {
        Ok(step) => Ok(step),
        Err((_, error)) => Err(error),
    }
}

/// Draws a ticket, if there is one left.
fn has_drawn(ledger: &Ledger, clerk: &mut Clerk) -> bool
    requires { clerk.old.ledger ≡ ledger.now }
    ensures same { (clerk.new.ledger ≡ ledger.now) × (clerk.new.share ≡ clerk.old.share) }
    ensures some { OnTrue result ((length clerk.new.tickets ≡ length clerk.old.tickets + 1)
        × (length clerk.new.tickets ≤ ledger.now.most)
        × (clerk.old.done ≡ false)) }
    ensures none { OnFalse result ((clerk.new.tickets ≡ clerk.old.tickets)
        × (clerk.new.done ≡ true)) }
{
    ledger.draw(clerk).is_some()
}

/// Notes and publishes what was found, if there is a record.
fn publish_found<R: Wait>(
    rt: &R,
    board: &Board,
    hand: &mut Hand,
    found: Option<Record>,
) -> Result<(), AllocError>
    requires hand { hand.old.board ≡ board.now }
    requires found { IfSome found (λ r. r.scenario ≡ board.now.scenario) }
    ensures same { (hand.new.board ≡ board.now) × (hand.new.share ≡ hand.old.share) }
    ensures seen { OnOk result (hand.old.seen ≤ hand.new.seen) }
    ensures known { OnOk result (known_after hand.old.seen found ≤ hand.new.seen) }
{
    match found {
        Some(found) => publish(rt, board, hand, found),
        None => Ok(()),
    }
}

/// Notes and publishes a record.
fn publish<R: Wait>(rt: &R, board: &Board, hand: &mut Hand, found: Record) -> Result<(), AllocError>
    requires hand { hand.old.board ≡ board.now }
    requires found { found.scenario ≡ board.now.scenario }
    ensures same { (hand.new.board ≡ board.now) × (hand.new.share ≡ hand.old.share) }
    ensures seen { OnOk result ((hand.old.seen ≤ hand.new.seen)
        × (found.latency ≤ hand.new.seen)) }
{
    let Ok(noted) = board.note(rt, found) else {
        return Err(AllocError);
    };
    board.publish(hand, noted);
    Ok(())
}
