//! Lists of events of a search of many workers.

ghost use Rattle.std.specs.Prelude.{◌≡◌, IfOk};
ghost use Rattle.std.specs.List.{All};
ghost use Rattle.convoy_machine.specs.Replays.{IsEventOf};

use self::Move::{Close, Draw, Look, Publish, Put, Split, Take};
use crate::scenarios::{base, counted_twice, swapped_in};
use crate::schedules::given;
use convoy_machine::{Event, ReplayFault, replay};
use convoy_packets::{Instance, ListFault};
use convoy_scenario::Time;
use convoy_sim::Record;
use std::alloc::{AllocError, Global};
use std::test::Fail;

/// An event in short: the worker, and then the branch.
#[derive(Clone, Copy)]
enum Move {
    Look(usize),
    /// Of the one record that the test has found.
    Publish(usize),
    Draw(usize),
    Put(usize, usize),
    Take(usize, usize),
    Split(usize, usize, u16, u16),
    Close(usize, usize),
}

fn event_of(chosen: Move, found: &Record) -> Result<Event, AllocError>
    ensures { IfOk result (IsEventOf found.now.scenario) }
{
    let event = match chosen {
        Look(worker) => Event::Look { worker },
        Publish(worker) => Event::Publish {
            worker,
            found: found.copy()?,
        },
        Draw(worker) => Event::Draw { worker },
        Put(worker, branch) => Event::Put { worker, branch },
        Take(worker, branch) => Event::Take { worker, branch },
        Split(worker, branch, packet, at) => Event::Split {
            worker,
            branch,
            packet,
            at,
        },
        Close(worker, branch) => Event::Close { worker, branch },
    };
    Ok(event)
}

fn events_of(alloc: Global, moves: &[Move], found: &Record) -> Result<Vec<Event>, AllocError>
    ensures { IfOk result (λ events. All (IsEventOf found.now.scenario) events.items) }
{
    let mut events = Vec::new(alloc);
    for chosen in moves {
        events.push(event_of(*chosen, found)?)?;
    }
    Ok(events)
}

/// What a list of events comes to: the best latency, how many branches are left, and how many tickets
/// workers 0 and 1 have spent; or why it is not replayed.
fn told(
    alloc: Global,
    instance: &Instance,
    found: &Record,
    moves: &[Move],
) -> Result<(u32, usize, u64, u64), ReplayFault>
    requires found { found.now.scenario ≡ instance.now }
{
    let events = events_of(alloc, moves, found)?;
    let core = replay(alloc, instance, &events)?;
    Ok((
        core.best().latency(),
        core.left(),
        core.spent(0),
        core.spent(1),
    ))
}

#[test]
fn core_machine(rt: HostRuntime) -> Result<(), Fail> {
    let alloc = rt.alloc();
    let instance = base(alloc)?;
    let threes = Record::of(&instance, given(alloc, &instance, &[3; 8])?);
    for (moves, want) in [
        (
            [Draw(0), Publish(0), Close(0, 0)].as_slice(),
            Ok((12, 0, 1, 0)),
        ),
        (
            &[Publish(1), Look(0), Draw(0), Close(0, 0)],
            Ok((12, 0, 1, 0)),
        ),
        (&[Draw(0), Close(0, 0)], Err(ReplayFault::Unlawful(1))),
        (&[Publish(0), Close(0, 0)], Err(ReplayFault::Unlawful(1))),
        (
            &[Publish(1), Draw(0), Close(0, 0)],
            Err(ReplayFault::Unlawful(2)),
        ),
        (
            &[
                Draw(0),
                Split(0, 0, 4, 1),
                Put(0, 1),
                Take(1, 1),
                Publish(0),
                Look(1),
                Draw(1),
                Close(1, 1),
                Draw(0),
                Close(0, 2),
            ],
            Ok((12, 0, 2, 1)),
        ),
        (
            &[
                Draw(0),
                Split(0, 0, 4, 1),
                Put(0, 1),
                Take(1, 1),
                Publish(0),
                Draw(1),
                Close(1, 1),
            ],
            Err(ReplayFault::Unlawful(6)),
        ),
    ] {
        assert!(rt; told(alloc, &instance, &threes, moves) == want);
    }
    Ok(())
}

/// What comes of a search in which that worker publishes the schedule of those delays, and worker 0
/// closes the root box.
fn root_closed(
    alloc: Global,
    instance: &Instance,
    worker: usize,
    delays: &[i64],
) -> Result<Result<(u32, usize, u64, u64), ReplayFault>, ListFault> {
    let found = Record::of(instance, given(alloc, instance, delays)?);
    let moves = [Draw(0), Publish(worker), Close(0, 0)];
    Ok(told(alloc, instance, &found, &moves))
}

/// Stamps close the root box for a latency for which leads leave it open, in whole ticks alone.
#[test]
fn closed_by_stamps(rt: HostRuntime) -> Result<(), Fail> {
    let alloc = rt.alloc();
    let (ticks, real) = (
        counted_twice(alloc, Time::Ticks)?,
        counted_twice(alloc, Time::Real)?,
    );
    assert!(rt; root_closed(alloc, &ticks, 0, &[6; 14])? == Ok((12, 0, 1, 0)));
    assert!(rt; root_closed(alloc, &real, 0, &[6; 14])? == Err(ReplayFault::Unlawful(2)));
    Ok(())
}

/// In real time leads alone close the root box, for a latency that its worker has seen.
#[test]
fn closed_by_leads(rt: HostRuntime) -> Result<(), Fail> {
    let alloc = rt.alloc();
    let real = swapped_in(alloc, Time::Real)?;
    assert!(rt; root_closed(alloc, &real, 0, &[3; 8])? == Ok((6, 0, 1, 0)));
    assert!(rt; root_closed(alloc, &real, 1, &[3; 8])? == Err(ReplayFault::Unlawful(2)));
    Ok(())
}
