//! Searches by several workers that wait for one another, or have nothing to share.

ghost use Rattle.std.specs.Prelude.{◌≤◌};

use crate::scenarios::{base, swapped};
use convoy_branch::{Bounds, Outcome};
use convoy_packets::Instance;
use convoy_share::{Gate, NoGate, search};
use std::alloc::{AllocError, Global};
use std::process::Abort;
use std::sync::Wait;
use std::sync::atomic::{AtomicU64, Ordering};
use std::test::Fail;
use std::thread::Threads;

/// More tickets than any of these searches needs.
const MANY: u64 = 1_000_000;

/// How a search by plain bounds by so many workers ends.
fn outcome_of<R: Threads + Wait + Sync, G: Gate + Sync>(
    rt: &R,
    alloc: Global,
    instance: &Instance,
    workers: u32,
    gate: &G,
) -> Result<Outcome, AllocError>
    requires { 1 ≤ workers × workers ≤ 16 }
{
    search(rt, alloc, instance, workers, MANY, Bounds::Plain, gate)
}

/// The latency of its certificate, where it has one.
fn latency_of(outcome: &Outcome) -> Option<u32> {
    match outcome {
        Outcome::Proved { certificate, .. } => Some(certificate.latency()),
        Outcome::Open { .. } => None,
    }
}

/// How many tickets each worker drew.
fn drawn_of(outcome: &Outcome) -> &[u64] {
    match outcome {
        Outcome::Proved { by_worker, .. } | Outcome::Open { by_worker, .. } => by_worker,
    }
}

#[test]
fn sixteen_workers(rt: HostRuntime) -> Result<(), Fail> {
    let instance = base(rt.alloc())?;
    let outcome = outcome_of(&rt, rt.alloc(), &instance, 16, &NoGate)?;
    assert!(rt; latency_of(&outcome) == Some(12));
    assert!(rt; drawn_of(&outcome) == [1, 0, 0, 0, 0, 0, 0, 0, 0, 0, 0, 0, 0, 0, 0, 0].as_slice());
    Ok(())
}

/// What a worker does before its branch of that number: it raises flags, and then waits for those that it awaits.
#[derive(Drop)]
struct Stop {
    worker: u32,
    nth: u64,
    raises: u64,
    awaits: u64,
}

impl Stop {
    fn before(worker: u32, nth: u64, raises: u64, awaits: u64) -> Stop {
        Stop {
            worker,
            nth,
            raises,
            awaits,
        }
    }
}

/// A gate at which workers stop.
#[derive(Drop)]
struct Meeting<'a> {
    stops: &'a [Stop],
    /// The flags that are up.
    flags: AtomicU64,
    /// How many workers have stopped, and seen the flags that they awaited.
    met: AtomicU64,
}

impl Meeting<'_> {
    /// Whether all those flags are seen up.
    fn sees(&self, flags: u64) -> bool {
        for _ in 0..1_000_000_000 {
            if self.flags.load(Ordering::SeqCst) & flags == flags {
                return true;
            }
        }
        false
    }
}

impl Gate for Meeting<'_> {
    fn before_branch(&self, worker: u32, nth: u64) {
        for stop in self.stops {
            if stop.worker == worker && stop.nth == nth {
                self.flags.fetch_add(stop.raises, Ordering::SeqCst);
                if self.sees(stop.awaits) {
                    self.met.fetch_add(1, Ordering::SeqCst);
                }
            }
        }
    }
}

/// Checks that workers meet at these stops, and how many tickets worker 1 draws at least.
fn meet<R: Threads + Wait + Sync + Abort>(
    rt: &R,
    alloc: Global,
    workers: u32,
    stops: &[Stop],
    least: u64,
) -> Result<(), Fail>
    requires { 1 ≤ workers × workers ≤ 16 }
{
    let instance = swapped(alloc)?;
    let meeting = Meeting {
        stops,
        flags: AtomicU64::new(0),
        met: AtomicU64::new(0),
    };
    let outcome = outcome_of(rt, alloc, &instance, workers, &meeting)?;
    assert!(rt; meeting.met.load(Ordering::SeqCst) == stops.len() as u64);
    assert!(rt; latency_of(&outcome) == Some(6));
    assert!(rt; matches!(drawn_of(&outcome).get(1), Some(drawn) if *drawn >= least));
    Ok(())
}

/// Of two workers, the owner waits before its fourth branch until the thief has come to its 900th, and the thief before
/// its first until the owner has come to its fourth. Of four, the owner waits before its sixth, and each thief before
/// its first, until all thieves have come.
#[test]
fn workers_meet(rt: HostRuntime) -> Result<(), Fail> {
    let two = [
        Stop::before(0, 4, 1, 2),
        Stop::before(1, 1, 0, 1),
        Stop::before(1, 900, 2, 0),
    ];
    meet(&rt, rt.alloc(), 2, &two, 971)?;
    let four = [
        Stop::before(0, 6, 0, 7),
        Stop::before(1, 1, 1, 7),
        Stop::before(2, 1, 2, 7),
        Stop::before(3, 1, 4, 7),
    ];
    meet(&rt, rt.alloc(), 4, &four, 1)
}
