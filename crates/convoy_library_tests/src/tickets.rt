ghost use Rattle.std.specs.Prelude.{◌≡◌, ◌≤◌, IfOk};
ghost use Rattle.convoy_library.specs.Tickets.{most_tickets};
ghost use Rattle.convoy_library_tests.specs.Sharing.{DrawsAll};

use convoy_library::ledger::{Clerk, Ledger};
use std::alloc::{AllocError, Global};
use std::thread::{Threads, join};

/// Draws all tickets of one ledger by two threads, and answers how many both drew: none is drawn
/// twice, and none is left. Fails only where memory runs out.
pub fn draw_together<R: Threads>(rt: &R, alloc: Global, most: u64) -> Result<u64, AllocError>
    requires { (1 ≤ most) × (most ≤ most_tickets) }
    ensures { IfOk result (λ drawn. drawn ≡ most) }
{
    let (ledger, mut first) = Ledger::open(alloc, most)?;
    let Ok(second) = ledger.split(&mut first) else {
        unreachable!()
    };
    let shared = &ledger;
    let (mut first, second) = join(
        rt,
        move || -> Clerk
            requires { first.ledger ≡ shared.now }
            ensures { DrawsAll first result }
        { draw_all(shared, first) },
        move || -> Clerk
            requires { second.ledger ≡ shared.now }
            ensures { DrawsAll second result }
        { draw_all(shared, second) },
    );
    ledger.join(&mut first, second);
    match ledger.close(first) {
        Ok(drawn) => Ok(drawn),
        Err(_) => unreachable!(),
    }
}

/// Draws until no ticket is left.
fn draw_all(ledger: &Ledger, mut clerk: Clerk) -> Clerk
    requires { clerk.ledger ≡ ledger.now }
    ensures { DrawsAll clerk result }
{
    while let Some(_) = ledger.draw(&mut clerk) {}
    clerk
}
