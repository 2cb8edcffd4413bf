//! Worked rows on ledgers, by one thread and by two.

use crate::draw_together;
use convoy_ledger::{ClerksOut, Ledger};
use std::test::Fail;

#[test]
fn ledger_tickets(rt: HostRuntime) -> Result<(), Fail> {
    let (ledger, mut first) = Ledger::open(rt.alloc(), 4)?;
    let Ok(mut second) = ledger.split(&mut first) else {
        panic!(rt; "a new clerk could not be split");
    };
    assert!(rt; ledger.draw(&mut first) == Some(0));
    assert!(rt; ledger.draw(&mut second) == Some(1));
    assert!(rt; ledger.draw(&mut second) == Some(2));
    assert!(rt; ledger.draw(&mut first) == Some(3));
    assert!(rt; !second.done());
    assert!(rt; ledger.draw(&mut second) == None);
    assert!(rt; second.done() && !first.done());
    let Err(ClerksOut(ledger, mut first)) = ledger.close(first) else {
        panic!(rt; "closed while a clerk was out");
    };
    ledger.join(&mut first, second);
    assert!(rt; first.done());
    let Ok(drawn) = ledger.close(first) else {
        panic!(rt; "not closed with the whole share");
    };
    assert!(rt; drawn == 4);
    Ok(())
}

#[test]
fn all_tickets_are_drawn(rt: HostRuntime) -> Result<(), Fail> {
    for most in [1, 2, 1000] {
        assert!(rt; draw_together(&rt, rt.alloc(), most)? == most);
    }
    Ok(())
}
