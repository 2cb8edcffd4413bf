//! The laws of rooms. Each is the one clause of a function that does nothing; a caller that needs the law calls the
//! function.

ghost use Rattle.convoy_budget.specs.BudgetLaws.{RoomsHold, RoomsTell};

use convoy_orders::order_laws::target_is_asked_for;
use convoy_orders::range_laws::narrower_links_are_no_slower;
use convoy_scenario::scenario_laws::drafts_give_scenarios;

/// A room by searches tells a breadth with which no schedule is beyond the deadline, and that with one tick more some
/// schedule is.
pub fn rooms_tell()
    ensures { RoomsTell }
{}

/// So it is with each breadth: with each that is no greater the deadline is kept, and with each that is greater it is
/// not. In terms of a link: with each lesser most, or each greater least, and with each greater or lesser one.
pub fn rooms_hold()
    ensures { RoomsHold }
{
    drafts_give_scenarios();
    target_is_asked_for();
    narrower_links_are_no_slower();
}
