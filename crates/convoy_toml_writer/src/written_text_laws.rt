//! The laws of scenario texts that are written and read. Each is the one clause of a function that does
//! nothing; a caller that needs the law calls the function.

ghost use Rattle.convoy_toml_writer.specs.WrittenTextLaws.{SchedulesAreGiven, TextsAreRead};

use convoy_packets::schedule_laws::{
    fixed_order_is_decided, lists_of_delays_are_schedules, orders_are_their_lists,
    ranks_are_one_each,
};
use convoy_scenario::scenario_laws::{links_are_few, scenarios_have_drafts};

/// The text that is written of a scenario with a schedule is read as that scenario, with the schedule's
/// delays, and with its order of ties unless this is the fixed one (docs/FORMATS.md, "Scenario text").
pub fn texts_are_read()
    ensures { TextsAreRead }
{
    scenarios_have_drafts();
    links_are_few();
    ranks_are_one_each();
}

/// What is read of that text gives the schedule again: its delays are those of the list, and its order of
/// ties is that of the ranks, or the fixed one where there are none.
pub fn schedules_are_given()
    ensures { SchedulesAreGiven }
{
    lists_of_delays_are_schedules();
    fixed_order_is_decided();
    ranks_are_one_each();
    orders_are_their_lists();
}
