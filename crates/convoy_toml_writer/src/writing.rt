ghost use Rattle.std.specs.Prelude.{◌≡◌, ◌++◌, ◌<◌, length, map, IfOk, OnErr, OnOk, string_bytes};
ghost use Rattle.std.specs.List.{flat_map};
ghost use Rattle.convoy_scenario.specs.Naming.{sender_name};
ghost use Rattle.convoy_scenario.specs.Scenario.{group_name_at, message_at};
ghost use Rattle.convoy_toml_writer.specs.Text.{
  head_text,
  least_text,
  link_text,
  lists_text,
  message_text,
  names_text,
  order_text,
  places_text,
  sender_text,
  stamps_text,
  target_text,
  tick_text,
  time_text,
  toml_text,
  until_text,
};

use super::lists::{names_text, numbers_text};
use convoy_packets::{Order, Schedule};
use convoy_scenario::naming::{
    draft_destinations, draft_groups, draft_places, draft_sender, group_name,
};
use convoy_scenario::{Duration, Link, Name, Scenario, Sender, Time};
use std::alloc::{AllocError, Global};

/// Appends the text of a scenario with a schedule, which reads as that scenario with that schedule
/// (docs/FORMATS.md, "Scenario text"): all times are numbers of ticks, and where time is real what goes by no
/// link takes 1 tick at least. The keys `schedule` and `order` stand above the tables, `order` only where a
/// rank of it is not 0. Where memory runs out, `out` stays as it was.
pub fn write_toml(
    scenario: &Scenario,
    schedule: &Schedule,
    out: &mut Vec<u8>,
) -> Result<(), AllocError>
    ensures ok { OnOk result (out.new.items ≡ out.old.items ++ toml_text scenario.now schedule.now) }
    ensures err { OnErr result (out.new.items ≡ out.old.items) }
{
    let text = document(*out.allocator(), scenario, schedule)?;
    out.extend_from_slice(text.as_bytes())
}

/// The whole text.
#[tactic(auto, unfolding(crate::specs::Text::toml_text))]
fn document(alloc: Global, scenario: &Scenario, schedule: &Schedule) -> Result<String, AllocError>
    ensures { IfOk result (λ text. string_bytes text ≡ toml_text scenario.now schedule.now) }
{
    let head = head_text(alloc, scenario, schedule)?;
    let links = links_text(alloc, scenario)?;
    let messages = messages_text(alloc, scenario)?;
    let target = target_text(alloc, scenario)?;
    format!(in alloc; "{head}{links}{messages}{target}")
}

/// The lines above all tables.
#[tactic(auto, unfolding(crate::specs::Text::head_text))]
fn head_text(alloc: Global, scenario: &Scenario, schedule: &Schedule) -> Result<String, AllocError>
    ensures { IfOk result (λ text. string_bytes text ≡ head_text scenario.now schedule.now) }
{
    let time = time_text(scenario.time());
    let tick = tick_text(alloc, scenario.tick())?;
    let delay = scenario.delay();
    let least = least_text(scenario.time());
    let lists = lists_text(alloc, scenario, schedule)?;
    format!(in alloc; "{time}{tick}delay = {delay}\n{least}{lists}")
}

/// The lines of lists above all tables.
#[tactic(auto, unfolding(crate::specs::Text::lists_text))]
fn lists_text(alloc: Global, scenario: &Scenario, schedule: &Schedule) -> Result<String, AllocError>
    ensures { IfOk result (λ text. string_bytes text ≡ lists_text scenario.now schedule.now) }
{
    let groups = groups_text(alloc, scenario)?;
    let places = places_text(alloc, scenario)?;
    let delays = numbers_text(alloc, schedule.delays())?;
    let order = order_text(alloc, scenario, schedule.order())?;
    format!(in alloc; "groups = [{groups}]\n{places}schedule = [{delays}]\n{order}")
}

/// The line that says that time is real; whole ticks have none.
fn time_text(time: Time) -> &'static str
    ensures { result.now ≡ time_text time }
{
    match time {
        Time::Ticks => "",
        Time::Real => "time = \"real\"\n",
    }
}

/// The line of the least delay of what goes by no link: a tick, where time is real; whole ticks have none.
fn least_text(time: Time) -> &'static str
    ensures { result.now ≡ least_text time }
{
    match time {
        Time::Ticks => "",
        Time::Real => "least = 1\n",
    }
}

/// The line of the length of a tick, where that is known.
#[tactic(auto, unfolding(crate::specs::Text::tick_text))]
fn tick_text(alloc: Global, tick: Option<Duration>) -> Result<String, AllocError>
    ensures { IfOk result (λ text. string_bytes text ≡ tick_text tick) }
{
    match tick {
        Some(tick) => {
            let (count, unit) = (tick.count(), tick.unit().word());
            format!(in alloc; "tick = \"{count} {unit}\"\n")
        }
        None => Ok(String::new(alloc)),
    }
}

/// The names of the groups, each in quotes, with commas between them.
fn groups_text(alloc: Global, scenario: &Scenario) -> Result<String, AllocError>
    ensures { IfOk result (λ text. string_bytes text ≡ names_text scenario.now.groups) }
{
    let groups = draft_groups(alloc, scenario)?;
    names_text(alloc, &groups)
}

/// The line of the places of clients, where there are any.
fn places_text(alloc: Global, scenario: &Scenario) -> Result<String, AllocError>
    ensures { IfOk result (λ text. string_bytes text ≡ places_text scenario.now.places) }
{
    let places = draft_places(alloc, scenario)?;
    names_line(alloc, &places)
}

/// The line of places of these names, where there are any.
#[tactic(auto, unfolding(crate::specs::Text::places_text))]
fn names_line(alloc: Global, places: &[Name]) -> Result<String, AllocError>
    ensures { IfOk result (λ text. string_bytes text ≡ places_text places.now) }
{
    match places {
        [] => Ok(String::new(alloc)),
        [_, ..] => {
            let names = names_text(alloc, places)?;
            format!(in alloc; "places = [{names}]\n")
        }
    }
}

/// The line of the ranks of an order of ties, where they are not all 0.
#[tactic(auto, unfolding(crate::specs::Text::order_text))]
fn order_text(alloc: Global, scenario: &Scenario, order: &Order) -> Result<String, AllocError>
    ensures { IfOk result (λ text. string_bytes text ≡ order_text scenario.now order.now) }
{
    if order.is_none() {
        return Ok(String::new(alloc));
    }
    let ranks = order.ranks(alloc, scenario)?;
    let ranks = numbers_text(alloc, &ranks)?;
    format!(in alloc; "order = [{ranks}]\n")
}

/// The tables of all links.
fn links_text(alloc: Global, scenario: &Scenario) -> Result<String, AllocError>
    ensures { IfOk result (λ text. string_bytes text
        ≡ flat_map (link_text scenario.now) scenario.now.links) }
{
    let mut text = String::new(alloc);
    for link in scenario.links() {
        let table = link_text(alloc, scenario, link)?;
        text.push_str(table.as_str())?;
    }
    Ok(text)
}

/// The table of a link.
#[tactic(auto, unfolding(crate::specs::Text::link_text))]
fn link_text(alloc: Global, scenario: &Scenario, link: &Link) -> Result<String, AllocError>
    ensures { IfOk result (λ text. string_bytes text ≡ link_text scenario.now link.now) }
{
    let from = sender_text(alloc, scenario, link.sender)?;
    let to = group_name(scenario, link.to);
    let (least, most) = (link.least, link.most);
    let stamps = stamps_text(link.stamps);
    format!(in alloc; "\n[[link]]\n{from}to = \"{to}\"\nleast = {least}\nmost = {most}\n{stamps}")
}

/// The line that says that a group's own stamps go by a link, too; others have none.
fn stamps_text(stamps: bool) -> &'static str
    ensures { result.now ≡ stamps_text stamps }
{
    if stamps { "stamps = true\n" } else { "" }
}

/// The line of the name of who sends; a client of no named place has none.
#[tactic(auto, unfolding(crate::specs::Text::sender_text))]
fn sender_text(alloc: Global, scenario: &Scenario, sender: Sender) -> Result<String, AllocError>
    ensures { IfOk result (λ text. string_bytes text ≡ sender_text (sender_name scenario.now sender)) }
{
    match draft_sender(alloc, scenario, sender)? {
        Some(name) => {
            let name = name.as_str();
            format!(in alloc; "from = \"{name}\"\n")
        }
        None => Ok(String::new(alloc)),
    }
}

/// The tables of all messages.
fn messages_text(alloc: Global, scenario: &Scenario) -> Result<String, AllocError>
    ensures { IfOk result (λ text. string_bytes text
        ≡ flat_map (message_text scenario.now) scenario.now.multicasts) }
{
    let mut text = String::new(alloc);
    for message in 0..scenario.message_count() {
        let table = message_text(alloc, scenario, message)?;
        text.push_str(table.as_str())?;
    }
    Ok(text)
}

/// The table of a message.
#[tactic(auto, unfolding(crate::specs::Text::message_text))]
fn message_text(alloc: Global, scenario: &Scenario, message: usize) -> Result<String, AllocError>
    requires { message < length scenario.now.multicasts }
    ensures { IfOk result (λ text. string_bytes text
        ≡ message_text scenario.now (message_at scenario.now message)) }
{
    let name = scenario.message_name(message);
    let from = sender_text(alloc, scenario, scenario.sender(message))?;
    let to = destinations_text(alloc, scenario, message)?;
    let at = scenario.issue_tick(message);
    let until = until_text(alloc, scenario, message)?;
    format!(in alloc; "\n[[multicast]]\nname = \"{name}\"\n{from}to = [{to}]\nat = {at}\n{until}")
}

/// The names of the groups that a message goes to, each in quotes, with commas between them.
fn destinations_text(
    alloc: Global,
    scenario: &Scenario,
    message: usize,
) -> Result<String, AllocError>
    requires { message < length scenario.now.multicasts }
    ensures { IfOk result (λ text. string_bytes text
        ≡ names_text (map (group_name_at scenario.now) (message_at scenario.now message).destinations)) }
{
    let groups = draft_destinations(alloc, scenario, scenario.destinations(message))?;
    names_text(alloc, &groups)
}

/// The line of the last tick at which a message may be issued; one whose issue is known has none.
#[tactic(auto, unfolding(crate::specs::Text::until_text))]
fn until_text(alloc: Global, scenario: &Scenario, message: usize) -> Result<String, AllocError>
    requires { message < length scenario.now.multicasts }
    ensures { IfOk result (λ text. string_bytes text
        ≡ until_text (message_at scenario.now message)) }
{
    let longest_wait = scenario.longest_wait(message);
    if longest_wait == 0 {
        return Ok(String::new(alloc));
    }
    let until = u64::from(scenario.issue_tick(message)) + u64::from(longest_wait);
    format!(in alloc; "until = {until}\n")
}

/// The table of the target.
#[tactic(auto, unfolding(crate::specs::Text::target_text))]
fn target_text(alloc: Global, scenario: &Scenario) -> Result<String, AllocError>
    ensures { IfOk result (λ text. string_bytes text ≡ target_text scenario.now) }
{
    let message = scenario.message_name(scenario.target_message());
    let group = group_name(scenario, scenario.target_group());
    format!(in alloc; "\n[target]\nmessage = \"{message}\"\ngroup = \"{group}\"\n")
}
