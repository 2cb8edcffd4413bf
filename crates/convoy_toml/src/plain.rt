use super::placed::ScenarioTable;
use super::written::{
    WrittenAgreement, WrittenLink, WrittenMulticast, WrittenScenario, WrittenTime,
};
use convoy_scenario::{Key, Name, Time};

/// A number of ticks that stands beside durations in a scenario text.
#[derive(Clone, Copy, Drop)]
pub struct PlainNumber {
    /// The table in which it stands.
    pub table: ScenarioTable,
    /// How many tables of that kind the text has.
    pub among: usize,
    /// Its key there.
    pub key: Key,
    /// The number.
    pub ticks: i64,
}

/// What is seen of the times of a scenario, one after the other in the order in which faults of them are told.
#[derive(Drop)]
struct Sight {
    /// The first number of ticks that says more than 0, or than the least delay of a tick.
    number: Option<PlainNumber>,
    /// Whether there is a duration.
    has_durations: bool,
}

impl Sight {
    /// Sees the time at a key of one of so many tables, if one is there.
    fn see(&mut self, table: ScenarioTable, among: usize, key: Key, time: Option<WrittenTime>) {
        // (0, and the least delay of a tick, are the same however long a tick is)
        let least = if key == Key::Least { 1 } else { 0 };
        match time {
            Some(WrittenTime::Count(ticks)) if ticks != least && self.number.is_none() => {
                self.number = Some(PlainNumber {
                    table,
                    among,
                    key,
                    ticks,
                });
            }
            Some(WrittenTime::Lasting(_)) => self.has_durations = true,
            _ => {}
        }
    }

    fn see_multicasts(&mut self, multicasts: &[WrittenMulticast]) {
        for (number, multicast) in multicasts.iter().enumerate() {
            let table = ScenarioTable::Multicast(number);
            self.see(table, multicasts.len(), Key::At, Some(multicast.at));
            self.see(table, multicasts.len(), Key::Until, multicast.until);
        }
    }

    fn see_links(&mut self, links: &[WrittenLink], multicasts: &[WrittenMulticast]) {
        // (the links from the own places of slow messages stand in no table of the text)
        let own = links.iter().position(|link| some_send_by(multicasts, link));
        let links = &links[..own.unwrap_or(links.len())];
        for (number, link) in links.iter().enumerate() {
            let table = ScenarioTable::Link(number);
            self.see(table, links.len(), Key::Least, Some(link.least));
            self.see(table, links.len(), Key::Most, Some(link.most));
        }
    }

    fn see_agreements(&mut self, agreements: &[WrittenAgreement]) {
        for (number, agreement) in agreements.iter().enumerate() {
            let table = ScenarioTable::Group(number);
            let among = agreements.len();
            self.see(table, among, Key::Agree, Some(agreement.least));
            self.see(table, among, Key::Agree, Some(agreement.most));
        }
    }
}

/// Whether the link leads from the own place of one of the messages.
fn some_send_by(multicasts: &[WrittenMulticast], link: &WrittenLink) -> bool {
    match &link.ends.senders {
        Some(senders) => senders
            .iter()
            .all(|sender| some_are_named(multicasts, sender)),
        None => false,
    }
}

/// Whether one of the messages is sent from a place of that name, which is its own.
fn some_are_named(multicasts: &[WrittenMulticast], place: &Name) -> bool {
    multicasts.iter().any(|multicast| {
        multicast.name.is_same(place) && is_some_and_same(&multicast.sender, place)
    })
}

fn is_some_and_same(sender: &Option<Name>, place: &Name) -> bool {
    match sender {
        Some(name) => name.is_same(place),
        None => false,
    }
}

/// The first plain number beside durations, in real time and where the length of a tick is written; None where there is
/// none.
pub fn plain_number(scenario: &WrittenScenario) -> Option<PlainNumber> {
    if scenario.time != Time::Real || scenario.tick.is_none() {
        return None;
    }
    let mut sight = Sight {
        number: None,
        has_durations: false,
    };
    sight.see(ScenarioTable::Top, 1, Key::Delay, scenario.delay);
    sight.see(ScenarioTable::Top, 1, Key::Least, scenario.least);
    sight.see_multicasts(&scenario.multicasts);
    sight.see_links(&scenario.links, &scenario.multicasts);
    sight.see_agreements(&scenario.agreements);
    if sight.has_durations {
        sight.number
    } else {
        None
    }
}
