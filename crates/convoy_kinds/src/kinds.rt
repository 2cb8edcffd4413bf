ghost use Rattle.std.specs.Prelude.{◌≡◌, ◌<◌, length};
ghost use Rattle.convoy_scenario.specs.Scenario.{is_addressed, message_at};
ghost use Rattle.convoy_kinds.specs.Kinds.{IsKinds, Kind, Kinds, all_kinds, kind_name};

use convoy_scenario::{Name, Scenario, Sender, TimeUnit};
use std::marker::Model;

/// A kind of messages: who sends one, and where it goes.
#[derive(Drop)]
pub struct Kind {
    /// The number of the table that writes it.
    pub table: usize,
    pub sender: Sender,
    /// The numbers of the groups that it goes to, ascending.
    pub destinations: Vec<usize>,
}

impl Model for Kind {
    ghost Value = { Kind };

    ghost view = { λ k. record { table = k.table; sender = k.sender; destinations = k.destinations.items } };
}

/// Kinds of messages (docs/FORMATS.md, "Kinds text"). Tables, kinds and groups go by number, from 0, in the order of the
/// text.
#[derive(Drop)]
pub struct Kinds {
    pub(crate) setting: Scenario,
    pub(crate) unit: Option<TimeUnit>,
    pub(crate) tables: Vec<Name>,
    pub(crate) kinds: Vec<Kind>,
}

impl Model for Kinds {
    ghost Value = { Kinds };

    ghost view = { λ k. record { setting = k.setting; unit = k.unit; tables = k.tables.items; kinds = k.kinds.items } };

    ghost invariant = { λ k. IsKinds (view k) };
}

impl Kinds {
    /// A scenario that has the time, the ticks, D, the groups and the links that the kinds share. What its message is does not
    /// matter.
    pub fn setting(&self) -> &Scenario
        ensures value { result.now ≡ self.now.setting }
        ensures lawful { IsKinds self.now }
    {
        &self.setting
    }

    /// The unit in which the text writes D, where it writes that as a duration.
    pub fn unit(&self) -> Option<TimeUnit>
        ensures { result ≡ self.now.unit }
    {
        self.unit
    }

    /// How many kinds there are.
    pub fn kind_count(&self) -> usize
        ensures value { result ≡ length self.now.kinds }
        ensures lawful { IsKinds self.now }
    {
        self.kinds.len()
    }

    /// How many groups there are.
    pub fn group_count(&self) -> usize
        ensures value { result ≡ length self.now.setting.groups }
        ensures lawful { IsKinds self.now }
    {
        self.setting.group_count()
    }

    /// The name of the table that writes a kind.
    pub fn kind_name(&self, kind: usize) -> &str
        requires { kind < length self.now.kinds }
        ensures { result.now ≡ kind_name self.now kind }
    {
        match self.tables.get(self.kinds[kind].table) {
            Some(name) => name.as_str(),
            None => "",
        }
    }

    /// Who sends a message of a kind.
    pub fn sender(&self, kind: usize) -> Sender
        requires { kind < length self.now.kinds }
        ensures value { result ≡ (message_at (all_kinds self.now) kind).sender }
        ensures lawful { IsKinds self.now }
    {
        let kind = &self.kinds[kind];
        kind.sender
    }

    /// The numbers of the groups that a message of a kind goes to, ascending.
    pub fn destinations(&self, kind: usize) -> &[usize]
        requires { kind < length self.now.kinds }
        ensures value { result.now ≡ (message_at (all_kinds self.now) kind).destinations }
        ensures lawful { IsKinds self.now }
    {
        let kind = &self.kinds[kind];
        kind.destinations.as_slice()
    }

    /// Whether a message of a kind goes to a group.
    pub fn goes_to(&self, kind: usize, group: usize) -> bool
        requires { kind < length self.now.kinds }
        ensures { result ≡ is_addressed (message_at (all_kinds self.now) kind) group }
    {
        self.destinations(kind).contains(&group)
    }
}
