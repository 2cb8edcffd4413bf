ghost use Rattle.std.specs.Prelude.{◌≡◌, ◌↔◌, ◌≤◌, min, Some, IfSome, IsSome};
ghost use Rattle.convoy_branch.specs.SearchBounds.{most_nodes};
ghost use Rattle.convoy_branch.specs.Options.{AreSettings, both_ways_settings, first_bounds, limit_of};
ghost use Rattle.convoy_branch.specs.declared.options.Ways.TheVariants.{One};

use super::bounds::Bounds;
use super::limit::Limit;
use super::splits::Splits;
use convoy_certificate::MOST_NODES;
use convoy_scenario::TimeUnit;
use convoy_shares::MOST_WORKERS;
use std::marker::Model;

/// How many tickets a search by plain or stamp bounds, or both ways, spends at most. A certificate has a
/// node for each, and so no more than are read.
pub const MOST_TICKETS: u64 = MOST_NODES as u64;

/// How many tickets a search spends at most where the user asks for no other limit.
pub const DEFAULT_LIMIT: u64 = 1_000_000;

/// How many schedules are simulated at most before a search, to find a good one to start from.
pub const MOST_SIMULATIONS: u64 = 1_000_000;

/// How many schedules are simulated at most before a search where the user asks for no other number.
pub const DEFAULT_SIMULATIONS: u64 = 20_000;

/// By what a search goes (docs/PROTOCOL.md).
#[derive(Clone, Copy, PartialEq, Eq)]
pub enum Ways {
    /// By those bounds alone.
    One(Bounds),
    /// By plain bounds, and where boxes are left then, by leads from the root.
    Both,
}

impl Ways {
    /// By what the search begins.
    pub fn first_bounds(self) -> Bounds
        ensures { result ≡ first_bounds self }
    {
        match self {
            Ways::One(bounds) => bounds,
            Ways::Both => Bounds::Plain,
        }
    }
}

/// What [`Options`] are made of: contracts see options as this.
#[derive(Clone, Copy)]
pub struct Settings {
    pub workers: u32,
    pub limit: u64,
    pub simulations: u64,
    pub most_reads: u64,
    pub ways: Ways,
    pub seconds: Option<u32>,
    pub unit: Option<TimeUnit>,
}

/// How a search runs: its workers, from 1 to [`MOST_WORKERS`]; its limit of tickets, from 1 to
/// [`MOST_TICKETS`], or by leads to as many as lead leaves are read; how many schedules are simulated
/// at most to find a good one to start from, up to [`MOST_SIMULATIONS`]; how many reads of the input
/// are made at most; by what it closes boxes, or that it goes both ways; after how many seconds it stops, if it is to;
/// and in which unit times are told of what it finds, where one is asked for.
#[derive(Clone, Copy)]
pub struct Options {
    settings: Settings,
}

impl Model for Options {
    ghost use Rattle.convoy_branch.specs.Options.{AreSettings};
    ghost use Rattle.convoy_branch.specs.declared.options.Settings.{Settings};

    ghost Value = { Settings };

    ghost view = { λ o. o.settings };

    ghost inverse = { λ s. record { settings = s } };

    ghost invariant = { λ o. AreSettings o.settings };
}

impl Options {
    /// Options of these numbers, of a search both ways that starts from the least delays; none where the
    /// workers or the limit are out of range.
    pub fn new(workers: u32, limit: u64, most_reads: u64) -> Option<Options>
        ensures range { IsSome result ↔ AreSettings (both_ways_settings workers limit most_reads) }
        ensures value { IfSome result
            (λ options. options ≡ both_ways_settings workers limit most_reads) }
    {
        if workers < 1 || workers > MOST_WORKERS || limit < 1 || limit > MOST_TICKETS {
            return None;
        }
        let settings = Settings {
            workers,
            limit,
            simulations: 0,
            most_reads,
            ways: Ways::Both,
            seconds: None,
            unit: None,
        };
        Some(Options { settings })
    }

    /// The same options, of a search that starts from the best schedule that so many simulations
    /// find. The number is at most [`MOST_SIMULATIONS`], which it requires.
    pub fn seeking(self, simulations: u64) -> Options
        requires { simulations ≤ MOST_SIMULATIONS }
        ensures { result ≡ record self { simulations = simulations } }
    {
        let settings = Settings {
            simulations,
            ..self.settings
        };
        Options { settings }
    }

    /// The same options, of a search by those bounds alone, or by leads. It spends no more tickets than
    /// nodes are read for sure, whatever they are: a greater limit is lowered to that number.
    pub fn going_by(self, bounds: Bounds) -> Options
        ensures { result ≡ record self { limit = min self.limit (most_nodes bounds); ways = One bounds } }
    {
        let settings = Settings {
            limit: self.settings.limit.min(bounds.most_nodes() as u64),
            ways: Ways::One(bounds),
            ..self.settings
        };
        Options { settings }
    }

    /// The same options, of a search that stops after so many seconds, which its gate counts.
    pub fn stopping_after(self, seconds: u32) -> Options
        ensures { result ≡ record self { seconds = Some seconds } }
    {
        let settings = Settings {
            seconds: Some(seconds),
            ..self.settings
        };
        Options { settings }
    }

    /// The same options, where times are told in that unit.
    pub fn telling_in(self, unit: TimeUnit) -> Options
        ensures { result ≡ record self { unit = Some unit } }
    {
        let settings = Settings {
            unit: Some(unit),
            ..self.settings
        };
        Options { settings }
    }

    /// How many workers search.
    pub fn workers(&self) -> u32
        ensures value { result ≡ self.now.workers }
        ensures lawful { AreSettings self.now }
    {
        self.settings.workers
    }

    /// How many tickets are spent at most.
    pub fn limit(&self) -> u64
        ensures value { result ≡ self.now.limit }
        ensures lawful { AreSettings self.now }
    {
        self.settings.limit
    }

    /// How many schedules are simulated at most before the search.
    pub fn simulations(&self) -> u64
        ensures { result ≡ self.now.simulations }
    {
        self.settings.simulations
    }

    /// How many reads are made at most.
    pub fn most_reads(&self) -> u64
        ensures { result ≡ self.now.most_reads }
    {
        self.settings.most_reads
    }

    /// By what the search closes boxes, or that it goes both ways.
    pub fn ways(&self) -> Ways
        ensures value { result ≡ self.now.ways }
        ensures lawful { AreSettings self.now }
    {
        self.settings.ways
    }

    /// After how many seconds the search stops, if it is to.
    pub fn seconds(&self) -> Option<u32>
        ensures { result ≡ self.now.seconds }
    {
        self.settings.seconds
    }

    /// In which unit times are told, where one is asked for.
    pub fn unit(&self) -> Option<TimeUnit>
        ensures { result ≡ self.now.unit }
    {
        self.settings.unit
    }

    /// How far the search goes: to its last ticket, or until its gate stops it where there are seconds to
    /// stop it after.
    pub fn search_limit(&self) -> Limit
        ensures { result ≡ limit_of self.now }
    {
        Limit {
            tickets: self.settings.limit,
            may_stop: self.settings.seconds.is_some(),
            splits: Splits::Orders,
        }
    }
}
