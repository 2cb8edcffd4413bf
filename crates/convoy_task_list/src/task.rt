use super::of_certificates::CertificateTask;
use super::of_kinds::KindsTask;
use super::of_plans::PlanTask;
use super::of_scenarios::ScenarioTask;
use super::of_traces::TraceTask;
use super::searches::SearchTask;
use convoy_best_order::Wanted;
use convoy_commands::{Options, Telling, TimeUnit};
use convoy_outages::Outage;
use convoy_ranges::RangesAsked;
use convoy_tables::Format;
use convoy_toml::Asked;

/// What a run is asked for, with all options that what it answers rests on (docs/FORMATS.md, "Commands"), by the text that
/// it reads and by whether it searches. Times are told in the `unit`, where one is asked for, also of the options. Where
/// something is `asked` beside the text, as a target or a deadline, the text is read so.
#[derive(Drop)]
pub enum Task {
    /// What is to be told of a scenario or of a certificate.
    Tell(Telling),
    /// What a scenario answers without a search.
    Scenario {
        asked: Asked,
        what: ScenarioTask,
    },
    /// The ceiling of each message of a scenario at each group, or at the group of that name alone, as a table in that
    /// format, those through outages beside them where these are asked for; traffic that attains a ceiling is sought by so
    /// many simulations at most.
    Ceilings {
        format: Format,
        group: Option<String>,
        simulations: u64,
        outage: Option<Outage>,
        asked: Asked,
        unit: Option<TimeUnit>,
    },
    /// What is found in a scenario by searches, which go as the options say.
    Search {
        asked: Asked,
        options: Options,
        what: SearchTask,
    },
    /// A table in that format, with a row for each scenario of a batch. Whether the exit status of a program is to tell
    /// how their searches end, on which nothing that is answered rests.
    BatchTable {
        format: Format,
        asked: Asked,
        options: Options,
        tells_status: bool,
    },
    /// What is asked of a plan, for the targets that are wanted.
    Plan {
        wanted: Wanted,
        asked: Asked,
        what: PlanTask,
    },
    /// What is asked of a certificate, which is checked with that many steps at most, where they are limited.
    Certificate {
        unit: Option<TimeUnit>,
        limit: Option<u64>,
        what: CertificateTask,
    },
    /// What is asked of kinds of messages.
    Kinds {
        unit: Option<TimeUnit>,
        what: KindsTask,
    },
    /// What is asked of a trace of a real run.
    Trace(TraceTask),
    /// The links that a table of round trips gives by these rules.
    Ranges {
        rules: RangesAsked,
    },
}
