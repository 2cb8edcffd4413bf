//! The commands, in the order in which help lists them, each with its options as help lists these.

use super::help;
use super::settings::{
    ACCEPT, ALL, ALL_CHANGES, ALL_DEADLINES, ALL_TARGETS, AROUND, AT_MOST, BATCH_AT_MOST,
    BATCH_FORMAT, BATCH_JOBS, BOUNDS, BUDGET_TARGET, BY_CEILING, CEILING, CEILING_TARGET,
    CEILINGS_FORMAT, CEILINGS_JOBS, CERTIFYING, CHANGES_TARGET, CHECK, EACH_AROUND, ENVELOPE,
    FIRST_PLACEMENTS, FORMAT, GROUP, JOBS, KINDS, LEAST, LIMIT, LINKS_FORMAT, LINKS_UNIT, LISTING,
    MARGIN, OF_CEILING, OF_PLAN, OUTAGE, PLACED_TARGETS, PLACING, PLAN_AT_MOST, PLAN_TARGET,
    PLAN_TARGETS, PROGRESS, SCENARIO, SECONDS, SEEK, SEEK_TRAFFIC, SET, SKEW, SPEED, STATUS, STEPS,
    SURVEY_CEILING, SWEEP_AROUND, SWEEP_FORMAT, Setting, TARGET, TELL, TICK, TRACE, TRACE_UNIT,
    UNIT, WHY, WHY_THERE, WITHOUT, WORKERS, WRITTEN_AROUND, WRITTEN_TARGET,
};

/// A command, with its options but for those that all commands have. Each reads a text, from a file where one
/// is named.
#[derive(Clone, Copy)]
pub(crate) struct Listed {
    pub(crate) name: &'static str,
    pub(crate) about: &'static str,
    pub(crate) long_about: &'static str,
    pub(crate) settings: &'static [Setting],
}

impl Listed {
    /// Whether the file of a scenario is named before that of the text.
    pub(crate) fn reads_scenario(&self) -> bool {
        self.name == "fits"
    }

    /// The option of that name, where the command has it.
    pub(crate) fn setting(&self, name: &str) -> Option<Setting> {
        self.settings
            .iter()
            .find(|setting| setting.name == name)
            .copied()
    }
}

/// The commands. Only here is their table named: each function that names it has all of it to be proved.
pub(crate) fn commands() -> [Listed; 20] {
    COMMANDS
}

/// The command of that name.
pub(crate) fn command_named(name: &str) -> Option<Listed> {
    commands()
        .iter()
        .find(|listed| listed.name == name)
        .copied()
}

/// The option of that name, of the first command that has it.
pub(crate) fn setting_named(name: &str) -> Option<Setting> {
    for listed in commands() {
        if let Some(setting) = listed.setting(name) {
            return Some(setting);
        }
    }
    None
}

/// Their table.
const COMMANDS: [Listed; 20] = [
    Listed {
        name: "analyse",
        about: help::ABOUT_ANALYSE,
        long_about: help::LONG_ABOUT_ANALYSE,
        settings: &[
            TARGET, AROUND, AT_MOST, LIMIT, SECONDS, SEEK, BOUNDS, WORKERS, PROGRESS,
        ],
    },
    Listed {
        name: "explain",
        about: help::ABOUT_EXPLAIN,
        long_about: help::LONG_ABOUT_EXPLAIN,
        settings: &[STEPS, UNIT, CEILING],
    },
    Listed {
        name: "draw",
        about: help::ABOUT_DRAW,
        long_about: help::LONG_ABOUT_DRAW,
        settings: &[STEPS, UNIT],
    },
    Listed {
        name: "latency",
        about: help::ABOUT_LATENCY,
        long_about: help::LONG_ABOUT_LATENCY,
        settings: &[
            TARGET, AROUND, AT_MOST, OUTAGE, ACCEPT, LIMIT, SECONDS, SEEK, BOUNDS, WORKERS,
            PROGRESS, UNIT, CEILING,
        ],
    },
    Listed {
        name: "ceiling",
        about: help::ABOUT_CEILING,
        long_about: help::LONG_ABOUT_CEILING,
        settings: &[
            CEILING_TARGET,
            AT_MOST,
            ALL,
            GROUP,
            OUTAGE,
            KINDS,
            CEILINGS_FORMAT,
            UNIT,
            SEEK_TRAFFIC,
            CEILINGS_JOBS,
        ],
    },
    Listed {
        name: "survey",
        about: help::ABOUT_SURVEY,
        long_about: help::LONG_ABOUT_SURVEY,
        settings: &[
            LIMIT,
            SECONDS,
            SEEK,
            BOUNDS,
            WORKERS,
            JOBS,
            PROGRESS,
            FORMAT,
            UNIT,
            SURVEY_CEILING,
            AT_MOST,
            OUTAGE,
            EACH_AROUND,
            WITHOUT,
            CHANGES_TARGET,
            ALL_CHANGES,
        ],
    },
    Listed {
        name: "report",
        about: help::ABOUT_REPORT,
        long_about: help::LONG_ABOUT_REPORT,
        settings: &[
            TARGET,
            EACH_AROUND,
            AT_MOST,
            LIMIT,
            SECONDS,
            SEEK,
            BOUNDS,
            WORKERS,
            JOBS,
            PROGRESS,
            UNIT,
        ],
    },
    Listed {
        name: "budget",
        about: help::ABOUT_BUDGET,
        long_about: help::LONG_ABOUT_BUDGET,
        settings: &[
            BUDGET_TARGET,
            EACH_AROUND,
            AT_MOST,
            ALL_DEADLINES,
            OF_CEILING,
            LIMIT,
            SECONDS,
            SEEK,
            BOUNDS,
            WORKERS,
            JOBS,
            PROGRESS,
            FORMAT,
            UNIT,
        ],
    },
    Listed {
        name: "order",
        about: help::ABOUT_ORDER,
        long_about: help::LONG_ABOUT_ORDER,
        settings: &[
            BUDGET_TARGET,
            EACH_AROUND,
            AT_MOST,
            ALL_TARGETS,
            WHY,
            LISTING,
            LIMIT,
            SECONDS,
            SEEK,
            BOUNDS,
            WORKERS,
            JOBS,
            PROGRESS,
            FORMAT,
            UNIT,
        ],
    },
    Listed {
        name: "plan",
        about: help::ABOUT_PLAN,
        long_about: help::LONG_ABOUT_PLAN,
        settings: &[
            BUDGET_TARGET,
            AT_MOST,
            PLACED_TARGETS,
            BY_CEILING,
            FIRST_PLACEMENTS,
            WHY_THERE,
            PLACING,
            CERTIFYING,
            LIMIT,
            SECONDS,
            SEEK,
            BOUNDS,
            WORKERS,
            JOBS,
            PROGRESS,
            FORMAT,
            UNIT,
        ],
    },
    Listed {
        name: "ranges",
        about: help::ABOUT_RANGES,
        long_about: help::LONG_ABOUT_RANGES,
        settings: &[
            MARGIN,
            SPEED,
            LEAST,
            TICK,
            TRACE,
            CHECK,
            LINKS_FORMAT,
            LINKS_UNIT,
        ],
    },
    Listed {
        name: "sweep",
        about: help::ABOUT_SWEEP,
        long_about: help::LONG_ABOUT_SWEEP,
        settings: &[
            SET,
            ENVELOPE,
            TARGET,
            SWEEP_AROUND,
            AT_MOST,
            LIMIT,
            SECONDS,
            SEEK,
            BOUNDS,
            WORKERS,
            JOBS,
            PROGRESS,
            SWEEP_FORMAT,
            UNIT,
        ],
    },
    Listed {
        name: "batch",
        about: help::ABOUT_BATCH,
        long_about: help::LONG_ABOUT_BATCH,
        settings: &[
            LIMIT,
            SECONDS,
            SEEK,
            BOUNDS,
            WORKERS,
            BATCH_JOBS,
            PROGRESS,
            BATCH_AT_MOST,
            AROUND,
            STATUS,
            BATCH_FORMAT,
            UNIT,
        ],
    },
    Listed {
        name: "check",
        about: help::ABOUT_CHECK,
        long_about: help::LONG_ABOUT_CHECK,
        settings: &[
            STEPS,
            SCENARIO,
            TELL,
            UNIT,
            OF_PLAN,
            PLAN_TARGET,
            PLAN_TARGETS,
            PLAN_AT_MOST,
        ],
    },
    Listed {
        name: "fits",
        about: help::ABOUT_FITS,
        long_about: help::LONG_ABOUT_FITS,
        settings: &[SKEW, TRACE_UNIT],
    },
    Listed {
        name: "first",
        about: help::ABOUT_FIRST,
        long_about: help::LONG_ABOUT_FIRST,
        settings: &[TARGET, AROUND],
    },
    Listed {
        name: "simulate",
        about: help::ABOUT_SIMULATE,
        long_about: help::LONG_ABOUT_SIMULATE,
        settings: &[],
    },
    Listed {
        name: "timeline",
        about: help::ABOUT_TIMELINE,
        long_about: help::LONG_ABOUT_TIMELINE,
        settings: &[],
    },
    Listed {
        name: "packets",
        about: help::ABOUT_PACKETS,
        long_about: help::LONG_ABOUT_PACKETS,
        settings: &[],
    },
    Listed {
        name: "scenario",
        about: help::ABOUT_SCENARIO,
        long_about: help::LONG_ABOUT_SCENARIO,
        settings: &[WRITTEN_AROUND, WRITTEN_TARGET],
    },
];
