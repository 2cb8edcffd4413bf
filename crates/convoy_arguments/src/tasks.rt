use super::asking::{Unasked, accept_of, curve_of, outage_of, ranges_of, skew_of, sweep_of};
use super::options::{
    first_of, format_of, is_image, options_of, simulations_of, steps_of, unit_of,
};
use clap::ArgMatches;
use convoy_best_order::Wanted;
use convoy_commands::{Telling, TimeUnit};
use convoy_task_list::{
    CertificateTask, KindsTask, PlanTask, ScenarioTask, SearchTask, Task, TraceTask,
};
use convoy_toml::Asked;
use std::alloc::{AllocError, Global};

/// The task of the command of that name, of which a value may be none.
pub(super) fn task_of(
    alloc: Global,
    name: &str,
    given: &ArgMatches<'_>,
    asked: Asked,
) -> Result<Task, Unasked> {
    match name {
        "sweep" => sweep_for(alloc, given, asked),
        "ranges" => ranges_for(alloc, given),
        "ceiling" => ceiling_for(alloc, given, asked),
        "latency" => Ok(found(given, asked, latency_task_of(alloc, given)?)),
        "survey" => Ok(found(given, asked, survey_task_of(alloc, given)?)),
        "fits" => Ok(Task::Trace(TraceTask::Fits {
            skew: skew_of(alloc, given)?,
            unit: unit_of(given),
        })),
        _ => Ok(task_for(alloc, name, given, asked)?),
    }
}

/// What is asked of a table of round trips, or of a trace.
fn ranges_for(alloc: Global, given: &ArgMatches<'_>) -> Result<Task, Unasked> {
    let is_beside = given.get_str("check").is_some();
    if is_beside || given.get_flag("trace") {
        return Ok(Task::Trace(links_for(alloc, given, is_beside)?));
    }
    Ok(Task::Ranges {
        rules: ranges_of(alloc, given)?,
    })
}

/// What `ranges` asks of a trace: its links beside the ranges of a scenario, a table of them, or their ranges.
fn links_for(alloc: Global, given: &ArgMatches<'_>, is_beside: bool) -> Result<TraceTask, Unasked> {
    if is_beside {
        return Ok(TraceTask::Beside {
            format: format_of(given),
            unit: unit_of(given),
        });
    }
    let unit = unit_of(given).unwrap_or(TimeUnit::Milliseconds);
    if given.get_str("format").is_some() {
        return Ok(TraceTask::Table {
            format: format_of(given),
            unit,
        });
    }
    Ok(TraceTask::Ranges {
        rules: ranges_of(alloc, given)?,
        unit,
    })
}

/// Whether the exit status of a batch tells how its jobs end: also where a deadline is given for them.
pub(super) fn tells_status(given: &ArgMatches<'_>) -> bool {
    given.get_flag("status") || given.get_str("at-most").is_some()
}

/// The task of the command of that name, where this is asked of the text.
fn task_for(
    alloc: Global,
    name: &str,
    given: &ArgMatches<'_>,
    asked: Asked,
) -> Result<Task, AllocError> {
    match name {
        "simulate" => Ok(Task::Tell(Telling::Simulate)),
        "timeline" => Ok(Task::Tell(Telling::Timeline)),
        "packets" => Ok(Task::Tell(Telling::Packets)),
        "scenario" if asked.around.is_none() => Ok(Task::Tell(Telling::Toml)),
        "scenario" => Ok(of_scenario(ScenarioTask::Text, asked)),
        "check" if given.get_flag("plan") => Ok(Task::Plan {
            wanted: wanted_of(given),
            asked,
            what: PlanTask::Check,
        }),
        "check" | "explain" | "draw" => Ok(Task::Certificate {
            unit: unit_of(given),
            limit: Some(steps_of(given)),
            what: certificate_task_of(name, given),
        }),
        "plan" => Ok(Task::Plan {
            wanted: wanted_of(given),
            asked,
            what: plan_task_of(given),
        }),
        "batch" => Ok(Task::BatchTable {
            format: format_of(given),
            asked,
            options: options_of(given),
            tells_status: tells_status(given),
        }),
        _ => Ok(search_for(name, given, asked)),
    }
}

/// What is asked of a scenario without a search.
fn of_scenario(what: ScenarioTask, asked: Asked) -> Task {
    Task::Scenario { asked, what }
}

/// What the command of that name has searched for, or what it asks without a search.
fn search_for(name: &str, given: &ArgMatches<'_>, asked: Asked) -> Task {
    match search_task_of(name, given) {
        Some(what) => found(given, asked, what),
        None => of_scenario(ScenarioTask::First, asked),
    }
}

/// What is found in a scenario by searches.
fn found(given: &ArgMatches<'_>, asked: Asked, what: SearchTask) -> Task {
    Task::Search {
        asked,
        options: options_of(given),
        what,
    }
}

/// What the command of that name has searched for, if it searches.
fn search_task_of(name: &str, given: &ArgMatches<'_>) -> Option<SearchTask> {
    match name {
        "analyse" => Some(SearchTask::Analyse),
        "report" => Some(SearchTask::Report),
        "budget" => Some(SearchTask::Budget {
            format: format_of(given),
            of_all: given.get_flag("all"),
            of_ceiling: given.get_flag("ceiling"),
        }),
        "order" => Some(order_task_of(given)),
        _ => None,
    }
}

/// What is asked of a certificate.
fn certificate_task_of(name: &str, given: &ArgMatches<'_>) -> CertificateTask {
    match name {
        "check" => CertificateTask::Check {
            tells: given.get_flag("tell"),
        },
        "explain" => CertificateTask::Explain {
            with_ceiling: given.get_flag("ceiling"),
        },
        _ => CertificateTask::Draw,
    }
}

/// What `ceiling` asks for of kinds of messages.
fn kinds_task_of(given: &ArgMatches<'_>) -> KindsTask {
    if given.get_flag("all") {
        KindsTask::Table {
            format: format_of(given),
        }
    } else {
        KindsTask::Worst {
            simulations: simulations_of(given),
        }
    }
}

/// What `ceiling` asks for.
fn ceiling_for(alloc: Global, given: &ArgMatches<'_>, asked: Asked) -> Result<Task, Unasked> {
    let unit = unit_of(given);
    if given.get_flag("kinds") {
        return Ok(Task::Kinds {
            unit,
            what: kinds_task_of(given),
        });
    }
    let (simulations, outage) = (simulations_of(given), outage_of(alloc, given)?);
    let group = match given.get_str("group") {
        Some(name) => Some(String::from_str(alloc, name)?),
        None if given.get_flag("all") => None,
        None => {
            let what = ScenarioTask::Ceiling {
                simulations,
                outage,
                unit,
            };
            return Ok(of_scenario(what, asked));
        }
    };
    Ok(Task::Ceilings {
        format: format_of(given),
        group,
        simulations,
        outage,
        asked,
        unit,
    })
}

/// What `order` asks for: the scenario with its groups in the best order, or a table.
fn order_task_of(given: &ArgMatches<'_>) -> SearchTask {
    let wanted = wanted_of(given);
    if given.get_flag("scenario") {
        return SearchTask::Listing { wanted };
    }
    SearchTask::Order {
        format: format_of(given),
        wanted,
        with_reasons: given.get_flag("why"),
    }
}

/// What `plan` asks for by ceilings: the scenario of the best placement, or a table.
fn plan_ceiling_of(given: &ArgMatches<'_>) -> PlanTask {
    if given.get_flag("scenario") {
        return PlanTask::CeilingScenario;
    }
    PlanTask::Ceiling {
        format: format_of(given),
        unit: unit_of(given),
    }
}

/// What `plan` asks for: the scenario of the best placement, or of the last of the best ones that are asked for, with its
/// groups in the best order, a certificate of the best choice, or a table.
fn plan_task_of(given: &ArgMatches<'_>) -> PlanTask {
    if given.get_flag("ceiling") {
        return plan_ceiling_of(given);
    }
    let (first, options) = (first_of(given), options_of(given));
    if given.get_flag("scenario") {
        PlanTask::Scenario {
            first: first.unwrap_or(1),
            options,
        }
    } else if given.get_flag("certificate") {
        PlanTask::Proof { options }
    } else {
        PlanTask::Table {
            format: format_of(given),
            with_reasons: given.get_flag("why"),
            first,
            options,
        }
    }
}

/// For which targets an order, or a placement with an order, is to be the best.
fn wanted_of(given: &ArgMatches<'_>) -> Wanted {
    if given.get_flag("all") {
        Wanted::All
    } else if given.get_str("target").is_some() {
        Wanted::Asked
    } else {
        Wanted::Deadlines
    }
}

/// What `sweep` asks for: a curve, or a table.
fn sweep_for(alloc: Global, given: &ArgMatches<'_>, asked: Asked) -> Result<Task, Unasked> {
    let envelope = given.get_flag("envelope");
    let what = if is_image(given) {
        SearchTask::Curve {
            setting: curve_of(alloc, given)?,
            envelope,
        }
    } else {
        SearchTask::Sweep {
            format: format_of(given),
            sweep: sweep_of(alloc, given)?,
            envelope,
        }
    };
    Ok(found(given, asked, what))
}

/// What `latency` asks for.
fn latency_task_of(alloc: Global, given: &ArgMatches<'_>) -> Result<SearchTask, Unasked> {
    Ok(SearchTask::Latency {
        with_ceiling: given.get_flag("ceiling"),
        outage: outage_of(alloc, given)?,
        accept: accept_of(alloc, given)?,
    })
}

/// The table that `survey` asks for.
fn survey_task_of(alloc: Global, given: &ArgMatches<'_>) -> Result<SearchTask, Unasked> {
    let format = format_of(given);
    if given.get_flag("without") {
        return Ok(SearchTask::WhatIf {
            format,
            shows_all: given.get_flag("all"),
        });
    }
    Ok(SearchTask::Survey {
        format,
        with_ceilings: given.get_flag("ceiling"),
        outage: outage_of(alloc, given)?,
    })
}
