//! What the options of a command line say.

ghost use Rattle.std.specs.Prelude.{◌≡◌};
ghost use Rattle.convoy_arguments.specs.declared.limits.TheConstants.{MOST_READS};

use super::limits::MOST_READS;
use clap::ArgMatches;
use convoy_commands::{
    Bounds, DEFAULT_LIMIT, DEFAULT_SIMULATIONS, DEFAULT_STEPS, MOST_SIMULATIONS, MOST_TICKETS,
    MOST_WORKERS, Options, TimeUnit, Ways,
};
use convoy_tables::Format;

/// How many schedules are simulated at most to find something: as many as are given, or else the usual
/// number.
pub(crate) fn simulations_of(given: &ArgMatches<'_>) -> u64 {
    given.get_one("seek").unwrap_or(DEFAULT_SIMULATIONS)
}

/// How many steps are taken at most to check a certificate: as many as are given, or else the usual number.
pub(crate) fn steps_of(given: &ArgMatches<'_>) -> u64 {
    given.get_one("limit").unwrap_or(DEFAULT_STEPS)
}

/// How many of the best placements are told, where that is given.
pub(crate) fn first_of(given: &ArgMatches<'_>) -> Option<u16> {
    match given.get_one::<u64>("first") {
        Some(first) => u16::try_from(first).ok(),
        None => None,
    }
}

/// How a table is written. `clap` rejects a word that names no format.
pub(crate) fn format_of(given: &ArgMatches<'_>) -> Format {
    match given.get_str("format") {
        Some("csv") => Format::Csv,
        Some("json") => Format::Json,
        _ => Format::Text,
    }
}

/// Whether an image is asked for in place of a table.
pub(crate) fn is_image(given: &ArgMatches<'_>) -> bool {
    given.get_str("format") == Some("svg")
}

/// The unit in which times are told, where one is given. `clap` rejects a word that names none.
pub(crate) fn unit_of(given: &ArgMatches<'_>) -> Option<TimeUnit> {
    let word = given.get_str("unit")?;
    TimeUnit::named(word.as_bytes())
}

/// How many rows of a table are made at a time: as many as are given, or else one. `clap` rejects a number out of range.
pub(crate) fn jobs_of(given: &ArgMatches<'_>) -> u32 {
    given.get_one("jobs").unwrap_or(1)
}

/// The options of a search: those that are given, or else the usual ones. `clap` rejects a word that
/// is none of these, and a number out of range.
pub(crate) fn options_of(given: &ArgMatches<'_>) -> Options
    ensures { result.most_reads ≡ MOST_READS }
{
    let workers = given.get_one("workers").unwrap_or(1);
    let limit = given.get_one("limit").unwrap_or(DEFAULT_LIMIT);
    let simulations = simulations_of(given);
    let options = match Options::new(
        workers.clamp(1, MOST_WORKERS),
        limit.clamp(1, MOST_TICKETS),
        MOST_READS,
    ) {
        Some(options) => told(
            timed(options.seeking(simulations.min(MOST_SIMULATIONS)), given),
            given,
        ),
        None => unreachable!(),
    };
    match ways_of(given) {
        Ways::One(bounds) => options.going_by(bounds),
        Ways::Both => options,
    }
}

/// The same options, of a search that stops after the seconds that are given, if any are.
fn timed(options: Options, given: &ArgMatches<'_>) -> Options
    ensures { result.most_reads ≡ options.most_reads }
{
    match given.get_one("seconds") {
        Some(seconds) => options.stopping_after(seconds),
        None => options,
    }
}

/// The same options, where times are told in the unit that is given, if one is.
fn told(options: Options, given: &ArgMatches<'_>) -> Options
    ensures { result.most_reads ≡ options.most_reads }
{
    match unit_of(given) {
        Some(unit) => options.telling_in(unit),
        None => options,
    }
}

/// By what the search goes: by the bounds that are named; without a name both ways, but with a limit by
/// plain bounds.
fn ways_of(given: &ArgMatches<'_>) -> Ways {
    match given.get_str("bounds") {
        Some("plain") => Ways::One(Bounds::Plain),
        Some("stamp") => Ways::One(Bounds::Stamp),
        Some("lead") => Ways::One(Bounds::Lead),
        None if given.get_one::<u64>("limit").is_some() => Ways::One(Bounds::Plain),
        _ => Ways::Both,
    }
}
