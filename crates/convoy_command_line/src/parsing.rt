//! The command line as `clap` is told of it.

use super::commands::{Listed, commands};
use super::help::{ABOUT, ABOUT_FILE, ABOUT_JUDGED, ABOUT_QUIET, AFTER, LONG_ABOUT};
use super::settings::{Company, Setting, Value};
use clap::{Arg, ArgAction, Command};
use std::alloc::{AllocError, Global};

/// The version of the program.
const VERSION: &str = "0.1.0";

/// The command line of the program, with all its commands and their options; an error where memory is refused.
pub fn parser<'a>(alloc: Global) -> Result<Command<'a>, AllocError> {
    let mut parser = program(alloc)?;
    for listed in commands() {
        parser = parser.subcommand(command(alloc, listed)?)?;
    }
    Ok(parser)
}

/// The program without its commands.
fn program<'a>(alloc: Global) -> Result<Command<'a>, AllocError> {
    Command::new(alloc, "convoy")
        .about(ABOUT)
        .long_about(LONG_ABOUT)
        .bin_name("convoy")?
        .version(VERSION)
        .no_binary_name(true)
        .disable_help_subcommand(true)
        .after_help(AFTER)
        .arg(quiet_argument(alloc))
}

/// A command with its arguments.
fn command<'a>(alloc: Global, listed: Listed) -> Result<Command<'a>, AllocError> {
    let mut command = Command::new(alloc, listed.name)
        .about(listed.about)
        .long_about(listed.long_about);
    if listed.reads_scenario() {
        command = command.arg(scenario_argument(alloc))?;
    }
    command = command.arg(file_argument(alloc))?;
    for setting in listed.settings {
        command = command.arg(argument(alloc, *setting)?)?;
    }
    Ok(command)
}

/// The file with the scenario by which a text is judged.
fn scenario_argument<'a>(alloc: Global) -> Arg<'a> {
    Arg::new(alloc, "scenario")
        .value_name("SCENARIO")
        .required(true)
        .help(ABOUT_JUDGED)
}

/// The file that is read.
fn file_argument<'a>(alloc: Global) -> Arg<'a> {
    Arg::new(alloc, "file").value_name("FILE").help(ABOUT_FILE)
}

/// Whether hints are left out. It may stand after a command too.
fn quiet_argument<'a>(alloc: Global) -> Arg<'a> {
    Arg::new(alloc, "quiet")
        .long("quiet")
        .action(ArgAction::SetTrue)
        .global(true)
        .help(ABOUT_QUIET)
}

/// An option of a command.
fn argument<'a>(alloc: Global, setting: Setting) -> Result<Arg<'a>, AllocError> {
    let argument = valued_argument(alloc, setting);
    match setting.company {
        Company::Any => Ok(argument),
        Company::OneOf(group) => argument.group(group),
        Company::With(group) => argument.requires_arg(group),
        Company::Without(other) => argument.conflicts_with(other),
        Company::WithoutAny(others) => without_any(argument, others),
    }
}

/// An option that may stand beside none of these.
fn without_any<'a>(
    argument: Arg<'a>,
    others: &'static [&'static str],
) -> Result<Arg<'a>, AllocError> {
    let mut argument = argument;
    for other in others {
        argument = argument.conflicts_with(other)?;
    }
    Ok(argument)
}

/// An option with its value, whatever stands beside it.
fn valued_argument<'a>(alloc: Global, setting: Setting) -> Arg<'a> {
    let argument = Arg::new(alloc, setting.name)
        .long(setting.name)
        .help(setting.about);
    match setting.value {
        Value::Absent => argument.action(ArgAction::SetTrue),
        Value::Given(name, parser) => argument.value_name(name).value_parser(parser),
        Value::Several(name, parser) => argument
            .value_name(name)
            .value_parser(parser)
            .action(ArgAction::Append)
            .required(true),
        Value::Usual(name, parser, usual) => argument
            .value_name(name)
            .value_parser(parser)
            .default_value(usual),
        Value::Optional(name, parser, alone) => argument
            .value_name(name)
            .value_parser(parser)
            .num_args(0..=1)
            .require_equals(true)
            .default_missing_value(alone),
    }
}
