//! The rules for tables of kinds, in the order in which they are asked.

ghost use Rattle.std.specs.Prelude.{◌≡◌, ◌&&◌, length, nat_le, option_map, Some};
ghost use Rattle.std.specs.List.{list_all};
ghost use Rattle.convoy_draft.specs.Checks.{all_differ, is_among, is_known_sender, is_within};
ghost use Rattle.convoy_draft.specs.Names.{is_name};
ghost use Rattle.convoy_kinds.specs.Checks.{are_known, are_senders, are_sizes, are_some, ascend, checks, do_differ, is_below_first, judge, knows};

use super::fault::{KindsFault, KindsLimit};
use super::limits::MOST_TABLES;
use super::written::WrittenKind;
use convoy_scenario::{Name, ScenarioFault, is_within};

/// Tells the first rule that tables break, among groups and places of these names, where the tables have these names.
pub(crate) fn check(
    groups: &[Name],
    places: &[Name],
    names: &[Name],
    tables: &[WrittenKind],
) -> Result<(), KindsFault>
    ensures { result ≡ judge (checks groups.now places.now names.now tables.now) }
{
    if !is_count(tables.len(), MOST_TABLES) {
        return Err(KindsFault::OverLimit(KindsLimit::Tables));
    }
    if !all_have_sizes(groups.len(), tables) {
        return Err(KindsFault::OverLimit(KindsLimit::Sizes));
    }
    if !are_good(names) {
        return Err(KindsFault::Scenario(ScenarioFault::BadName));
    }
    if !all_differ(names) {
        return Err(KindsFault::Scenario(ScenarioFault::DoubleName));
    }
    if !all_are_known(groups, places, tables) {
        return Err(KindsFault::Scenario(ScenarioFault::UnknownGroup));
    }
    if !all_go_somewhere(tables) {
        return Err(KindsFault::Scenario(ScenarioFault::NoDestination));
    }
    if !senders_differ(tables) {
        return Err(KindsFault::DoubleSender);
    }
    if !destinations_differ(tables) {
        return Err(KindsFault::Scenario(ScenarioFault::DoubleDestination));
    }
    Ok(())
}

fn is_count(count: usize, most: usize) -> bool
    ensures { result ≡ (nat_le 1 count && nat_le count most) }
{
    1 <= count && count <= most
}

fn all_have_sizes(groups: usize, tables: &[WrittenKind]) -> bool
    ensures { result ≡ list_all (λ table. are_sizes groups table.sizes) tables.now }
{
    tables.iter().all(|table| has_sizes(groups, table))
}

fn has_sizes(groups: usize, table: &WrittenKind) -> bool
    ensures { result ≡ are_sizes groups table.now.sizes }
{
    match &table.sizes {
        Some(sizes) => {
            is_count(sizes.len(), groups) && all_within(groups, sizes) && ascend(sizes)
        }
        None => true,
    }
}

fn all_within(groups: usize, sizes: &[i64]) -> bool
    ensures { result ≡ list_all (λ size. is_within 1 groups size) sizes.now }
{
    sizes.iter().all(|size| is_size(groups, *size))
}

fn is_size(groups: usize, size: i64) -> bool
    ensures { result ≡ is_within 1 groups size }
{
    match usize::try_from(size) {
        Ok(size) => 1 <= size && size <= groups,
        Err(_) => false,
    }
}

/// Whether each number is below the next.
fn ascend(sizes: &[i64]) -> bool
    ensures { result ≡ ascend sizes.now }
{
    let mut rest = sizes;
    while let Some((size, tail)) = rest.split_first() {
        if !is_below_first(*size, tail) {
            return false;
        }
        rest = tail;
    }
    true
}

/// Whether a number is below the first of the others, if there is one.
fn is_below_first(size: i64, others: &[i64]) -> bool
    ensures { result ≡ is_below_first size others.now }
{
    match others {
        [] => true,
        [next, ..] => size < *next,
    }
}

fn are_good(names: &[Name]) -> bool
    ensures { result ≡ list_all is_name names.now }
{
    names.iter().all(|name| name.is_good())
}

/// Whether no two of the names are the same.
fn all_differ(names: &[Name]) -> bool
    ensures { result ≡ all_differ names.now }
{
    let mut rest = names;
    while let Some((name, tail)) = rest.split_first() {
        if name.is_among(tail) {
            return false;
        }
        rest = tail;
    }
    true
}

fn all_are_known(groups: &[Name], places: &[Name], tables: &[WrittenKind]) -> bool
    ensures { result ≡ list_all (knows groups.now places.now) tables.now }
{
    tables.iter().all(|table| knows(groups, places, table))
}

fn knows(groups: &[Name], places: &[Name], table: &WrittenKind) -> bool
    ensures { result ≡ knows groups.now places.now table.now }
{
    are_senders(groups, places, &table.senders) && are_known(groups, &table.to)
}

/// Whether the names, if there are some, are among the groups and the places.
fn are_senders(groups: &[Name], places: &[Name], names: &Option<Vec<Name>>) -> bool
    ensures { result ≡ are_senders groups.now places.now (option_map (λ names. names.items) names.now) }
{
    match names {
        Some(names) => all_send(groups, places, names),
        None => true,
    }
}

fn all_send(groups: &[Name], places: &[Name], names: &[Name]) -> bool
    ensures { result ≡ list_all (λ name. is_known_sender groups.now places.now (Some name)) names.now }
{
    names.iter().all(|name| sends(groups, places, name))
}

fn sends(groups: &[Name], places: &[Name], name: &Name) -> bool
    ensures { result ≡ is_known_sender groups.now places.now (Some name.now) }
{
    name.is_among(groups) || name.is_among(places)
}

/// Whether the names, if there are some, are among the groups.
fn are_known(groups: &[Name], names: &Option<Vec<Name>>) -> bool
    ensures { result ≡ are_known groups.now (option_map (λ names. names.items) names.now) }
{
    match names {
        Some(names) => are_among(names, groups),
        None => true,
    }
}

fn are_among(names: &[Name], groups: &[Name]) -> bool
    ensures { result ≡ list_all (λ name. is_among name groups.now) names.now }
{
    names.iter().all(|name| name.is_among(groups))
}

fn all_go_somewhere(tables: &[WrittenKind]) -> bool
    ensures { result ≡ list_all (λ table. are_some table.to) tables.now }
{
    tables.iter().all(|table| are_some(&table.to))
}

/// Whether the names, if they are there, are one or more.
fn are_some(names: &Option<Vec<Name>>) -> bool
    ensures { result ≡ are_some (option_map (λ names. names.items) names.now) }
{
    match names {
        Some(names) => 1 <= names.len(),
        None => true,
    }
}

fn senders_differ(tables: &[WrittenKind]) -> bool
    ensures { result ≡ list_all (λ table. do_differ table.senders) tables.now }
{
    tables.iter().all(|table| do_differ(&table.senders))
}

fn destinations_differ(tables: &[WrittenKind]) -> bool
    ensures { result ≡ list_all (λ table. do_differ table.to) tables.now }
{
    tables.iter().all(|table| do_differ(&table.to))
}

/// Whether no two of the names, if there are some, are the same.
fn do_differ(names: &Option<Vec<Name>>) -> bool
    ensures { result ≡ do_differ (option_map (λ names. names.items) names.now) }
{
    match names {
        Some(names) => all_differ(names),
        None => true,
    }
}
