//! The kinds that are written, with numbers in place of names.

ghost use Rattle.std.specs.Prelude.{◌≡◌, ◌≤◌, ◌<◌, ◌^◌, ◌==◌, ◌++◌, length, map, flat_map, option_map, Some, IfOk, OnOk};
ghost use Rattle.convoy_draft.specs.Checks.{ticks};
ghost use Rattle.std.specs.List.{range_with_len};
ghost use Rattle.convoy_scenario.specs.Numbering.{numbers_of, place, sender_of};
ghost use Rattle.convoy_kinds.specs.Numbering.{is_in_set, kinds_by, kinds_from, sets_in, senders_in, set_of, sets_of_size, table_names};

use super::kinds::Kind;
use super::written::WrittenKind;
use convoy_draft::ticks;
use convoy_scenario::{MOST_GROUPS, Name, Sender};
use std::alloc::{AllocError, Global};
use std::marker::Model;

/// A set of groups, by their numbers, ascending.
#[derive(Drop)]
struct GroupSet {
    groups: Vec<usize>,
}

impl Model for GroupSet {
    ghost use Rattle.std.specs.Prelude.{List, ℕ};

    ghost Value = { List ℕ };

    ghost view = { λ s. s.groups.items };
}

impl GroupSet {
    /// Whether it has so many groups.
    fn has_size(&self, size: usize) -> bool
        ensures { result ≡ (length self.now == size) }
    {
        self.groups.len() == size
    }
}

/// The names of the tables.
pub(crate) fn table_names(alloc: Global, tables: &[WrittenKind]) -> Result<Vec<Name>, AllocError>
    ensures { IfOk result (λ names. names.items ≡ table_names tables.now) }
{
    let mut names = Vec::new(alloc);
    for table in tables {
        names.push(table.name.copy()?)?;
    }
    Ok(names)
}

/// The kinds of all tables, among groups and places of these names.
pub(crate) fn kinds_of(
    alloc: Global,
    groups: &[Name],
    places: &[Name],
    tables: &[WrittenKind],
) -> Result<Vec<Kind>, AllocError>
    requires { length groups.now ≤ MOST_GROUPS }
    ensures { IfOk result (λ kinds. kinds.items ≡ kinds_from 0 groups.now places.now tables.now) }
{
    let mut kinds = Vec::new(alloc);
    for (number, table) in tables.iter().enumerate() {
        push_kinds(alloc, groups, places, number, table, &mut kinds)?;
    }
    Ok(kinds)
}

/// Appends the kinds of the table of that number.
fn push_kinds(
    alloc: Global,
    groups: &[Name],
    places: &[Name],
    number: usize,
    table: &WrittenKind,
    kinds: &mut Vec<Kind>,
) -> Result<(), AllocError>
    requires { length groups.now ≤ MOST_GROUPS }
    ensures { OnOk result (kinds.new.items
        ≡ kinds.old.items ++ kinds_by number (sets_in groups.now table.now) (senders_in groups.now places.now table.now.senders)) }
{
    let sets = sets_in(alloc, groups, table)?;
    let senders = senders_in(alloc, groups, places, &table.senders)?;
    push_kinds_by(alloc, number, &sets, &senders, kinds)
}

/// Appends a kind of that table for each sender and each set.
fn push_kinds_by(
    alloc: Global,
    number: usize,
    sets: &[GroupSet],
    senders: &[Sender],
    kinds: &mut Vec<Kind>,
) -> Result<(), AllocError>
    ensures { OnOk result (kinds.new.items ≡ kinds.old.items ++ kinds_by number sets.now senders.now) }
{
    for sender in senders {
        push_kinds_of(alloc, number, *sender, sets, kinds)?;
    }
    Ok(())
}

/// Appends a kind of that table from a sender to each of the sets.
fn push_kinds_of(
    alloc: Global,
    number: usize,
    sender: Sender,
    sets: &[GroupSet],
    kinds: &mut Vec<Kind>,
) -> Result<(), AllocError>
    ensures { OnOk result (kinds.new.items
        ≡ kinds.old.items ++ map (λ set. record { table = number; sender = sender; destinations = set }) sets.now) }
{
    for set in sets {
        kinds.push(Kind {
            table: number,
            sender,
            destinations: Vec::from_slice(alloc, &set.groups)?,
        })?;
    }
    Ok(())
}

/// Who sends the messages of a table.
fn senders_in(
    alloc: Global,
    groups: &[Name],
    places: &[Name],
    senders: &Option<Vec<Name>>,
) -> Result<Vec<Sender>, AllocError>
    ensures { IfOk result (λ found. found.items
        ≡ senders_in groups.now places.now (option_map (λ names. names.items) senders.now)) }
{
    match senders {
        Some(names) => senders_named(alloc, groups, places, names),
        None => Ok(vec![in alloc; Sender::Client(0)]?),
    }
}

/// The groups of these names, and clients at the places of these names, as senders.
fn senders_named(
    alloc: Global,
    groups: &[Name],
    places: &[Name],
    names: &[Name],
) -> Result<Vec<Sender>, AllocError>
    ensures { IfOk result (λ found. found.items ≡ map (λ name. sender_of groups.now places.now (Some name)) names.now) }
{
    let mut found = Vec::new(alloc);
    for name in names {
        found.push(sender_named(groups, places, name))?;
    }
    Ok(found)
}

/// The group of this name, or a client at the place of this name.
fn sender_named(groups: &[Name], places: &[Name], name: &Name) -> Sender
    ensures { result ≡ sender_of groups.now places.now (Some name.now) }
{
    if name.is_among(groups) {
        Sender::Group(place(name, groups))
    } else {
        Sender::Client(place(name, places) + 1)
    }
}

/// The place of the name, or 0 where it is not there.
fn place(name: &Name, names: &[Name]) -> usize
    ensures { result ≡ place name.now names.now }
{
    names
        .iter()
        .position(|other| name.is_same(other))
        .unwrap_or(0)
}

/// The sets of groups to which the messages of a table go.
fn sets_in(alloc: Global, groups: &[Name], table: &WrittenKind) -> Result<Vec<GroupSet>, AllocError>
    requires { length groups.now ≤ MOST_GROUPS }
    ensures { IfOk result (λ sets. sets.items ≡ sets_in groups.now table.now) }
{
    match (&table.to, &table.sizes) {
        (Some(names), _) => Ok(vec![in alloc; numbers_of(alloc, groups, names)?]?),
        (None, Some(sizes)) => sets_of_sizes(alloc, groups.len(), sizes),
        (None, None) => Ok(Vec::new(alloc)),
    }
}

/// The groups that are named.
fn numbers_of(alloc: Global, groups: &[Name], named: &[Name]) -> Result<GroupSet, AllocError>
    ensures { IfOk result (λ set. set ≡ numbers_of groups.now named.now) }
{
    let mut numbers = Vec::new(alloc);
    for (g, group) in groups.iter().enumerate() {
        if group.is_among(named) {
            numbers.push(g)?;
        }
    }
    Ok(GroupSet { groups: numbers })
}

/// The sets of so many groups for each of the sizes.
fn sets_of_sizes(alloc: Global, groups: usize, sizes: &[i64]) -> Result<Vec<GroupSet>, AllocError>
    requires { groups ≤ MOST_GROUPS }
    ensures { IfOk result (λ sets. sets.items
        ≡ flat_map (λ size. sets_of_size groups (ticks MOST_GROUPS size)) sizes.now) }
{
    let mut sets = Vec::new(alloc);
    for size in sizes {
        push_sets(
            alloc,
            groups,
            ticks(*size, MOST_GROUPS as u32) as usize,
            &mut sets,
        )?;
    }
    Ok(sets)
}

/// Appends the sets of that size.
fn push_sets(
    alloc: Global,
    groups: usize,
    size: usize,
    sets: &mut Vec<GroupSet>,
) -> Result<(), AllocError>
    requires { groups ≤ MOST_GROUPS }
    ensures { OnOk result (sets.new.items ≡ sets.old.items ++ sets_of_size groups size) }
{
    for number in 0..set_count(groups) {
        let set = set_of(alloc, groups, number)?;
        if set.has_size(size) {
            sets.push(set)?;
        }
    }
    Ok(())
}

/// How many sets so many groups have.
fn set_count(groups: usize) -> usize
    requires { groups ≤ MOST_GROUPS }
    ensures { result ≡ 2 ^ groups }
{
    1 << groups
}

/// The set of that number.
fn set_of(alloc: Global, groups: usize, number: usize) -> Result<GroupSet, AllocError>
    requires { groups ≤ MOST_GROUPS }
    ensures { IfOk result (λ set. set ≡ set_of groups number) }
{
    let mut members = Vec::new(alloc);
    for group in 0..groups {
        if is_in_set(groups, number, group) {
            members.push(group)?;
        }
    }
    Ok(GroupSet { groups: members })
}

/// Whether the set of that number has a group.
fn is_in_set(groups: usize, number: usize, group: usize) -> bool
    requires few { groups ≤ MOST_GROUPS }
    requires known { group < groups }
    ensures { result ≡ is_in_set groups number group }
{
    (number >> (groups - 1 - group)) % 2 == 0
}
