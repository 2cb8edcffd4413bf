ghost use Rattle.std.specs.Prelude.{◌≡◌, [], slice_index_or, find, is_none, option_copied, IfOk};
ghost use Rattle.std.specs.Str.{bytes_eq};
ghost use Rattle.convoy_toml.specs.Shape.{at_one_group, first_group_of, first_known, first_target};

use super::written::{WrittenMulticast, WrittenTarget};
use convoy_scenario::Name;
use std::alloc::{AllocError, Global};

/// Whether a scenario text has to name its target.
#[derive(Drop)]
pub enum TargetKey {
    /// The table `target` has to be there.
    Required,
    /// It may be left out: the target is then the first message that is issued at a time that is
    /// written, or the first of all where there is none such, at the first group that it goes to.
    Optional,
    /// It does not matter: the target is the message of that name at the group of that name.
    Named { message: Name, group: Name },
}

impl TargetKey {
    ghost use Rattle.std.specs.Prelude.{◌≡◌, IfOk};

    /// The same, in memory of its own. Fails where memory runs out, and else never.
    pub fn copy(&self) -> Result<TargetKey, AllocError>
        ensures { IfOk result (λ copy. copy ≡ self.now) }
    {
        match self {
            TargetKey::Required => Ok(TargetKey::Required),
            TargetKey::Optional => Ok(TargetKey::Optional),
            TargetKey::Named { message, group } => Ok(TargetKey::Named {
                message: message.copy()?,
                group: group.copy()?,
            }),
        }
    }
}

/// The first message that is issued at a time that is written, or the first of all where there is none
/// such, at the first group that it goes to; where it goes nowhere, at the first group of all.
pub fn first_target(
    alloc: Global,
    groups: &[Name],
    multicasts: &[WrittenMulticast],
) -> Result<WrittenTarget, AllocError>
    ensures { IfOk result (λ target. target ≡ first_target groups.now multicasts.now) }
{
    match first_known(multicasts) {
        Some(multicast) => Ok(WrittenTarget {
            message: multicast.name.copy()?,
            group: first_of(alloc, &multicast.to, groups)?,
        }),
        None => Ok(WrittenTarget {
            message: Name::new(alloc, "")?,
            group: Name::new(alloc, "")?,
        }),
    }
}

/// The word for all groups of a message.
pub const ALL_GROUPS: &str = "*";

/// The target at one group: the first one where it is asked for at all of them.
pub(crate) fn at_one_group(
    alloc: Global,
    groups: &[Name],
    multicasts: &[WrittenMulticast],
    target: WrittenTarget,
) -> Result<WrittenTarget, AllocError>
    ensures { IfOk result (λ one. one ≡ at_one_group groups.now multicasts.now target) }
{
    if target.group.as_str() != ALL_GROUPS {
        return Ok(target);
    }
    let group = first_group_of(alloc, groups, multicasts, &target.message)?;
    Ok(WrittenTarget { group, ..target })
}

/// The first group of the message of that name.
fn first_group_of(
    alloc: Global,
    groups: &[Name],
    multicasts: &[WrittenMulticast],
    name: &Name,
) -> Result<Name, AllocError>
    ensures { IfOk result (λ group. group ≡ first_group_of groups.now multicasts.now name.now) }
{
    match message_named(multicasts, name) {
        Some(multicast) => first_of(alloc, &multicast.to, groups),
        None => Name::new(alloc, ""),
    }
}

/// The first message of that name.
pub(crate) fn message_named<'a>(
    multicasts: &'a [WrittenMulticast],
    name: &Name,
) -> Option<&'a WrittenMulticast>
    ensures { option_copied result ≡ find (λ m. bytes_eq m.name name.now) multicasts.now }
{
    multicasts.iter().find(|m| m.name.is_same(name))
}

/// The first message that is issued at a time that is written, or the first of all where there is none
/// such.
fn first_known(multicasts: &[WrittenMulticast]) -> Option<&WrittenMulticast>
    ensures { option_copied result ≡ first_known multicasts.now }
{
    match find_known(multicasts) {
        Some(multicast) => Some(multicast),
        None => multicasts.first(),
    }
}

/// The first message that is issued at a time that is written.
fn find_known(multicasts: &[WrittenMulticast]) -> Option<&WrittenMulticast>
    ensures { option_copied result ≡ find (λ m. is_none m.until) multicasts.now }
{
    multicasts.iter().find(|m| m.until.is_none())
}

/// The first of the names, or of the others where there are none; else a name without a letter.
fn first_of(alloc: Global, names: &[Name], others: &[Name]) -> Result<Name, AllocError>
    ensures { IfOk result (λ name. name
        ≡ slice_index_or names.now 0 (slice_index_or others.now 0 [])) }
{
    match names.first().or(others.first()) {
        Some(name) => name.copy(),
        None => Name::new(alloc, ""),
    }
}
