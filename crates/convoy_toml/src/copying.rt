//! Names, where links lead, and what replicas need to agree, in memory of their own. Each call fails where memory runs out, and else never.

ghost use Rattle.std.specs.Prelude.{◌≡◌, option_map, IfOk};

use super::written::{LinkEnds, WrittenAgreement};
use convoy_scenario::Name;
use std::alloc::{AllocError, Global};

/// The same name, if there is one.
pub fn copy_name(name: &Option<Name>) -> Result<Option<Name>, AllocError>
    ensures { IfOk result (λ copy. copy ≡ name.now) }
{
    match name {
        Some(name) => Ok(Some(name.copy()?)),
        None => Ok(None),
    }
}

/// The same names.
pub fn copy_names(alloc: Global, names: &[Name]) -> Result<Vec<Name>, AllocError>
    ensures { IfOk result (λ copies. copies.items ≡ names.now) }
{
    let mut copies = Vec::new(alloc);
    for name in names {
        copies.push(name.copy()?)?;
    }
    Ok(copies)
}

/// The same ends of links.
pub fn copy_ends(alloc: Global, ends: &LinkEnds) -> Result<LinkEnds, AllocError>
    ensures { IfOk result (λ copy. copy ≡ ends.now) }
{
    Ok(LinkEnds {
        senders: copy_senders(alloc, &ends.senders)?,
        to: copy_names(alloc, &ends.to)?,
        both: ends.both,
    })
}

/// The same senders, if there are any.
fn copy_senders(alloc: Global, senders: &Option<Vec<Name>>) -> Result<Option<Vec<Name>>, AllocError>
    ensures { IfOk result (λ copies. option_map (λ names. names.items) copies
        ≡ option_map (λ names. names.items) senders.now) }
{
    match senders {
        Some(names) => Ok(Some(copy_names(alloc, names)?)),
        None => Ok(None),
    }
}

/// The same agreements.
pub fn copy_agreements(
    alloc: Global,
    agreements: &[WrittenAgreement],
) -> Result<Vec<WrittenAgreement>, AllocError>
    ensures { IfOk result (λ copies. copies.items ≡ agreements.now) }
{
    let mut copies = Vec::new(alloc);
    for agreement in agreements {
        copies.push(copy_agreement(alloc, agreement)?)?;
    }
    Ok(copies)
}

fn copy_agreement(
    alloc: Global,
    agreement: &WrittenAgreement,
) -> Result<WrittenAgreement, AllocError>
    ensures { IfOk result (λ copy. copy ≡ agreement.now) }
{
    Ok(WrittenAgreement {
        groups: copy_names(alloc, &agreement.groups)?,
        least: agreement.least,
        most: agreement.most,
        twice: agreement.twice,
    })
}
