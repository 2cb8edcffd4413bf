//! The cases of a text, as they are asked about one by one.

ghost use Rattle.std.specs.Prelude.{◌≡◌, ◌++◌, map, flat_map, IfOk, OnOk};
ghost use Rattle.convoy_case_answers.specs.Cases.{asked_cases, asked_in, first_asked};

use super::late::Late;
use convoy_toml::{Asked, TargetKey, WrittenTarget};
use std::alloc::{AllocError, Global};

/// The first case, whatever its targets.
pub(crate) fn first_asked(late: &Late, asked: &Asked) -> Result<Asked, AllocError>
    ensures { IfOk result (λ first. first ≡ first_asked late.now asked.now) }
{
    Ok(Asked {
        case: Some(0),
        accept: late.accepts(),
        ..asked.copy()?
    })
}

/// So many cases at each of the targets.
pub(crate) fn asked_cases(
    alloc: Global,
    late: &Late,
    asked: &Asked,
    targets: &[WrittenTarget],
    count: u64,
) -> Result<Vec<Asked>, AllocError>
    ensures { IfOk result (λ cases. cases.items ≡ asked_cases late.now asked.now targets.now count) }
{
    let mut cases = Vec::new(alloc);
    for case in 0..count {
        push_case(late, asked, case, targets, &mut cases)?;
    }
    Ok(cases)
}

/// Appends that case at each of the targets.
fn push_case(
    late: &Late,
    asked: &Asked,
    case: u64,
    targets: &[WrittenTarget],
    cases: &mut Vec<Asked>,
) -> Result<(), AllocError>
    ensures { OnOk result (cases.new.items ≡ cases.old.items ++ map (asked_in late.now asked.now case) targets.now) }
{
    for target in targets {
        cases.push(asked_in(late, asked, case, target)?)?;
    }
    Ok(())
}

/// That case at that target.
fn asked_in(
    late: &Late,
    asked: &Asked,
    case: u64,
    target: &WrittenTarget,
) -> Result<Asked, AllocError>
    ensures { IfOk result (λ other. other ≡ asked_in late.now asked.now case target.now) }
{
    Ok(Asked {
        target: TargetKey::Named {
            message: target.message.copy()?,
            group: target.group.copy()?,
        },
        at_most: asked.at_most,
        around: asked.around,
        case: Some(case),
        accept: late.accepts(),
    })
}
