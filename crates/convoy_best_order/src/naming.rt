//! An order as words.

ghost use Rattle.std.specs.Prelude.{◌≡◌, ◌∷◌, ◌++◌, string_bytes, IfOk, OnOk};
ghost use Rattle.std.specs.List.{flat_map};
ghost use Rattle.convoy_scenario.specs.Scenario.{group_name_at};
ghost use Rattle.convoy_best_order.specs.Cells.{order_line, order_words};

use convoy_scenario::Scenario;
use convoy_scenario::naming::group_name;
use std::alloc::{AllocError, Global};

/// The names of the groups of an order, with a space between them.
pub(crate) fn order_words(
    alloc: Global,
    scenario: &Scenario,
    order: &[usize],
) -> Result<String, AllocError>
    ensures { IfOk result (λ words. string_bytes words ≡ order_words scenario.now order.now) }
{
    let mut words = String::new(alloc);
    match order {
        [] => Ok(words),
        [first, others @ ..] => {
            words.push_str(group_name(scenario, *first))?;
            push_others(scenario, others, &mut words)?;
            Ok(words)
        }
    }
}

/// Appends the names of some groups, with a space before each.
fn push_others(scenario: &Scenario, others: &[usize], words: &mut String) -> Result<(), AllocError>
    ensures { OnOk result (string_bytes words.new
        ≡ string_bytes words.old ++ flat_map (λ h. 32 ∷ group_name_at scenario.now h) others.now) }
{
    for group in others {
        words.push_str(" ")?;
        words.push_str(group_name(scenario, *group))?;
    }
    Ok(())
}

/// The line that tells an order: `order` and the names of its groups. Fails where memory runs out, and else never.
pub fn order_line(alloc: Global, scenario: &Scenario, order: &[usize]) -> Result<String, AllocError>
    ensures { IfOk result (λ line. string_bytes line ≡ order_line scenario.now order.now) }
{
    let words = order_words(alloc, scenario, order)?;
    format!(in alloc; "order {words}\n")
}
