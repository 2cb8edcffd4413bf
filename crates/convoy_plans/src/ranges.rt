//! The ranges that a plan's tables of links write between two sites.

ghost use Rattle.std.specs.Prelude.{◌≡◌, ◌||◌, ◌&&◌, find, map, not, option_copied, unwrap_or, IfOk};
ghost use Rattle.std.specs.List.{list_any};
ghost use Rattle.std.specs.Str.{bytes_eq};
ghost use Rattle.convoy_draft.specs.Checks.{is_among};
ghost use Rattle.convoy_plans.specs.Ranges.{leads, leads_away, leads_out, most_in, most_table, senders_of};

use super::lists::Numbers;
use convoy_draft::delay_ticks;
use convoy_scenario::Name;
use convoy_toml::{Bundle, LinkEnds, WrittenLink};
use std::alloc::{AllocError, Global};

/// The sites from which a table's links lead.
pub(crate) fn senders_of(ends: &LinkEnds) -> &[Name]
    ensures { result.now ≡ senders_of ends.now }
{
    match &ends.senders {
        Some(names) => names.as_slice(),
        None => &[],
    }
}

/// Whether one of the names is that.
pub(crate) fn has_name(names: &[Name], name: &str) -> bool
    ensures { result ≡ is_among name.now names.now }
{
    names.iter().any(|other| name == other.as_str())
}

/// Whether a table's links lead from the one site to the other, but for the ways back.
fn leads_out(ends: &LinkEnds, from: &str, to: &str) -> bool
    ensures { result ≡ leads_out ends.now from.now to.now }
{
    has_name(senders_of(ends), from) && has_name(&ends.to, to)
}

/// Whether one of the names is another.
fn some_other(name: &Name, names: &[Name]) -> bool
    ensures { result ≡ list_any (λ other. not (bytes_eq name.now other)) names.now }
{
    names.iter().any(|other| !name.is_same(other))
}

/// Whether one of a table's links leads to another site.
fn leads_away(ends: &LinkEnds) -> bool
    ensures { result ≡ leads_away ends.now }
{
    senders_of(ends)
        .iter()
        .any(|from| some_other(from, &ends.to))
}

/// Whether a table's links lead from the one site to the other, there or back: those of a table that leads to another site
/// lead from none to itself.
fn leads(ends: &LinkEnds, from: &str, to: &str) -> bool
    ensures { result ≡ leads ends.now from.now to.now }
{
    leads_either(ends, from, to) && (from != to || !leads_away(ends))
}

/// Whether they do, be the two one site or not.
fn leads_either(ends: &LinkEnds, from: &str, to: &str) -> bool
    ensures { result ≡ (leads_out ends.now from.now to.now || (ends.now.both && leads_out ends.now to.now from.now)) }
{
    leads_out(ends, from, to) || (ends.both && leads_out(ends, to, from))
}

/// The first table whose links lead from the one site to the other.
pub(crate) fn table_between<'a>(
    links: &'a [WrittenLink],
    from: &str,
    to: &str,
) -> Option<&'a WrittenLink>
    ensures { option_copied result ≡ find (λ link. leads link.ends from.now to.now) links.now }
{
    links.iter().find(|link| leads(&link.ends, from, to))
}

fn bundle_between<'a>(bundles: &'a [Bundle], from: &str, to: &str) -> Option<&'a Bundle>
    ensures { option_copied result ≡ find (λ bundle. leads bundle.ends from.now to.now) bundles.now }
{
    bundles.iter().find(|bundle| leads(&bundle.ends, from, to))
}

/// The greatest delay from the one site to the other by that table, or 0 where none leads there.
fn most_in(bundles: &[Bundle], from: &str, to: &str) -> usize
    ensures { result ≡ most_in bundles.now from.now to.now }
{
    match bundle_between(bundles, from, to) {
        Some(bundle) => usize::from(delay_ticks(bundle.most)),
        None => 0,
    }
}

/// The same from a site to each.
fn most_from(
    alloc: Global,
    bundles: &[Bundle],
    from: &str,
    sites: &[Name],
) -> Result<Numbers, AllocError>
    ensures { IfOk result (λ row. row ≡ map (most_in bundles.now from.now) sites.now) }
{
    let mut row = Vec::new(alloc);
    for to in sites {
        row.push(most_in(bundles, from, to.as_str()))?;
    }
    Ok(Numbers { items: row })
}

/// The same from each site to each.
pub(crate) fn most_table(
    alloc: Global,
    bundles: &[Bundle],
    sites: &[Name],
) -> Result<Vec<Numbers>, AllocError>
    ensures { IfOk result (λ rows. rows.items ≡ most_table bundles.now sites.now) }
{
    let mut rows = Vec::new(alloc);
    for from in sites {
        rows.push(most_from(alloc, bundles, from.as_str(), sites)?)?;
    }
    Ok(rows)
}
