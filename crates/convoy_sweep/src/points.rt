//! The points of a sweep.

ghost use Rattle.std.specs.Prelude.{◌≡◌, ◌++◌, map, flat_map, IfOk, IfSome, OnOk};
ghost use Rattle.convoy_sweep.specs.Points.{inner_range, of_setting, points_at, points_of, ranges_in, second_range, single};
ghost use Rattle.convoy_sweep.specs.Values.{IsRange, range_in};

use super::fault::SweepFault;
use super::keys::is_same_key;
use super::kinds::{Given, MOST_ROWS, Point, Ranges, Setting, Sweep, ValueRange};
use super::values::{given_count, givens, range_in};
use convoy_toml::WrittenScenario;
use std::alloc::{AllocError, Global};

/// The values that a sweep gives the keys of a text, whose ticks have that length.
pub(crate) fn ranges_in(
    written: &WrittenScenario,
    tick: Option<u64>,
    envelope: bool,
    sweep: &Sweep,
) -> Result<Ranges, SweepFault>
    ensures value { result ≡ ranges_in written.now tick envelope sweep.now }
    ensures outer { IfOk result (λ ranges. IsRange ranges.outer) }
    ensures inner { IfOk result (λ ranges. IfSome ranges.inner IsRange) }
{
    let outer = first_range(written, tick, envelope, &sweep.first)?;
    let inner = inner_range(written, tick, envelope, sweep, outer)?;
    Ok(Ranges { outer, inner })
}

/// The values of the first setting.
fn first_range(
    written: &WrittenScenario,
    tick: Option<u64>,
    envelope: bool,
    setting: &Setting,
) -> Result<ValueRange, SweepFault>
    ensures value { result ≡ of_setting SweepFault.First (range_in written.now tick envelope setting.now) }
    ensures lawful { IfOk result IsRange }
{
    match range_in(written, tick, envelope, setting) {
        Ok(range) => Ok(range),
        Err(fault) => Err(SweepFault::First(fault)),
    }
}

/// The values of the second setting, if there is one.
fn inner_range(
    written: &WrittenScenario,
    tick: Option<u64>,
    envelope: bool,
    sweep: &Sweep,
    outer: ValueRange,
) -> Result<Option<ValueRange>, SweepFault>
    requires { IsRange outer }
    ensures value { result ≡ inner_range written.now tick envelope sweep.now outer sweep.now.second }
    ensures lawful { IfOk result (λ inner. IfSome inner IsRange) }
{
    match &sweep.second {
        Some(second) => {
            let inner = second_range(written, tick, envelope, sweep, outer, second)?;
            Ok(Some(inner))
        }
        None => Ok(None),
    }
}

/// The values of a second setting beside those of the first: of another key, and with not too many points.
fn second_range(
    written: &WrittenScenario,
    tick: Option<u64>,
    envelope: bool,
    sweep: &Sweep,
    outer: ValueRange,
    second: &Setting,
) -> Result<ValueRange, SweepFault>
    requires { IsRange outer }
    ensures value { result ≡ second_range written.now tick envelope sweep.now outer second.now }
    ensures lawful { IfOk result IsRange }
{
    let inner = match range_in(written, tick, envelope, second) {
        Ok(range) => range,
        Err(fault) => return Err(SweepFault::Second(fault)),
    };
    if is_same_key(written, &sweep.first.key, &second.key) {
        return Err(SweepFault::SameKey);
    }
    if given_count(envelope, outer) * given_count(envelope, inner) > MOST_ROWS {
        return Err(SweepFault::TooManyRows);
    }
    Ok(inner)
}

/// The points of a sweep, the values of the first key outermost. Fails where memory runs out, and else never.
pub(crate) fn points_of(
    alloc: Global,
    envelope: bool,
    ranges: Ranges,
) -> Result<Vec<Point>, AllocError>
    requires outer { IsRange ranges.outer }
    requires inner { IfSome ranges.inner IsRange }
    ensures { IfOk result (λ points. points.items ≡ points_of envelope ranges) }
{
    let outer = givens(alloc, envelope, ranges.outer)?;
    match ranges.inner {
        Some(inner) => pairs_of(alloc, &outer, &givens(alloc, envelope, inner)?),
        None => singles_of(alloc, &outer),
    }
}

/// The points of one key.
fn singles_of(alloc: Global, outer: &[Given]) -> Result<Vec<Point>, AllocError>
    ensures { IfOk result (λ points. points.items ≡ map single outer.now) }
{
    let mut points = Vec::new(alloc);
    for given in outer {
        points.push(Point {
            first: *given,
            second: None,
        })?;
    }
    Ok(points)
}

/// The points of two keys.
fn pairs_of(alloc: Global, outer: &[Given], inner: &[Given]) -> Result<Vec<Point>, AllocError>
    ensures { IfOk result (λ points. points.items ≡ flat_map (points_at inner.now) outer.now) }
{
    let mut points = Vec::new(alloc);
    for given in outer {
        push_pairs(*given, inner, &mut points)?;
    }
    Ok(points)
}

/// Appends what the first key is given, with each that the second is given.
fn push_pairs(given: Given, inner: &[Given], points: &mut Vec<Point>) -> Result<(), AllocError>
    ensures { OnOk result (points.new.items ≡ points.old.items ++ points_at inner.now given) }
{
    for other in inner {
        points.push(Point {
            first: given,
            second: Some(*other),
        })?;
    }
    Ok(())
}
