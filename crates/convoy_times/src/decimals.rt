//! Nanoseconds as decimal numbers of a unit.

ghost use Rattle.std.specs.Prelude.{◌≡◌, ◌<◌, ◌≤◌, ◌*◌, ◌^◌, ◌++◌, OnOk};
ghost use Rattle.convoy_draft.specs.Durations.{unit_of};
ghost use Rattle.convoy_times.specs.Measures.{decimal_in, fraction, fraction_digits};

use convoy_scenario::TimeUnit;
use itoa::Buffer;
use std::alloc::AllocError;

/// How many digits a part of a unit has at most: a second is so many times ten nanoseconds.
const MOST_DIGITS: u32 = 9;

/// The greatest unit of which so many nanoseconds are a whole number.
pub(crate) fn greatest_unit(nanoseconds: u128) -> TimeUnit
    ensures { result ≡ unit_of nanoseconds }
{
    if nanoseconds.is_multiple_of(1_000_000_000) {
        TimeUnit::Seconds
    } else if nanoseconds.is_multiple_of(1_000_000) {
        TimeUnit::Milliseconds
    } else if nanoseconds.is_multiple_of(1_000) {
        TimeUnit::Microseconds
    } else {
        TimeUnit::Nanoseconds
    }
}

/// Appends so many nanoseconds in a unit. Where memory runs out, a front may have been appended.
#[tactic(auto, using(std::proofs::lemmas::List::append_assoc))]
pub(crate) fn push_decimal(
    unit: TimeUnit,
    nanoseconds: u128,
    out: &mut Vec<u8>,
) -> Result<(), AllocError>
    ensures { OnOk result (out.new.items ≡ out.old.items ++ decimal_in unit nanoseconds) }
{
    let one = unit.nanoseconds();
    let mut buffer = Buffer::new();
    out.extend_from_slice(buffer.format(nanoseconds / u128::from(one)).as_bytes())?;
    push_fraction(one, (nanoseconds % u128::from(one)) as u64, out)
}

/// Appends a point and what part of `one` the rest is, or nothing where there is no rest. Where memory runs out, a front
/// may have been appended.
#[tactic(auto, unfolding(crate::specs::Measures::fraction), using(std::proofs::lemmas::List::append_assoc))]
fn push_fraction(one: u64, rest: u64, out: &mut Vec<u8>) -> Result<(), AllocError>
    requires one { one ≤ 1000000000 }
    requires part { rest < one }
    ensures { OnOk result (out.new.items ≡ out.old.items ++ fraction one rest) }
{
    if rest == 0 {
        return Ok(());
    }
    out.push(b'.')?;
    push_digits(one, rest, out)
}

/// Appends the digits after a point. Where memory runs out, some may have been appended.
fn push_digits(one: u64, rest: u64, out: &mut Vec<u8>) -> Result<(), AllocError>
    requires one { one ≤ 1000000000 }
    requires part { rest < one }
    ensures { OnOk result (out.new.items ≡ out.old.items ++ fraction_digits MOST_DIGITS one rest) }
{
    let mut left = rest;
    for _ in 0..MOST_DIGITS {
        if left == 0 {
            break;
        }
        out.push(b'0' + (left * 10 / one) as u8)?;
        left = left * 10 % one;
    }
    Ok(())
}
