//! Shares as they are told.

ghost use Rattle.std.specs.Prelude.{◌≡◌, ◌<◌, ◌++◌, IfOk, OnOk, string_bytes};
ghost use Rattle.convoy_times.specs.Measures.{fraction, fraction_digits};
ghost use Rattle.convoy_outside.specs.Percents.{millionths_of, percent_of, told_millionths};

use convoy_scenario::AllocResult;
use itoa::Buffer;
use std::alloc::{AllocError, Global};

/// How many millionths one per cent has.
const ONE_PERCENT: u64 = 1_000_000;

/// How many digits after the point are told at most: as many as millionths can have, and some to spare.
const MOST_DIGITS: u32 = 9;

/// Appends a share of so many billionths as a number of per cent, rounded up to millionths, with as many digits after the
/// point as it needs. Fails where memory runs out, and else never; a front may have been appended then.
pub fn push_percent(billionths: u64, out: &mut Vec<u8>) -> Result<(), AllocError>
    ensures { OnOk result (out.new.items ≡ out.old.items ++ percent_of billionths) }
{
    push_millionths(millionths_of(billionths), out)
}

/// The same as a text of its own. Fails where memory runs out, and else never.
pub fn percent_text(alloc: Global, billionths: u64) -> AllocResult<String>
    ensures { IfOk result (λ text. string_bytes text ≡ percent_of billionths) }
{
    let mut bytes = Vec::new(alloc);
    push_millionths(millionths_of(billionths), &mut bytes)?;
    match String::from_utf8(bytes) {
        Ok(text) => Ok(text),
        Err(_) => unreachable!(),
    }
}

/// A share in millionths of a per cent, rounded up.
fn millionths_of(billionths: u64) -> u64
    ensures { result ≡ millionths_of billionths }
{
    let more = if billionths.is_multiple_of(10) { 0 } else { 1 };
    billionths / 10 + more
}

/// Appends so many millionths of a per cent as a number of per cent. Where memory runs out, a front may have been appended.
#[tactic(auto, unfolding(crate::specs::Percents::told_millionths), using(std::proofs::lemmas::List::append_assoc))]
fn push_millionths(millionths: u64, out: &mut Vec<u8>) -> Result<(), AllocError>
    ensures { OnOk result (out.new.items ≡ out.old.items ++ told_millionths millionths) }
{
    let mut buffer = Buffer::new();
    out.extend_from_slice(buffer.format(millionths / ONE_PERCENT).as_bytes())?;
    push_fraction(millionths % ONE_PERCENT, out)
}

/// Appends a point and so many millionths, or nothing where there are none. Where memory runs out, a front may have been
/// appended.
#[tactic(auto, unfolding(convoy_times::specs::Measures::fraction), using(std::proofs::lemmas::List::append_assoc))]
fn push_fraction(millionths: u64, out: &mut Vec<u8>) -> Result<(), AllocError>
    requires { millionths < 1000000 }
    ensures { OnOk result (out.new.items ≡ out.old.items ++ fraction 1000000 millionths) }
{
    if millionths == 0 {
        return Ok(());
    }
    out.push(b'.')?;
    push_digits(millionths, out)
}

/// Appends the digits after a point. Where memory runs out, some may have been appended.
fn push_digits(millionths: u64, out: &mut Vec<u8>) -> Result<(), AllocError>
    requires { millionths < 1000000 }
    ensures { OnOk result (out.new.items ≡ out.old.items ++ fraction_digits 9 1000000 millionths) }
{
    let mut left = millionths;
    for _ in 0..MOST_DIGITS {
        if left == 0 {
            break;
        }
        out.push(b'0' + (left * 10 / ONE_PERCENT) as u8)?;
        left = left * 10 % ONE_PERCENT;
    }
    Ok(())
}
