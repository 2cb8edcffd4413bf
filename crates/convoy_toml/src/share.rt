//! Shares of packets that may be outside their ranges, as they are written.

ghost use Rattle.std.specs.Prelude.{◌≡◌, ◌≤◌, IfSome};
ghost use Rattle.toml.specs.View.{view};
ghost use Rattle.convoy_draft.specs.Durations.{digit_of};
ghost use Rattle.convoy_toml.specs.Shares.{as_share, share_after, share_digits, share_of_integer, share_of_text, within_whole};

use toml::Value;

/// All packets, in the billionths in which shares are counted.
pub const WHOLE_SHARE: u64 = 1_000_000_000;

/// The word of the key of a table of links that tells a share.
pub(crate) const OUTSIDE: &str = "outside";

/// The share that a value tells, in billionths: 0 or 1, or a text with such a number in decimal digits, at most nine of
/// which stand after a point.
pub(crate) fn share_told(value: &Value) -> Option<u64>
    ensures share { result ≡ as_share (view value.now) }
    ensures bounded { IfSome result (λ billionths. billionths ≤ WHOLE_SHARE) }
{
    match value.as_integer() {
        Some(number) => share_of_integer(number),
        None => share_of_text(value.as_str()?.as_bytes()),
    }
}

/// None of packets, or all.
fn share_of_integer(number: i64) -> Option<u64>
    ensures share { result ≡ share_of_integer number }
    ensures bounded { IfSome result (λ billionths. billionths ≤ WHOLE_SHARE) }
{
    match number {
        0 => Some(0),
        1 => Some(WHOLE_SHARE),
        _ => None,
    }
}

/// The share that a text tells, in billionths.
fn share_of_text(text: &[u8]) -> Option<u64>
    ensures share { result ≡ share_of_text text.now }
    ensures bounded { IfSome result (λ billionths. billionths ≤ WHOLE_SHARE) }
{
    let (first, rest) = text.split_first()?;
    let total = within_whole(digit(*first)? * WHOLE_SHARE)?;
    share_after(total, rest)
}

/// What is told by what stands after a first digit, which counts so many billionths.
fn share_after(total: u64, text: &[u8]) -> Option<u64>
    requires { total ≤ WHOLE_SHARE }
    ensures share { result ≡ share_after total text.now }
    ensures bounded { IfSome result (λ billionths. billionths ≤ WHOLE_SHARE) }
{
    match text {
        [] => Some(total),
        [b'.', first, ..] => share_digits(total, &text[1..]),
        _ => None,
    }
}

/// What is told by digits after a point, added to so many billionths.
fn share_digits(before: u64, text: &[u8]) -> Option<u64>
    requires { before ≤ WHOLE_SHARE }
    ensures share { result ≡ share_digits 100000000 before text.now }
    ensures bounded { IfSome result (λ billionths. billionths ≤ WHOLE_SHARE) }
{
    let mut worth: u64 = 100_000_000;
    let mut total = before;
    let mut rest = text;
    while let Some((byte, tail)) = rest.split_first() {
        if worth == 0 {
            return None;
        }
        total = within_whole(total + digit(*byte)? * worth)?;
        worth /= 10;
        rest = tail;
    }
    Some(total)
}

/// What a digit counts.
fn digit(byte: u8) -> Option<u64>
    ensures value { result ≡ digit_of byte }
    ensures small { IfSome result (λ digit. digit ≤ 9) }
{
    if byte.is_ascii_digit() {
        Some(u64::from(byte - b'0'))
    } else {
        None
    }
}

/// The number, unless it is more billionths than a whole.
fn within_whole(billionths: u64) -> Option<u64>
    ensures value { result ≡ within_whole billionths }
    ensures bounded { IfSome result (λ within. within ≤ WHOLE_SHARE) }
{
    if billionths <= WHOLE_SHARE {
        Some(billionths)
    } else {
        None
    }
}
