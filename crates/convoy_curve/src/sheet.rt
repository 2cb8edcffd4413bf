//! Where all stands on the image, in tenths of a pixel.

use super::curve::{Curve, Dot};

pub(crate) const WIDTH: u32 = 12_000;

pub(crate) const HEIGHT: u32 = 7_200;

/// Where the heading and the words of the upward axis begin.
pub(crate) const EDGE: u32 = 400;

pub(crate) const LEFT: u32 = 1_500;

pub(crate) const RIGHT: u32 = 11_500;

pub(crate) const TOP: u32 = 1_000;

pub(crate) const BOTTOM: u32 = 5_800;

/// How wide the bar of a single value is at least and at most, to either side.
const NARROWEST: u32 = 12;

const WIDEST: u32 = 120;

/// The values across, and the latencies up.
#[derive(Clone, Copy)]
pub(crate) struct Sheet {
    pub first: u32,
    pub last: u32,
    pub low: u32,
    pub high: u32,
    /// How far the bar of a single value goes to either side.
    half: u32,
}

impl Sheet {
    /// Where the parts of a curve stand: its values from side to side, and above its bottom the latencies and the deadline,
    /// from 0 on unless all of them are far from it.
    pub(crate) fn of(curve: &Curve) -> Sheet {
        let (mut first, mut last) = (u32::MAX, 0);
        let (mut low, mut high) = (u32::MAX, curve.deadline.unwrap_or(0));
        for dot in curve.dots {
            first = first.min(dot.value);
            last = last.max(dot.last.unwrap_or(dot.value));
            low = low.min(dot.least.unwrap_or(u32::MAX));
            high = high.max(dot.most.unwrap_or(0));
        }
        let bottom = low.min(curve.deadline.unwrap_or(u32::MAX));
        let low = if bottom < high && bottom > high / 2 {
            bottom.saturating_sub((high - bottom) / 5)
        } else {
            0
        };
        Sheet {
            first: first.min(last),
            last,
            low,
            high,
            half: half_of(curve.dots.len()),
        }
    }

    /// How far to the right a value stands.
    pub(crate) fn x_of(&self, value: u32) -> u32 {
        LEFT.saturating_add(part_of(value, self.first, self.last, RIGHT - LEFT))
    }

    /// How far down a latency stands.
    pub(crate) fn y_of(&self, latency: u32) -> u32 {
        BOTTOM.saturating_sub(part_of(latency, self.low, self.high, BOTTOM - TOP))
    }

    /// From where to where the bar of a value goes, from the left.
    pub(crate) fn bar_of(&self, dot: &Dot) -> (u32, u32) {
        let left = self.x_of(dot.value);
        match dot.last {
            Some(last) => (left, self.x_of(last)),
            None => (
                left.saturating_sub(self.half),
                left.saturating_add(self.half),
            ),
        }
    }
}

/// How far the bars of so many values go to either side.
fn half_of(count: usize) -> u32 {
    let gaps = u32::try_from(count).unwrap_or(u32::MAX).saturating_sub(1);
    let half = (RIGHT - LEFT).checked_div(gaps).unwrap_or(WIDEST) / 2;
    half.clamp(NARROWEST, WIDEST)
}

/// How much of a length lies below a number between two others.
fn part_of(number: u32, low: u32, high: u32, length: u32) -> u32 {
    let over = u64::from(number.saturating_sub(low));
    let part = (over * u64::from(length)).checked_div(u64::from(high.saturating_sub(low)));
    u32::try_from(part.unwrap_or(0))
        .unwrap_or(length)
        .min(length)
}
