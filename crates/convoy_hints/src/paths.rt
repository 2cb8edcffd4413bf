use super::body::{Body, is_split, split_of};
use std::alloc::{AllocError, Global};

/// One half of a box: the schedules in which a packet takes at most so many ticks, or more; or those in which two
/// moments come in the one order, or in the other.
#[derive(Clone, Copy, PartialEq, Eq)]
pub(crate) struct Half {
    /// The packet, and after how many ticks it is split; None for an order.
    cut: Option<(usize, u16)>,
    is_second: bool,
}

/// The halves that lead from the box of all schedules to that of a node, where the splits before it
/// are right.
pub(crate) fn path_to(
    alloc: Global,
    body: &Body<'_>,
    node: usize,
) -> Result<Vec<Half>, AllocError> {
    let mut path = Vec::new(alloc);
    for line in body.text.lines().skip(body.head).take(node) {
        if is_split(line) {
            path.push(Half {
                cut: split_of(line),
                is_second: false,
            })?;
        } else {
            leave(&mut path);
        }
    }
    Ok(path)
}

/// Goes on from a leaf to the second half of the last split whose first half it ends.
fn leave(path: &mut Vec<Half>) {
    let last = path.iter().rposition(|half| !half.is_second);
    path.truncate(last.map_or(0, |place| place.saturating_add(1)));
    if let Some(half) = path.last_mut() {
        half.is_second = true;
    }
}

/// What is left of the range of a packet at the end of a path.
pub(crate) fn range_along(path: &[Half], packet: usize, range: (u16, u16)) -> (u16, u16) {
    let (mut least, mut most) = range;
    for half in path {
        if let Some((split, at)) = half.cut
            && split == packet
        {
            if half.is_second {
                least = at.saturating_add(1);
            } else {
                most = at;
            }
        }
    }
    (least, most)
}
