//! What one thread makes of the rows, and what is left to make.

ghost use Rattle.std.specs.Prelude.{◌≡◌, ◌∷◌, [], ◌++◌, if◌then◌else◌, ◌<◌, IfOk, IfSome};
ghost use denote.Ref.{Bor};
ghost use Rattle.convoy_rows.specs.Rows.{AreMade, AreRightPairs, AreRightPlaces, IsMade, TakesRows};

use super::places::take_row;
use std::alloc::{AllocError, Global};
use std::sync::atomic::{AtomicUsize, Ordering};

/// Makes rows with this watch for as long as some are free, and gives back each with its number. Where memory runs out
/// it makes no more.
pub(crate) fn make_free<W, T: Drop, F: Fn(usize, &W) -> T>(
    alloc: Global,
    watch: &W,
    count: usize,
    next: &AtomicUsize,
    make: &F,
) -> Vec<(usize, T)>
    requires { TakesRows count (F.pre make.now) }
    ensures { AreRightPairs (IsMade (F.post make.now)) result.items }
{
    let mut pairs = Vec::new(alloc);
    for _ in 0..count {
        if !push_free(watch, count, next, make, &mut pairs) {
            break;
        }
    }
    pairs
}

/// Makes the next row that is free, and appends it with its number. Answers whether there was one, and memory for it.
fn push_free<W, T: Drop, F: Fn(usize, &W) -> T>(
    watch: &W,
    count: usize,
    next: &AtomicUsize,
    make: &F,
    pairs: &mut Vec<(usize, T)>,
) -> bool
    requires takes { TakesRows count (F.pre make.now) }
    requires right { AreRightPairs (IsMade (F.post make.now)) pairs.old.items }
    ensures { AreRightPairs (IsMade (F.post make.now)) pairs.new.items }
{
    let number = next.fetch_add(1, Ordering::SeqCst);
    if number >= count {
        return false;
    }
    push_pair(number, make(number, watch), pairs)
}

/// Appends a row with its number, where there is memory for it, and answers whether there is.
fn push_pair<T: Drop>(number: usize, row: T, pairs: &mut Vec<(usize, T)>) -> bool
    ensures { pairs.new.items ≡ (if result then pairs.old.items ++ (number, row) ∷ [] else pairs.old.items) }
{
    pairs.push((number, row)).is_ok()
}

/// All rows, one after the other: one that is in its place is taken from there, and any other is made with this watch.
pub(crate) fn make_rest<W, T: Drop, F: Fn(usize, &W) -> T>(
    alloc: Global,
    watch: &W,
    count: usize,
    places: Vec<Option<T>>,
    make: &F,
) -> Result<Vec<T>, AllocError>
    requires takes { TakesRows count (F.pre make.now) }
    requires right { AreRightPlaces (IsMade (F.post make.now)) places.items }
    ensures { IfOk result (λ rows. AreMade (F.post make.now) count rows.items) }
{
    let mut places = places;
    let mut rows = Vec::new(alloc);
    for number in 0..count {
        let placed = take_row(number, &mut places);
        rows.push(row_of(number, placed, watch, make))?;
    }
    Ok(rows)
}

/// The row of a number: that which is there, or else one that is made.
fn row_of<W, T: Drop, F: Fn(usize, &W) -> T>(
    number: usize,
    placed: Option<T>,
    watch: &W,
    make: &F,
) -> T
    requires takes { (watch : Bor W) → F.pre make.now number watch }
    requires placed { IfSome placed (IsMade (F.post make.now) number) }
    ensures { IsMade (F.post make.now) number result }
{
    match placed {
        Some(row) => row,
        None => make(number, watch),
    }
}
