//! Rows that were made, each put in its place.

ghost use Rattle.std.specs.Prelude.{◌≡◌, IfOk, None, replicate, slice_index_or, slice_set};
ghost use Rattle.convoy_rows.specs.Rows.{places_of, with_row, with_rows};

use std::alloc::{AllocError, Global};

/// So many places, with the rows of all threads in the places of their numbers.
pub(crate) fn place_shares<T: Drop>(
    alloc: Global,
    count: usize,
    shares: Vec<Vec<(usize, T)>>,
) -> Result<Vec<Option<T>>, AllocError>
    ensures { IfOk result (λ places. places.items ≡ places_of count shares.items) }
{
    let mut places = empty_places(alloc, count)?;
    for share in shares {
        put_all(share, &mut places);
    }
    Ok(places)
}

/// So many places with no row.
fn empty_places<T: Drop>(alloc: Global, count: usize) -> Result<Vec<Option<T>>, AllocError>
    ensures { IfOk result (λ places. places.items ≡ replicate count None) }
{
    let mut places = Vec::new(alloc);
    for _ in 0..count {
        places.push(None)?;
    }
    Ok(places)
}

/// Puts each of some rows in the place of its number.
fn put_all<T: Drop>(pairs: Vec<(usize, T)>, places: &mut Vec<Option<T>>)
    ensures { places.new.items ≡ with_rows places.old.items pairs.items }
{
    for pair in pairs {
        put(pair, places);
    }
}

/// Puts a row in the place of its number, if there is that place.
fn put<T: Drop>(pair: (usize, T), places: &mut Vec<Option<T>>)
    ensures { places.new.items ≡ with_row places.old.items pair }
{
    let (number, row) = pair;
    if let Some(place) = places.get_mut(number) {
        *place = Some(row);
    }
}

/// Takes the row of a number from its place, if there is one.
pub(crate) fn take_row<T: Drop>(number: usize, places: &mut Vec<Option<T>>) -> Option<T>
    ensures row { result ≡ slice_index_or places.old.items number None }
    ensures rest { places.new.items ≡ slice_set places.old.items number None }
{
    match places.get_mut(number) {
        Some(place) => place.take(),
        None => None,
    }
}
