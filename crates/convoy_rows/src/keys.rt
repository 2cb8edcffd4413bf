ghost use Rattle.std.specs.Prelude.{◌≡◌, ◌<◌, Ok, Err, map, length, IfOk, MatchResult};
ghost use Rattle.std.specs.List.{Contains};
ghost use Rattle.convoy_rows.specs.Rows.{AreMadeOf, IsMadeAt, IsMadeOf, TakesKey, TakesKeys};

use super::rows::make_rows;
use std::alloc::{AllocError, Global};
use std::thread::Threads;

/// What `make` gives for each of some keys, in their order, as [`make_rows`] makes rows.
pub fn make_each<R: Threads + Sync, K: Sync, W: Sync, T: Send + Drop, F: Fn(&K, &W) -> T + Sync>(
    rt: &R,
    alloc: Global,
    watches: &[W],
    keys: &[K],
    make: &F,
) -> Result<Vec<T>, AllocError>
    requires watched { 0 < length watches.now }
    requires takes { TakesKeys keys.now (F.pre make.now) }
    ensures { IfOk result (λ rows. AreMadeOf (F.post make.now) keys.now rows.items) }
{
    let make_at = |place: usize, watch: &W| -> T
        requires { (place < length keys.now) × TakesKeys keys.now (F.pre make.now) }
        ensures { IsMadeAt (F.post make.entry.now) keys.entry.now place result }
    { made_at(place, keys, watch, make) };
    let rows = make_rows(rt, alloc, watches, keys.len(), &make_at)?;
    Ok(rows)
}

/// The row of the key at a place.
fn made_at<K, W, T, F: Fn(&K, &W) -> T>(place: usize, keys: &[K], watch: &W, make: &F) -> T
    requires place { place < length keys.now }
    requires takes { TakesKeys keys.now (F.pre make.now) }
    ensures { IsMadeAt (F.post make.now) keys.now place result }
{
    made_of(&keys[place], watch, make)
}

/// The row of a key.
fn made_of<K, W, T, F: Fn(&K, &W) -> T>(key: &K, watch: &W, make: &F) -> T
    requires { TakesKey (F.pre make.now) key.now }
    ensures { IsMadeOf (F.post make.now) key.now result }
{
    make(key, watch)
}

/// The values of some results, where none is a fault, or else the first fault. Fails where memory runs out, and else
/// never.
pub fn all_values<T: Drop, E: Drop>(
    alloc: Global,
    results: Vec<Result<T, E>>,
) -> Result<Result<Vec<T>, E>, AllocError>
    ensures { IfOk result (λ all. MatchResult all (λ values. results.items ≡ map Ok values.items)
        (λ fault. Contains results.items (Err fault))) }
{
    let mut values = Vec::new(alloc);
    for result in results {
        match result {
            Ok(value) => values.push(value)?,
            Err(fault) => return Ok(Err(fault)),
        }
    }
    Ok(Ok(values))
}
