//! The row numbers to which the walk leads, by one worker or by several.

ghost use Rattle.std.specs.Prelude.{◌≡◌, ◌+◌, ◌-◌, ◌^◌, ◌<◌, ◌≤◌, length, IfOk};
ghost use Rattle.std.specs.List.Sorted.{IsPermutation};
ghost use Rattle.std.specs.Thread.{IsSync};
ghost use Rattle.sg_elements.specs.steps.Levels.{AreBranches, AreWays, AreRowsBetween, FewBelow, level_at, rows_upto, walk_rows};

use crate::branches::{Branch, count_between, level_through, rows_between};
use crate::order::are_many;
use crate::ways::{Way, ways_of};
use sg_store::Store;
use sg_words::Memory;
use std::alloc::Global;
use std::thread::{Threads, join};

/// Fewer slots than these are walked sooner than a thread is started for a part of them.
const FEW_SLOTS: usize = 16_384;

/// The row numbers of the coordinates to which the walk leads, in the order of their paths.
pub fn reached_rows(alloc: Global, store: &Store) -> Result<Vec<u32>, Memory>
    ensures { IfOk result (λ rows. rows.items ≡ walk_rows store.now) }
{
    let last = store.layout().nodes() - 1;
    let level = level_through(alloc, store, last)?;
    let ways = ways_of(alloc, store, last, &level)?;
    rows_between(alloc, store, last, &level, ways.as_slice(), 0, level.len())
}

/// The same in some order, by so many workers, each below a part of the branches before the last node.
pub fn rows_reached_by<R: Threads + Sync>(
    rt: &R,
    alloc: Global,
    store: &Store,
    workers: u32,
) -> Result<Vec<u32>, Memory>
    requires some { 1 ≤ workers }
    ensures { IfOk result (λ rows. IsPermutation (walk_rows store.now) rows.items) }
{
    let last = store.layout().nodes() - 1;
    let level = level_through(alloc, store, last)?;
    let ways = ways_of(alloc, store, last, &level)?;
    let list = ways.as_slice();
    rows_among(
        rt,
        alloc,
        store,
        last,
        &level,
        list,
        0,
        level.len(),
        workers,
        false,
    )
}

/// The row numbers of the branches below those of a level from one number up to below another, by fork and join over halves of them. A
/// thread that has forked `waits`: it lists nothing itself.
fn rows_among<R: Threads + Sync>(
    rt: &R,
    alloc: Global,
    store: &Store,
    node: usize,
    level: &[Branch],
    ways: &[Way],
    from: usize,
    to: usize,
    workers: u32,
    waits: bool,
) -> Result<Vec<u32>, Memory>
    requires some { 1 ≤ workers }
    requires there { node < length store.now.shape.nodes }
    requires level { AreBranches store.now node level.now (level_at store.now node) }
    requires ways { AreWays store.now node ways.now }
    requires order { from ≤ to }
    requires within { to ≤ length level.now }
    ensures { IfOk result (λ rows. AreRowsBetween store.now node from to rows.items) }
{
    if workers < 2 || to - from < 2 || (to - from).saturating_mul(ways.len()) < FEW_SLOTS {
        if waits {
            return rows_apart(rt, alloc, store, node, level, ways, from, to);
        }
        return part_rows(alloc, store, node, level, ways, from, to);
    }
    let half = workers / 2;
    let middle = from + (to - from) / 2;
    let (left, right) = join(
        rt,
        move || -> Result<Vec<u32>, Memory>
            requires { IsSync R.row × (1 ≤ workers - half) × (node < length store.now.shape.nodes)
                × AreBranches store.now node level.now (level_at store.now node) × AreWays store.now node ways.now
                × (from ≤ middle) × (middle ≤ length level.now) }
            ensures { IfOk result (λ rows. AreRowsBetween store.entry.now node from middle rows.items) }
        {
            rows_among(
                rt,
                alloc,
                store,
                node,
                level,
                ways,
                from,
                middle,
                workers - half,
                false,
            )
        },
        move || -> Result<Vec<u32>, Memory>
            requires { IsSync R.row × (1 ≤ half) × (node < length store.now.shape.nodes)
                × AreBranches store.now node level.now (level_at store.now node) × AreWays store.now node ways.now
                × (middle ≤ to) × (to ≤ length level.now) }
            ensures { IfOk result (λ rows. AreRowsBetween store.entry.now node middle to rows.items) }
        { rows_among(rt, alloc, store, node, level, ways, middle, to, half, true) },
    );
    let (mut rows, mut others) = (left?, right?);
    rows.append(&mut others)?;
    Ok(rows)
}

/// The same by one worker, in a thread of its own.
fn rows_apart<R: Threads + Sync>(
    rt: &R,
    alloc: Global,
    store: &Store,
    node: usize,
    level: &[Branch],
    ways: &[Way],
    from: usize,
    to: usize,
) -> Result<Vec<u32>, Memory>
    requires there { node < length store.now.shape.nodes }
    requires level { AreBranches store.now node level.now (level_at store.now node) }
    requires ways { AreWays store.now node ways.now }
    requires order { from ≤ to }
    requires within { to ≤ length level.now }
    ensures { IfOk result (λ rows. AreRowsBetween store.now node from to rows.items) }
{
    let (rows, ()) = join(
        rt,
        move || -> Result<Vec<u32>, Memory>
            requires { (node < length store.now.shape.nodes) × AreBranches store.now node level.now (level_at store.now node)
                × AreWays store.now node ways.now × (from ≤ to) × (to ≤ length level.now) }
            ensures { IfOk result (λ rows. AreRowsBetween store.entry.now node from to rows.items) }
        { part_rows(alloc, store, node, level, ways, from, to) },
        || (),
    );
    rows
}

/// The same by one worker. They are sorted, unless they are so many that those of all parts are ordered by marks.
fn part_rows(
    alloc: Global,
    store: &Store,
    node: usize,
    level: &[Branch],
    ways: &[Way],
    from: usize,
    to: usize,
) -> Result<Vec<u32>, Memory>
    requires there { node < length store.now.shape.nodes }
    requires level { AreBranches store.now node level.now (level_at store.now node) }
    requires ways { AreWays store.now node ways.now }
    requires order { from ≤ to }
    requires within { to ≤ length level.now }
    ensures { IfOk result (λ rows. AreRowsBetween store.now node from to rows.items) }
{
    let mut rows = rows_between(alloc, store, node, level, ways, from, to)?;
    if are_many(store.layout().extents().volume(), rows.len()) {
        return Ok(rows);
    }
    rows.sort()?;
    Ok(rows)
}

/// How many coordinates the walk leads to.
pub fn reached_count(alloc: Global, store: &Store) -> Result<usize, Memory>
    requires few { length (walk_rows store.now) < 2 ^ 32 }
    ensures { IfOk result (λ count. count ≡ length (walk_rows store.now)) }
{
    let last = store.layout().nodes() - 1;
    let level = level_through(alloc, store, last)?;
    let ways = ways_of(alloc, store, last, &level)?;
    let count = count_between(store, last, &level, ways.as_slice(), 0, level.len());
    Ok(count)
}

/// The same, counted by so many workers.
pub fn reached_count_by<R: Threads + Sync>(
    rt: &R,
    alloc: Global,
    store: &Store,
    workers: u32,
) -> Result<usize, Memory>
    requires some { 1 ≤ workers }
    requires few { length (walk_rows store.now) < 2 ^ 32 }
    ensures { IfOk result (λ count. count ≡ length (walk_rows store.now)) }
{
    let last = store.layout().nodes() - 1;
    let level = level_through(alloc, store, last)?;
    let ways = ways_of(alloc, store, last, &level)?;
    let list = ways.as_slice();
    Ok(count_among(
        rt,
        store,
        last,
        &level,
        list,
        0,
        level.len(),
        workers,
        false,
    ))
}

/// How many branches those of a level from one number up to below another have below them, by fork and join over halves of them. A
/// thread that has forked `waits`: it counts nothing itself.
fn count_among<R: Threads + Sync>(
    rt: &R,
    store: &Store,
    node: usize,
    level: &[Branch],
    ways: &[Way],
    from: usize,
    to: usize,
    workers: u32,
    waits: bool,
) -> usize
    requires some { 1 ≤ workers }
    requires there { node < length store.now.shape.nodes }
    requires level { AreBranches store.now node level.now (level_at store.now node) }
    requires ways { AreWays store.now node ways.now }
    requires order { from ≤ to }
    requires within { to ≤ length level.now }
    requires few { FewBelow store.now node }
    ensures { length (rows_upto store.now node to) ≡ length (rows_upto store.now node from) + result }
{
    if workers < 2 || to - from < 2 || (to - from).saturating_mul(ways.len()) < FEW_SLOTS {
        if waits {
            return count_apart(rt, store, node, level, ways, from, to);
        }
        return count_between(store, node, level, ways, from, to);
    }
    let half = workers / 2;
    let middle = from + (to - from) / 2;
    let (left, right) = join(
        rt,
        move || -> usize
            requires { IsSync R.row × (1 ≤ workers - half) × (node < length store.now.shape.nodes)
                × AreBranches store.now node level.now (level_at store.now node) × AreWays store.now node ways.now
                × (from ≤ middle) × (middle ≤ length level.now) × FewBelow store.now node }
            ensures { length (rows_upto store.entry.now node middle) ≡ length (rows_upto store.entry.now node from) + result }
        {
            count_among(
                rt,
                store,
                node,
                level,
                ways,
                from,
                middle,
                workers - half,
                false,
            )
        },
        move || -> usize
            requires { IsSync R.row × (1 ≤ half) × (node < length store.now.shape.nodes)
                × AreBranches store.now node level.now (level_at store.now node) × AreWays store.now node ways.now
                × (middle ≤ to) × (to ≤ length level.now) × FewBelow store.now node }
            ensures { length (rows_upto store.entry.now node to) ≡ length (rows_upto store.entry.now node middle) + result }
        { count_among(rt, store, node, level, ways, middle, to, half, true) },
    );
    left + right
}

/// The same by one worker, in a thread of its own.
fn count_apart<R: Threads + Sync>(
    rt: &R,
    store: &Store,
    node: usize,
    level: &[Branch],
    ways: &[Way],
    from: usize,
    to: usize,
) -> usize
    requires there { node < length store.now.shape.nodes }
    requires level { AreBranches store.now node level.now (level_at store.now node) }
    requires ways { AreWays store.now node ways.now }
    requires order { from ≤ to }
    requires within { to ≤ length level.now }
    requires few { FewBelow store.now node }
    ensures { length (rows_upto store.now node to) ≡ length (rows_upto store.now node from) + result }
{
    let (count, ()) = join(
        rt,
        move || -> usize
            requires { (node < length store.now.shape.nodes) × AreBranches store.now node level.now (level_at store.now node)
                × AreWays store.now node ways.now × (from ≤ to) × (to ≤ length level.now) × FewBelow store.now node }
            ensures { length (rows_upto store.entry.now node to) ≡ length (rows_upto store.entry.now node from) + result }
        { count_between(store, node, level, ways, from, to) },
        || (),
    );
    count
}
