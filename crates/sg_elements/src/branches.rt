//! The walk down the tree of a store, node by node, over the slots that are active.

ghost use Rattle.std.specs.Prelude.{◌≡◌, ◌+◌, ◌++◌, ℕ, suc, ◌<◌, ◌≤◌, List, length, slice_index, slice_get, Some, IfOk, OnOk};
ghost use Rattle.sg_store.specs.StoreWords.{StoreWords};
ghost use Rattle.sg_elements.specs.steps.Levels.{IsBranch, AreBranches, AddsBranches, AddsRows, AreWays, FewBelow, led_over, offsets_of, level_at, rows_upto};

use crate::ways::{Way, has_lists, ways_of};
use sg_coord::numbering;
use sg_layout::paths_tell;
use sg_store::{Spot, Store};
use sg_words::Memory;
use std::alloc::{AllocError, Global};

/// A place that the walk has come to, and the row number of the coordinate that has the offsets up to it and zeros
/// after them.
#[derive(Clone, Copy, Debug)]
pub struct Branch {
    pub spot: Spot,
    pub row: u32,
}

/// Adds the branches that ways of the node with this index, from 0, have below a branch.
fn push_below(
    store: &Store,
    node: usize,
    level: &[Branch],
    index: usize,
    ways: &[Way],
    next: &mut Vec<Branch>,
) -> Result<(), AllocError>
    ghost path: { List ℕ }
    requires there { node < length store.now.shape.nodes }
    requires within { index < length level.now }
    requires branch { (branch : Branch) → slice_get level.now index ≡ Some branch → IsBranch store.now node branch path }
    requires ways { AreWays store.now node ways.now }
    ensures { OnOk result (AddsBranches store.now node (offsets_of ways.now) path next.old.items next.new.items) }
{
    // for the laws that they ensure
    paths_tell();
    let extents = store.layout().extents();
    numbering(&extents);
    let branch = level[index];
    for way in ways {
        if let Some(spot) = store.down(branch.spot, way.offset) {
            let row = branch.row + way.share;
            next.push(Branch { spot, row })?;
        }
    }
    Ok(())
}

/// The branches below a level, which are those of the node with this index, from 0.
fn next_level(
    alloc: Global,
    store: &Store,
    node: usize,
    level: &[Branch],
) -> Result<Vec<Branch>, Memory>
    requires there { node < length store.now.shape.nodes }
    requires level { AreBranches store.now node level.now (level_at store.now node) }
    ensures { IfOk result (λ next. AreBranches store.now (suc node) next.items (level_at store.now (suc node))) }
{
    let ways = ways_of(alloc, store, node, level)?;
    let mut next = Vec::new(alloc);
    for index in 0..level.len() {
        push_below(store, node, level, index, ways.as_slice(), &mut next)?;
    }
    Ok(next)
}

/// Adds the row numbers of the branches that ways of the node with this index, from 0, have below a branch.
fn push_rows(
    store: &Store,
    node: usize,
    level: &[Branch],
    index: usize,
    ways: &[Way],
    rows: &mut Vec<u32>,
) -> Result<(), AllocError>
    ghost path: { List ℕ }
    requires there { node < length store.now.shape.nodes }
    requires within { index < length level.now }
    requires branch { (branch : Branch) → slice_get level.now index ≡ Some branch → IsBranch store.now node branch path }
    requires ways { AreWays store.now node ways.now }
    ensures { OnOk result (AddsRows store.now (offsets_of ways.now) path rows.old.items rows.new.items) }
{
    // for the laws that they ensure
    paths_tell();
    let extents = store.layout().extents();
    numbering(&extents);
    let branch = level[index];
    let lists = has_lists(store, node);
    for way in ways {
        match store.down(branch.spot, way.offset) {
            Some(_spot) => {
                let row = branch.row + way.share;
                rows.push(row)?;
            }
            None => {
                if lists {
                    return Ok(());
                }
            }
        }
    }
    Ok(())
}

/// The row numbers of the branches below those of a level from one number up to below another, over ways of the node with this index,
/// from 0; in the order of their paths.
pub fn rows_between(
    alloc: Global,
    store: &Store,
    node: usize,
    level: &[Branch],
    ways: &[Way],
    from: usize,
    to: usize,
) -> Result<Vec<u32>, Memory>
    requires there { node < length store.now.shape.nodes }
    requires level { AreBranches store.now node level.now (level_at store.now node) }
    requires ways { AreWays store.now node ways.now }
    requires order { from ≤ to }
    requires within { to ≤ length level.now }
    ensures { IfOk result (λ rows. rows_upto store.now node to ≡ rows_upto store.now node from ++ rows.items) }
{
    let mut rows = Vec::new(alloc);
    for index in from..to {
        push_rows(store, node, level, index, ways, &mut rows)?;
    }
    Ok(rows)
}

/// How many branches a branch has below it, over ways of the node with this index, from 0.
fn count_below(store: &Store, node: usize, level: &[Branch], index: usize, ways: &[Way]) -> usize
    ghost path: { List ℕ }
    requires there { node < length store.now.shape.nodes }
    requires within { index < length level.now }
    requires branch { (branch : Branch) → slice_get level.now index ≡ Some branch → IsBranch store.now node branch path }
    requires ways { AreWays store.now node ways.now }
    ensures { result ≡ length (led_over store.now path (offsets_of ways.now)) }
{
    let branch = level[index];
    let lists = has_lists(store, node);
    let mut count = 0;
    for way in ways {
        match store.down(branch.spot, way.offset) {
            Some(_spot) => count += 1,
            None => {
                if lists {
                    return count;
                }
            }
        }
    }
    count
}

/// How many branches those of a level from one number up to below another have below them, over ways of the node with this index, from 0.
pub fn count_between(
    store: &Store,
    node: usize,
    level: &[Branch],
    ways: &[Way],
    from: usize,
    to: usize,
) -> usize
    requires there { node < length store.now.shape.nodes }
    requires level { AreBranches store.now node level.now (level_at store.now node) }
    requires ways { AreWays store.now node ways.now }
    requires order { from ≤ to }
    requires within { to ≤ length level.now }
    requires few { FewBelow store.now node }
    ensures { length (rows_upto store.now node to) ≡ length (rows_upto store.now node from) + result }
{
    let mut count = 0;
    for index in from..to {
        count += count_below(store, node, level, index, ways);
    }
    count
}

/// The branches after so many nodes.
pub fn level_through(alloc: Global, store: &Store, nodes: usize) -> Result<Vec<Branch>, Memory>
    requires { nodes < length store.now.shape.nodes }
    ensures { IfOk result (λ level. AreBranches store.now nodes level.items (level_at store.now nodes)) }
{
    let root = Branch {
        spot: store.root(),
        row: 0,
    };
    let mut level = vec![in alloc; root]?;
    for node in 0..nodes {
        level = next_level(alloc, store, node, &level)?;
    }
    Ok(level)
}
