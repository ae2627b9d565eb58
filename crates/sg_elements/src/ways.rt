//! The ways on from the places of a node, which are the same for all of them.
ghost use Rattle.std.specs.Prelude.{◌≡◌, ◌↔◌, ◌<◌, ◌≤◌, ℕ, suc, true, List, length, map, slice_index, slice_get, Some, IfOk};
ghost use Rattle.std.specs.List.{range_with_len};
ghost use Rattle.sg_coord.specs.Coord.{Inside};
ghost use Rattle.sg_layout.specs.declared.shape.Kind.TheVariants.{Hash, Dynamic};
ghost use Rattle.sg_layout.specs.Axes.{sizes_of, bounds_of_shape};
ghost use Rattle.sg_layout.specs.Live.{kind_at};
ghost use Rattle.sg_layout.specs.Slots.{share_at};
ghost use Rattle.sg_store.specs.Spots.{root_offsets};
ghost use Rattle.sg_elements.specs.steps.Levels.{AreBranches, AreEnough, AreWays, EndsAt, IsBranch, SharesInside, level_at, node_size, share_row, way_of};

use crate::branches::Branch;
use sg_coord::row;
use sg_layout::{Kind, Layout, paths_tell};
use sg_store::Store;
use sg_words::{Items, Memory};
use std::alloc::Global;

/// A way on from a place: an offset of the node, and what it adds to a row number.
#[derive(Clone, Copy, Debug)]
pub struct Way {
    pub offset: u32,
    pub share: u32,
}

/// The way over this offset of the node with this index, from 0.
fn way_over(layout: &Layout, node: usize, offset: u32) -> Way
    requires there { node < length layout.now.nodes }
    requires below { offset < slice_index (sizes_of layout.now.nodes) node }
    requires inside { SharesInside layout.now node }
    ensures { result ≡ way_of layout.now node offset }
{
    let extents = layout.extents();
    let share = row(&extents, layout.share(node, offset));
    Way { offset, share }
}

/// A way over each of so many first offsets of the node with this index, from 0.
fn first_ways(alloc: Global, layout: &Layout, node: usize, count: u32) -> Result<Items<Way>, Memory>
    requires there { node < length layout.now.nodes }
    requires few { count ≤ slice_index (sizes_of layout.now.nodes) node }
    requires inside { SharesInside layout.now node }
    ensures { IfOk result (λ ways. ways ≡ map (way_of layout.now node) (range_with_len 0 count)) }
{
    let mut ways = Items::new(alloc);
    for offset in 0..count {
        ways.push(way_over(layout, node, offset))?;
    }
    Ok(ways)
}

/// A way over each key of a hash node, which is the first.
fn key_ways(alloc: Global, store: &Store) -> Result<Items<Way>, Memory>
    requires there { 0 < length store.now.shape.nodes }
    requires hash { kind_at store.now.shape.nodes 1 ≡ Hash }
    requires inside { SharesInside store.now.shape 0 }
    ensures { IfOk result (λ ways. ways ≡ map (way_of store.now.shape 0) (root_offsets store.now)) }
{
    let layout = store.layout();
    let keys = store.sorted_keys(alloc)?;
    let mut ways = Items::new(alloc);
    for key in keys.as_slice() {
        ways.push(way_over(layout, 0, *key))?;
    }
    Ok(ways)
}

/// Where the list below a branch at a dynamic node ends; this offset, if it ends before it.
fn list_end(store: &Store, node: usize, level: &[Branch], index: usize, from: u32) -> u32
    ghost path: { List ℕ }
    requires there { node < length store.now.shape.nodes }
    requires within { index < length level.now }
    requires branch { (branch : Branch) → slice_get level.now index ≡ Some branch → IsBranch store.now node branch path }
    requires lists { kind_at store.now.shape.nodes (suc node) ≡ Dynamic }
    requires from { from ≤ node_size store.now node }
    ensures later { from ≤ result }
    ensures within { result ≤ node_size store.now node }
    ensures ends { EndsAt store.now node result path }
{
    let branch = level[index];
    let size = store.layout().size(node);
    for end in from..size {
        match store.down(branch.spot, end) {
            Some(_below) => (),
            None => return end,
        }
    }
    size
}

/// Where the longest of the lists of a dynamic node ends, which has this index, from 0.
fn longest_end(store: &Store, node: usize, level: &[Branch]) -> u32
    requires there { node < length store.now.shape.nodes }
    requires level { AreBranches store.now node level.now (level_at store.now node) }
    requires lists { kind_at store.now.shape.nodes (suc node) ≡ Dynamic }
    ensures within { result ≤ node_size store.now node }
    ensures enough { AreEnough store.now node result }
{
    let mut end = 0;
    for index in 0..level.len() {
        end = list_end(store, node, level, index, end);
    }
    end
}

fn is_hash(kind: Kind) -> bool
    ensures { (result ≡ true) ↔ (kind ≡ Hash) }
{
    match kind {
        Kind::Hash => true,
        Kind::Dense | Kind::Bitmasked | Kind::Pointer | Kind::Dynamic => false,
    }
}

/// Lists hang below the places of the node with this index, from 0: where one doesn't lead on over an offset, it doesn't over a later one.
pub fn has_lists(store: &Store, node: usize) -> bool
    requires { node < length store.now.shape.nodes }
    ensures { (result ≡ true) ↔ (kind_at store.now.shape.nodes (suc node) ≡ Dynamic) }
{
    is_dynamic(store.layout().shape().nodes.as_slice()[node].kind)
}

fn is_dynamic(kind: Kind) -> bool
    ensures { (result ≡ true) ↔ (kind ≡ Dynamic) }
{
    match kind {
        Kind::Dynamic => true,
        Kind::Dense | Kind::Bitmasked | Kind::Pointer | Kind::Hash => false,
    }
}

/// The ways over which places of a level may lead on at the node with this index, from 0, by ascending offsets: the keys of a hash node,
/// those up to the end of the longest list of a dynamic node, all offsets of others.
pub fn ways_of(
    alloc: Global,
    store: &Store,
    node: usize,
    level: &[Branch],
) -> Result<Items<Way>, Memory>
    requires there { node < length store.now.shape.nodes }
    requires level { AreBranches store.now node level.now (level_at store.now node) }
    ensures { IfOk result (AreWays store.now node) }
{
    // for the laws that they ensure
    paths_tell();
    let layout = store.layout();
    let _extents = layout.extents();
    if node == 0 && is_hash(layout.shape().nodes.as_slice()[0].kind) {
        return key_ways(alloc, store);
    }
    let count = ways_end(store, node, level);
    first_ways(alloc, layout, node, count)
}

/// So many first offsets of the node with this index, from 0, are enough: those up to the end of the longest list of a dynamic node, all of
/// others.
fn ways_end(store: &Store, node: usize, level: &[Branch]) -> u32
    requires there { node < length store.now.shape.nodes }
    requires level { AreBranches store.now node level.now (level_at store.now node) }
    ensures within { result ≤ node_size store.now node }
    ensures enough { AreEnough store.now node result }
{
    if has_lists(store, node) {
        longest_end(store, node, level)
    } else {
        store.layout().size(node)
    }
}
