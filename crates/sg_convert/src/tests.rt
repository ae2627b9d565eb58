//! Values that move to other layouts and back, and the layouts that need the fewest words for them.

ghost use Rattle.std.specs.Prelude.{◌≡◌, ◌↔◌, IsTrue, IfOk, OnOk, All};
ghost use Rattle.sg_coord.specs.Bounds.{bounds_of};
ghost use Rattle.sg_coord.specs.Coord.{Inside};
ghost use Rattle.sg_store.specs.Standing.{shapes_of};

use crate::advising::{Advice, advise};
use crate::converting::convert;
use crate::likeness::alike;
use sg_activate::ActFault;
use sg_coord::{Coord, Extents, inside};
use sg_elements::active_count;
use sg_layout::Kind::{Bitmasked, Dense, Dynamic, Hash, Pointer};
use sg_layout::{Kind, Layout, Layouts, NodeShape, Shape, Size, check_layout};
use sg_outside::FreeGate;
use sg_store::{Store, Stores};
use sg_words::{Items, Memory, Stop, Ty};
use std::alloc::{AllocError, Global};
use std::test::Fail;
use std::thread::Threads;

/// A node of a line: its kind, its extent and its cap.
type Node = (Kind, i32, i32);

const ALL: &[Node] = &[(Dense, 64, 0)];

/// Blocks of four.
const BLOCKS: &[Node] = &[(Pointer, 16, 4), (Dense, 4, 0)];

const ONE_BLOCK: &[Node] = &[(Pointer, 16, 1), (Dense, 4, 0)];

/// Layouts of a line, and how many coordinates of each are active where those at 5 and at 40 are kept.
static LINES: [(&'static [Node], usize); 6] = [
    (ALL, 64),
    (BLOCKS, 8),
    (&[(Hash, 16, 4), (Bitmasked, 4, 0)], 2),
    (&[(Bitmasked, 64, 0)], 2),
    (&[(Dynamic, 64, 16)], 41),
    (&[(Pointer, 4, 3), (Pointer, 16, 5)], 2),
];

static WORKERS: [u32; 3] = [1, 2, 16];

/// Chunks of four elements for a dynamic node.
fn chunk_of(kind: Kind) -> i32 {
    match kind {
        Dynamic => 4,
        _ => 0,
    }
}

fn nodes_of(alloc: Global, nodes: &[Node]) -> Result<Items<NodeShape>, AllocError> {
    let mut shapes = Items::new(alloc);
    for (kind, extent, cap) in nodes {
        let size = Size {
            axis: 1,
            extent: *extent,
        };
        shapes.push(NodeShape {
            kind: *kind,
            sizes: Items::from_slice(alloc, &[size])?,
            cap: *cap,
            chunk: chunk_of(*kind),
        })?;
    }
    Ok(shapes)
}

/// A line of these nodes with two fields.
fn line_of(alloc: Global, nodes: &[Node]) -> Result<Layout, Fail> {
    let shape = Shape {
        axes: 1,
        nodes: nodes_of(alloc, nodes)?,
        fields: Items::from_slice(alloc, &[Ty::I32, Ty::U32])?,
    };
    if !shape.is_declared() {
        return Err(Fail::from("not declared"));
    }
    Ok(check_layout(alloc, &shape)?)
}

/// The store of a layout as it opens.
fn store_of(alloc: Global, layout: &Layout) -> Result<Store, Fail>
    ensures { IfOk result (λ store. store.shape ≡ layout.now) }
{
    if layout.words() > 1 << 22 {
        return Err(Fail::from("many words"));
    }
    Ok(Store::make(alloc, layout)?)
}

fn at(a: i32) -> Coord {
    Coord {
        n: 1,
        a,
        b: 0,
        c: 0,
    }
}

fn are_inside(extents: &Extents, coords: &[Coord]) -> bool
    ensures { IsTrue result ↔ All (Inside (bounds_of extents.now)) coords.now }
{
    coords.iter().all(|at| inside(extents, *at))
}

/// Activates a coordinate, and gives a field a value there.
fn put(alloc: Global, store: &mut Store, a: i32, place: u32, word: u32) -> Result<(), Fail>
    ensures { store.new.shape ≡ store.old.shape }
{
    let wanted = [at(a)];
    if !are_inside(&store.layout().extents(), &wanted) {
        return Err(Fail::from("outside"));
    }
    store.reach(alloc, &wanted)?;
    if (place as usize) < store.layout().shape().fields.len() {
        if let Some(cell) = store.cell_of(at(a)) {
            store.set(place, cell, word);
        }
    }
    Ok(())
}

/// The value of a field at a coordinate, 0 if that isn't active.
fn value_at(store: &Store, a: i32, place: u32) -> u32 {
    if (place as usize) < store.layout().shape().fields.len() {
        if let Some(cell) = store.cell_of(at(a)) {
            return store.value(place, cell);
        }
    }
    0
}

/// Whether two stores of lines have the same values.
fn are_same(one: &Store, other: &Store) -> bool {
    for a in 0..64 {
        if value_at(one, a, 0) != value_at(other, a, 0) {
            return false;
        }
        if value_at(one, a, 1) != value_at(other, a, 1) {
            return false;
        }
    }
    true
}

/// A store converted by so many workers.
fn moved<R: Threads + Sync>(
    rt: &R,
    alloc: Global,
    from: &Store,
    to: &Layout,
    workers: u32,
) -> Result<Result<Store, ActFault>, Fail> {
    if !alike(from.layout(), to) || to.words() > 1 << 22 || workers < 1 || workers > 16 {
        return Err(Fail::from("not alike"));
    }
    match convert(rt, alloc, from, to, workers, &FreeGate) {
        Ok(store) => Ok(Ok(store)),
        Err(Stop::Refused(fault)) => Ok(Err(fault)),
        Err(Stop::Memory) => Err(Fail::from(Memory)),
    }
}

/// A store that keeps its values at 5 and at 40. What is active at 20 has none.
fn two_kept(alloc: Global, layout: &Layout) -> Result<Store, Fail>
    ensures { IfOk result (λ store. store.shape ≡ layout.now) }
{
    let mut store = store_of(alloc, layout)?;
    put(alloc, &mut store, 20, 0, 0)?;
    put(alloc, &mut store, 5, 0, 7)?;
    put(alloc, &mut store, 40, 1, u32::MAX)?;
    Ok(store)
}

/// A store of a line that keeps these values.
fn kept_line(alloc: Global, nodes: &[Node]) -> Result<Store, Fail> {
    let layout = line_of(alloc, nodes)?;
    two_kept(alloc, &layout)
}

/// Whether a store that has moved to another layout has the same values there, and again when it is moved back.
fn is_back<R: Threads + Sync>(
    rt: &R,
    alloc: Global,
    store: &Store,
    there: &Store,
    workers: u32,
) -> Result<bool, Fail> {
    match moved(rt, alloc, there, store.layout(), workers)? {
        Ok(back) => Ok(are_same(store, there) && are_same(store, &back)),
        Err(_full) => Ok(false),
    }
}

/// Moves a store to a layout and back: how many coordinates are active there; none if the values aren't the same.
fn there_and_back<R: Threads + Sync>(
    rt: &R,
    alloc: Global,
    store: &Store,
    to: &Layout,
    workers: u32,
) -> Result<Option<usize>, Fail> {
    match moved(rt, alloc, store, to, workers)? {
        Ok(there) => {
            if !is_back(rt, alloc, store, &there, workers)? {
                return Ok(None);
            }
            Ok(Some(active_count(alloc, &there)?))
        }
        Err(_full) => Ok(None),
    }
}

/// Whether a store moves to all lines and back, by so many workers.
fn moves_to_all<R: Threads + Sync>(
    rt: &R,
    alloc: Global,
    store: &Store,
    workers: u32,
) -> Result<bool, Fail> {
    for (to, count) in &LINES {
        let to = line_of(alloc, to)?;
        if there_and_back(rt, alloc, store, &to, workers)? != Some(*count) {
            return Ok(false);
        }
    }
    Ok(true)
}

#[test]
fn values_move_there_and_back(rt: HostRuntime) -> Result<(), Fail> {
    for (from, _count) in &LINES {
        let store = kept_line(rt.alloc(), from)?;
        for workers in &WORKERS {
            assert!(rt; moves_to_all(&rt, rt.alloc(), &store, *workers)?);
        }
    }
    Ok(())
}

/// The refusal of a conversion to blocks of which one has room.
fn refusal<R: Threads + Sync>(
    rt: &R,
    alloc: Global,
    from: &Store,
    workers: u32,
) -> Result<Option<ActFault>, Fail> {
    let to = line_of(alloc, ONE_BLOCK)?;
    Ok(moved(rt, alloc, from, &to, workers)?.err())
}

/// Two blocks don't fit where there is room for one.
#[test]
fn full_pool_refuses(rt: HostRuntime) -> Result<(), Fail> {
    let from = kept_line(rt.alloc(), ALL)?;
    for workers in &WORKERS {
        let full = refusal(&rt, rt.alloc(), &from, *workers)?;
        assert_eq!(rt; full, Some(ActFault::PoolFull { node: 1, cap: 1 }));
    }
    Ok(())
}

/// Adds a line and a store of it to those of a program; the first keeps what is at 5 and at 40.
fn add_line(
    alloc: Global,
    stores: &mut Stores,
    layouts: &mut Layouts,
    nodes: &[Node],
) -> Result<(), Fail>
    ensures { OnOk result (shapes_of stores.old.list ≡ layouts.old.list → shapes_of stores.new.list ≡ layouts.new.list) }
{
    let layout = line_of(alloc, nodes)?;
    let store = if layouts.list.is_empty() {
        two_kept(alloc, &layout)?
    } else {
        store_of(alloc, &layout)?
    };
    stores.list.push(store)?;
    layouts.list.push(layout)?;
    Ok(())
}

fn told_of(alloc: Global, advice: &Advice) -> Result<String, Fail> {
    let mut told = String::new(alloc);
    for count in advice.counts.as_slice() {
        match count.words {
            Some(words) => write!(told, "{} {words}, ", count.layout)?,
            None => write!(told, "{} full, ", count.layout)?,
        }
    }
    write!(told, "best {} {}", advice.best, advice.words)?;
    Ok(told)
}

static ADVICE: [&'static str; 3] = [
    "0 128, 1 32, 2 full, best 1 32",
    "0 128, 1 16, 2 16, best 1 16",
    "0 128, 1 16, 2 16, best 1 16",
];

#[test]
fn fewest_words_are_advised(rt: HostRuntime) -> Result<(), Fail> {
    let mut stores = Stores {
        list: Items::new(rt.alloc()),
    };
    let mut layouts = Layouts {
        list: Items::new(rt.alloc()),
    };
    add_line(rt.alloc(), &mut stores, &mut layouts, ALL)?;
    add_line(rt.alloc(), &mut stores, &mut layouts, BLOCKS)?;
    add_line(rt.alloc(), &mut stores, &mut layouts, ONE_BLOCK)?;
    for (of, text) in ADVICE.iter().enumerate() {
        if of >= layouts.list.len() {
            return Err(Fail::from("no layout"));
        }
        let advice = advise(rt.alloc(), &stores, &layouts, of as u32)?;
        let told = told_of(rt.alloc(), &advice)?;
        assert_eq!(rt; told.as_str(), *text);
    }
    Ok(())
}
