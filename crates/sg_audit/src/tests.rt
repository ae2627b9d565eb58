//! Verdicts on journals, and journals of stores that are reached, pruned and cleared.

ghost use Rattle.std.specs.Prelude.{◌↔◌, IsTrue, All};
ghost use Rattle.sg_coord.specs.Bounds.{bounds_of};
ghost use Rattle.sg_coord.specs.Coord.{Inside};

use crate::auditing::audit;
use crate::verdict::Verdict;
use sg_coord::{Coord, Extents, inside};
use sg_journal::{Placed, changes, changes_between};
use sg_layout::Kind::{Dense, Dynamic, Hash, Pointer};
use sg_layout::{Kind, Layout, Layouts, NodeShape, Shape, Size, check_layout};
use sg_store::{Store, Stores};
use sg_words::{Items, Ty};
use std::alloc::{AllocError, Global};
use std::test::Fail;

/// A node: its kind, its extents on two axes, 0 for one that it doesn't name, and its cap.
type Node = (Kind, [i32; 2], i32);

/// A coordinate's parts, of which those past the axes are 0.
type Point = [i32; 2];

/// A journal, and the first line that isn't sound, 0 if all are.
type Row = (&'static str, u32);

/// Two containers of four blocks.
static BLOCKS: [Node; 2] = [(Pointer, [4, 0], 2), (Dense, [4, 0], 0)];

/// Rows of chunks in containers.
static CHUNKS: [Node; 2] = [(Pointer, [4, 0], 2), (Dynamic, [0, 8], 3)];

/// Journals over blocks.
static OVER_BLOCKS: [Row; 29] = [
    ("", 1),
    ("end\n", 0),
    ("end", 1),
    ("end\nend\n", 2),
    ("end\n\n", 2),
    ("end\nx", 2),
    ("take 0 1 3 0 0\ntake 0 1 3 0 1\nend\n", 2),
    ("take 0 1 3 0 0\nfree 0 1 3\ntake 0 1 3 0 1\nend\n", 0),
    ("take 0 1 3 0 0\n", 2),
    ("take 0 1 19 0 0\nend\n", 1),
    ("take 0 1 0 0 0\ntake 0 1 1 0 1\ntake 0 1 2 0 2\nend\n", 3),
    // the last place and the last slot
    ("take 0 1 18 0 3\nend\n", 0),
    // no such slot, node, layout, cap or parent
    ("take 0 1 0 0 4\nend\n", 1),
    ("take 0 3 0 0 0\nend\n", 1),
    ("take 0 0 0 0 0\nend\n", 1),
    ("take 1 1 0 0 0\nend\n", 1),
    ("take 0 2 0 0 0\nend\n", 1),
    ("take 0 1 0 1 0\nend\n", 1),
    // a slot that is taken, and one that is free again
    ("take 0 1 0 0 2\ntake 0 1 1 0 2\nend\n", 2),
    ("take 0 1 0 0 2\nfree 0 1 0\ntake 0 1 1 0 2\nend\n", 0),
    // a number that isn't held
    ("free 0 1 0\nend\n", 1),
    ("take 0 1 0 0 0\nfree 0 1 0\nfree 0 1 0\nend\n", 3),
    ("free 7 7 7\nend\n", 1),
    // numbers and spaces
    ("take 0 1 00 0 0\nend\n", 1),
    ("take 0 1 4294967296 0 0\nend\n", 1),
    ("take 0 1 00000000000000000003 0 0\nend\n", 1),
    ("take 0 1 18446744073709551619 0 0\nend\n", 1),
    ("take 0 1 3 0  0\nend\n", 1),
    ("take 0 1 3 0 0 \nend\n", 1),
];

/// Journals over chunks.
static OVER_CHUNKS: [Row; 7] = [
    ("take 0 1 5 0 0\ntake 0 2 0 6 1\nend\n", 0),
    ("take 0 1 5 0 0\ntake 0 2 3 6 1\nend\n", 2),
    ("take 0 1 5 0 0\ntake 0 2 0 6 2\nend\n", 2),
    ("take 0 1 5 0 0\ntake 0 2 0 5 1\nend\n", 2),
    ("take 0 2 0 0 1\nend\n", 1),
    // a parent goes after its children
    ("take 0 1 5 0 0\ntake 0 2 0 6 1\nfree 0 1 5\nend\n", 3),
    (
        "take 0 1 5 0 0\ntake 0 2 0 6 1\nfree 0 2 0\nfree 0 1 5\nend\n",
        0,
    ),
];

/// A chunk of four elements for a dynamic node.
fn chunk_of(kind: Kind) -> i32 {
    match kind {
        Dynamic => 4,
        _ => 0,
    }
}

fn sizes_of(alloc: Global, extents: [i32; 2]) -> Result<Items<Size>, AllocError> {
    let [first, second] = extents;
    let mut sizes = Items::new(alloc);
    if first > 0 {
        sizes.push(Size {
            axis: 1,
            extent: first,
        })?;
    }
    if second > 0 {
        sizes.push(Size {
            axis: 2,
            extent: second,
        })?;
    }
    Ok(sizes)
}

fn nodes_of(alloc: Global, nodes: &[Node]) -> Result<Items<NodeShape>, AllocError> {
    let mut shapes = Items::new(alloc);
    for (kind, extents, cap) in nodes {
        shapes.push(NodeShape {
            kind: *kind,
            sizes: sizes_of(alloc, *extents)?,
            cap: *cap,
            chunk: chunk_of(*kind),
        })?;
    }
    Ok(shapes)
}

/// A layout over two axes with one field.
fn layout_of(alloc: Global, nodes: &[Node]) -> Result<Layout, Fail> {
    let shape = Shape {
        axes: 2,
        nodes: nodes_of(alloc, nodes)?,
        fields: Items::from_slice(alloc, &[Ty::I32])?,
    };
    if !shape.is_declared() {
        return Err(Fail::from("not declared"));
    }
    Ok(check_layout(alloc, &shape)?)
}

fn alone(alloc: Global, layout: Layout) -> Result<Layouts, Fail> {
    let mut list = Items::new(alloc);
    list.push(layout)?;
    Ok(Layouts { list })
}

/// The first line that isn't sound, 0 if all are.
fn first_unsound(alloc: Global, nodes: &[Node], text: &[u8]) -> Result<u32, Fail> {
    let layouts = alone(alloc, layout_of(alloc, nodes)?)?;
    if text.len() > 1 << 24 {
        return Err(Fail::from("many bytes"));
    }
    match audit(alloc, text, &layouts)? {
        Verdict::Yes => Ok(0),
        Verdict::No { line } => Ok(line),
    }
}

#[test]
fn journals_are_audited(rt: HostRuntime) -> Result<(), Fail> {
    for (text, line) in &OVER_BLOCKS {
        let first = first_unsound(rt.alloc(), &BLOCKS, text.as_bytes())?;
        assert_eq!(rt; first, *line);
    }
    for (text, line) in &OVER_CHUNKS {
        let first = first_unsound(rt.alloc(), &CHUNKS, text.as_bytes())?;
        assert_eq!(rt; first, *line);
    }
    Ok(())
}

/// A store that is reached, has a value at some coordinates, is pruned, is reached again, and is cleared; its journal.
#[derive(Clone, Copy)]
struct Turn {
    nodes: &'static [Node],
    reached: &'static [Point],
    valued: &'static [Point],
    then: &'static [Point],
    journal: &'static str,
}

static TURNS: [Turn; 3] = [
    Turn {
        nodes: &[(Pointer, [4, 0], 2), (Dense, [2, 0], 0)],
        reached: &[[0, 0], [2, 0]],
        valued: &[[2, 0]],
        then: &[[6, 0]],
        journal: "take 0 1 0 0 0\ntake 0 1 1 0 1\nfree 0 1 0\ntake 0 1 0 0 3\nfree 0 1 0\nfree 0 1 1\nend\n",
    },
    Turn {
        nodes: &[(Hash, [64, 0], 3)],
        reached: &[[0, 0], [8, 0], [16, 0]],
        valued: &[[8, 0], [16, 0]],
        then: &[[24, 0]],
        journal: "take 0 1 0 0 0\ntake 0 1 1 0 8\ntake 0 1 2 0 16\nfree 0 1 0\ntake 0 1 0 0 24\n\
            free 0 1 0\nfree 0 1 1\nfree 0 1 2\nend\n",
    },
    Turn {
        nodes: &[(Pointer, [4, 0], 2), (Dynamic, [0, 8], 3)],
        reached: &[[0, 0], [1, 0]],
        valued: &[[1, 0]],
        then: &[[3, 5]],
        journal: "take 0 1 0 0 0\ntake 0 1 1 0 1\ntake 0 2 0 1 0\ntake 0 2 1 2 0\nfree 0 2 0\nfree 0 1 0\n\
            take 0 1 0 0 3\ntake 0 2 0 1 0\ntake 0 2 2 1 1\n\
            free 0 2 0\nfree 0 2 1\nfree 0 2 2\nfree 0 1 0\nfree 0 1 1\nend\n",
    },
];

fn coord(point: Point) -> Coord {
    let [a, b] = point;
    Coord { n: 2, a, b, c: 0 }
}

fn coords_of(alloc: Global, points: &[Point]) -> Result<Vec<Coord>, AllocError> {
    let mut coords = Vec::new(alloc);
    for point in points {
        coords.push(coord(*point))?;
    }
    Ok(coords)
}

fn are_inside(extents: &Extents, coords: &[Coord]) -> bool
    ensures { IsTrue result ↔ All (Inside (bounds_of extents.now)) coords.now }
{
    coords.iter().all(|at| inside(extents, *at))
}

fn reach(alloc: Global, store: &mut Store, points: &[Point]) -> Result<(), Fail> {
    let wanted = coords_of(alloc, points)?;
    if !are_inside(&store.layout().extents(), &wanted) {
        return Err(Fail::from("outside"));
    }
    Ok(store.reach(alloc, &wanted)?)
}

/// Gives the field a value at a coordinate, if that is active.
fn put(store: &mut Store, at: Coord) {
    if !store.layout().shape().fields.is_empty() {
        if let Some(cell) = store.cell_of(at) {
            store.set(0, cell, 5);
        }
    }
}

/// The stores of a program with this store alone.
fn stores_of(alloc: Global, store: &Store) -> Result<Stores, Fail> {
    let mut list = Items::new(alloc);
    list.push(store.copy(alloc)?)?;
    Ok(Stores { list })
}

/// Adds what has changed from where numbers stood.
fn push_changes(
    alloc: Global,
    journal: &mut Vec<u8>,
    from: &Placed,
    store: &Store,
) -> Result<(), Fail> {
    let to = Placed::of(alloc, &stores_of(alloc, store)?)?;
    changes_between(alloc, from, &to, journal)?;
    Ok(())
}

/// Adds what comes to stand, from nothing.
fn push_reached(
    alloc: Global,
    journal: &mut Vec<u8>,
    store: &mut Store,
    turn: &Turn,
) -> Result<(), Fail> {
    let layouts = alone(alloc, layout_of(alloc, turn.nodes)?)?;
    let nothing = Placed::nothing(alloc, &layouts)?;
    reach(alloc, store, turn.reached)?;
    push_changes(alloc, journal, &nothing, store)
}

/// Adds what a prune changes, and then what is reached again.
fn push_pruned(
    alloc: Global,
    journal: &mut Vec<u8>,
    store: &mut Store,
    turn: &Turn,
) -> Result<(), Fail> {
    for point in turn.valued {
        put(store, coord(*point));
    }
    let before = stores_of(alloc, store)?;
    store.prune(alloc)?;
    let after = stores_of(alloc, store)?;
    changes(alloc, &before, &after, journal)?;
    let pruned = Placed::of(alloc, &after)?;
    reach(alloc, store, turn.then)?;
    push_changes(alloc, journal, &pruned, store)
}

/// Adds what a clearing changes, and the end.
fn push_cleared(alloc: Global, journal: &mut Vec<u8>, store: &mut Store) -> Result<(), Fail> {
    let last = Placed::of(alloc, &stores_of(alloc, store)?)?;
    store.clear(alloc)?;
    push_changes(alloc, journal, &last, store)?;
    journal.extend_from_slice(b"end\n")?;
    Ok(())
}

fn push_turn(
    alloc: Global,
    journal: &mut Vec<u8>,
    store: &mut Store,
    turn: &Turn,
) -> Result<(), Fail> {
    push_reached(alloc, journal, store, turn)?;
    push_pruned(alloc, journal, store, turn)?;
    push_cleared(alloc, journal, store)
}

fn journal_of(alloc: Global, turn: &Turn) -> Result<Vec<u8>, Fail> {
    let layout = layout_of(alloc, turn.nodes)?;
    if layout.words() > 1 << 22 {
        return Err(Fail::from("many words"));
    }
    let mut journal = Vec::new(alloc);
    match Store::make(alloc, &layout) {
        Ok(mut store) => match push_turn(alloc, &mut journal, &mut store, turn) {
            Ok(()) => Ok(journal),
            Err(fail) => Err(fail),
        },
        Err(memory) => Err(Fail::from(memory)),
    }
}

#[test]
fn stores_have_sound_journals(rt: HostRuntime) -> Result<(), Fail> {
    for turn in &TURNS {
        let journal = journal_of(rt.alloc(), turn)?;
        assert_eq!(rt; journal.as_slice(), turn.journal.as_bytes());
        let line = first_unsound(rt.alloc(), turn.nodes, journal.as_slice())?;
        assert_eq!(rt; line, 0);
    }
    Ok(())
}
