//! Lists of active points that are many in their box, which are ordered by marks, and few, which are sorted.

use crate::fixtures::{Node, reach, store_of};
use sg_coord::{Coord, Extents, coord_at};
use sg_elements::{elements, elements_by_workers};
use sg_layout::Kind::{Bitmasked, Hash, Pointer};
use sg_store::Store;
use std::alloc::{AllocError, Global};
use std::test::Fail;
use std::thread::Threads;

/// The nodes of a layout over so many axes, in which each point has a slot of its own; every which number a weighed sum of its parts
/// is a multiple of where a point is active; and how many are.
#[derive(Clone, Copy)]
struct Row {
    axes: u32,
    nodes: &'static [Node],
    every: i32,
    count: usize,
}

/// 35 by 33 points.
const PLANE: [Node; 2] = [(Pointer, [5, 3, 0], 15), (Bitmasked, [7, 11, 0], 0)];

/// 9 by 2 by 35 points.
const SPACE: [Node; 2] = [(Hash, [3, 2, 5], 30), (Pointer, [3, 0, 7], 630)];

/// 150 by 150 points, of which workers list parts.
const LARGE: [Node; 2] = [(Pointer, [3, 3, 0], 9), (Bitmasked, [50, 50, 0], 0)];

static ROWS: [Row; 11] = [
    Row {
        axes: 2,
        nodes: &PLANE,
        every: 1,
        count: 1155,
    },
    Row {
        axes: 2,
        nodes: &PLANE,
        every: 3,
        count: 385,
    },
    // one in 64 of them, and fewer
    Row {
        axes: 2,
        nodes: &PLANE,
        every: 64,
        count: 18,
    },
    Row {
        axes: 2,
        nodes: &PLANE,
        every: 70,
        count: 17,
    },
    Row {
        axes: 2,
        nodes: &PLANE,
        every: 113,
        count: 11,
    },
    Row {
        axes: 3,
        nodes: &SPACE,
        every: 2,
        count: 315,
    },
    Row {
        axes: 3,
        nodes: &SPACE,
        every: 97,
        count: 9,
    },
    Row {
        axes: 2,
        nodes: &LARGE,
        every: 3,
        count: 7500,
    },
    Row {
        axes: 2,
        nodes: &LARGE,
        every: 40,
        count: 562,
    },
    Row {
        axes: 2,
        nodes: &LARGE,
        every: 997,
        count: 24,
    },
    // words of bits that are full, and one bit of another
    Row {
        axes: 1,
        nodes: &[(Pointer, [65, 0, 0], 65)],
        every: 1,
        count: 65,
    },
];

fn is_active(at: Coord, every: i32) -> bool {
    let sum = at
        .a
        .wrapping_mul(31)
        .wrapping_add(at.b.wrapping_mul(17))
        .wrapping_add(at.c.wrapping_mul(7));
    matches!(sum.checked_rem(every), Some(0))
}

/// The active points by their row numbers.
fn in_rows(alloc: Global, extents: &Extents, every: i32) -> Result<Vec<Coord>, AllocError> {
    let mut coords = Vec::new(alloc);
    for row in 0..extents.volume() {
        let at = coord_at(extents, row);
        if is_active(at, every) {
            coords.push(at)?;
        }
    }
    Ok(coords)
}

/// Whether these are the points that are active, in their order, as one worker lists them and as four do.
fn are_listed<R: Threads + Sync>(
    rt: &R,
    alloc: Global,
    store: &Store,
    points: &[Coord],
) -> Result<bool, Fail> {
    let list = elements(alloc, store)?;
    let by_workers = elements_by_workers(rt, alloc, store, 4)?;
    Ok(list.as_slice() == points && by_workers.as_slice() == points)
}

/// Activates the points of a row of the table. Whether they are as many as it says, and listed in the order of their row numbers.
fn is_in_order<R: Threads + Sync>(
    rt: &R,
    alloc: Global,
    store: &mut Store,
    row: &Row,
) -> Result<bool, Fail> {
    let points = in_rows(alloc, &store.layout().extents(), row.every)?;
    reach(alloc, store, &points)?;
    Ok(points.len() == row.count && are_listed(rt, alloc, store, &points)?)
}

fn is_listed<R: Threads + Sync>(rt: &R, alloc: Global, row: &Row) -> Result<bool, Fail> {
    match store_of(alloc, row.axes, row.nodes) {
        Ok(mut store) => is_in_order(rt, alloc, &mut store, row),
        Err(fail) => Err(fail),
    }
}

#[test]
fn active_points_are_listed_in_order(rt: HostRuntime) -> Result<(), Fail> {
    for row in &ROWS {
        let listed = is_listed(&rt, rt.alloc(), row)?;
        assert!(rt; listed);
    }
    Ok(())
}
