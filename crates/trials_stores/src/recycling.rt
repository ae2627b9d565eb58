//! Containers and chunks that stay through a prune, and those that are taken again.

ghost use Rattle.std.specs.Prelude.{◌≤◌, IsTrue};
ghost use Rattle.sg_layout.specs.Live.{kind_at};
ghost use Rattle.sg_store.specs.WellFormed.{kind_has_cap};

use crate::fixtures::{Node, Point, at, coords_of, put, reach, store_of, value_at};
use sg_layout::Kind::{Bitmasked, Dense, Dynamic, Hash, Pointer};
use sg_store::Store;
use std::alloc::Global;
use std::test::Fail;

/// A store that is reached, has a value at some coordinates, is pruned, and is reached again. What is told: the links of the nodes with a
/// cap, as number, parent and slot, after each of these three; and the values at the end.
#[derive(Clone, Copy)]
struct Turn {
    axes: u32,
    nodes: &'static [Node],
    reached: &'static [Point],
    valued: &'static [Point],
    then: &'static [Point],
    told: &'static str,
}

static TURNS: [Turn; 7] = [
    // what stays has its number, and what came back is taken first
    Turn {
        axes: 1,
        nodes: &[(Pointer, [4, 0, 0], 2), (Dense, [2, 0, 0], 0)],
        reached: &[[0, 0, 0], [2, 0, 0]],
        valued: &[[2, 0, 0]],
        then: &[[6, 0, 0]],
        told: "0 0 0, 1 0 1, | 1 0 1, | 0 0 3, 1 0 1, | 5 ",
    },
    Turn {
        axes: 1,
        nodes: &[(Hash, [4, 0, 0], 2), (Dense, [2, 0, 0], 0)],
        reached: &[[0, 0, 0], [2, 0, 0]],
        valued: &[[2, 0, 0]],
        then: &[[6, 0, 0]],
        told: "0 0 0, 1 0 1, | 1 0 1, | 0 0 3, 1 0 1, | 5 ",
    },
    // keys that all begin at the first place of a table, of which the first goes
    Turn {
        axes: 1,
        nodes: &[(Hash, [64, 0, 0], 3)],
        reached: &[[0, 0, 0], [5, 0, 0], [13, 0, 0]],
        valued: &[[5, 0, 0], [13, 0, 0]],
        then: &[[18, 0, 0]],
        told: "0 0 0, 1 0 5, 2 0 13, | 1 0 5, 2 0 13, | 0 0 18, 1 0 5, 2 0 13, | 5 5 ",
    },
    // two lists, of which one becomes empty
    Turn {
        axes: 2,
        nodes: &[(Dense, [2, 0, 0], 0), (Dynamic, [0, 8, 0], 4)],
        reached: &[[0, 0, 0], [1, 3, 0]],
        valued: &[[1, 1, 0]],
        then: &[[0, 3, 0]],
        told: "0 0 0, 1 0 2, | 1 0 2, | 0 0 0, 1 0 2, | 5 ",
    },
    // a list loses its end, and a shorter one grows by it
    Turn {
        axes: 2,
        nodes: &[(Dense, [2, 0, 0], 0), (Dynamic, [0, 16, 0], 4)],
        reached: &[[0, 7, 0], [1, 3, 0]],
        valued: &[[0, 2, 0], [1, 0, 0]],
        then: &[[1, 11, 0]],
        told: "0 0 0, 1 0 1, 2 0 4, | 0 0 0, 2 0 4, | 0 0 0, 1 0 5, 2 0 4, 3 0 6, | 5 5 ",
    },
    // lists and bits in containers, all of which go but the last one
    Turn {
        axes: 2,
        nodes: &[(Pointer, [4, 0, 0], 2), (Dynamic, [0, 8, 0], 3)],
        reached: &[[0, 0, 0], [1, 0, 0]],
        valued: &[[1, 0, 0]],
        then: &[[3, 5, 0]],
        told: "0 0 0, 1 0 1, 0 1 0, 1 2 0, | 1 0 1, 1 2 0, | 0 0 3, 1 0 1, 0 1 0, 1 2 0, 2 1 1, | 5 ",
    },
    Turn {
        axes: 1,
        nodes: &[
            (Hash, [64, 0, 0], 2),
            (Pointer, [4, 0, 0], 2),
            (Bitmasked, [4, 0, 0], 0),
        ],
        reached: &[[5, 0, 0], [1000, 0, 0]],
        valued: &[[1000, 0, 0]],
        then: &[[31, 0, 0]],
        told: "0 0 0, 1 0 62, 0 1 1, 1 2 2, | 1 0 62, 1 2 2, | 0 0 1, 1 0 62, 0 1 3, 1 2 2, | 5 ",
    },
];

/// Adds the links of a node with a cap, numbered from 1.
fn push_links(alloc: Global, told: &mut String, store: &Store, node: u32) -> Result<(), Fail>
    requires first { 1 ≤ node }
    requires capped { IsTrue (kind_has_cap (kind_at store.now.shape.nodes node)) }
{
    let links = store.links_of(alloc, node)?;
    for link in &links {
        let (number, parent, slot) = (link.number, link.parent, link.slot);
        write!(told, "{number} {parent} {slot}, ")?;
    }
    Ok(())
}

/// The same of any node, where it has a cap.
fn push_node(alloc: Global, told: &mut String, store: &Store, node: u32) -> Result<(), Fail> {
    let Some(index) = node.checked_sub(1) else {
        return Err(Fail::from("no node"));
    };
    let Some(shape) = store.layout().shape().nodes.as_slice().get(index as usize) else {
        return Err(Fail::from("no node"));
    };
    match shape.kind {
        Pointer => push_links(alloc, told, store, node),
        Hash => push_links(alloc, told, store, node),
        Dynamic => push_links(alloc, told, store, node),
        _ => Ok(()),
    }
}

fn push_all(alloc: Global, told: &mut String, store: &Store) -> Result<(), Fail> {
    for index in 0..store.layout().nodes() {
        push_node(alloc, told, store, (index as u32).saturating_add(1))?;
    }
    told.push_str("| ")?;
    Ok(())
}

/// Reaches coordinates, and adds the links after it.
fn push_reached(
    alloc: Global,
    told: &mut String,
    store: &mut Store,
    axes: u32,
    points: &[Point],
) -> Result<(), Fail> {
    let wanted = coords_of(alloc, axes, points)?;
    reach(alloc, store, &wanted)?;
    push_all(alloc, told, store)
}

fn push_pruned(alloc: Global, told: &mut String, store: &mut Store) -> Result<(), Fail> {
    store.prune(alloc)?;
    push_all(alloc, told, store)
}

fn push_turn(alloc: Global, told: &mut String, store: &mut Store, turn: &Turn) -> Result<(), Fail> {
    push_reached(alloc, told, store, turn.axes, turn.reached)?;
    for point in turn.valued {
        put(store, 0, at(turn.axes, *point), 5);
    }
    push_pruned(alloc, told, store)?;
    push_reached(alloc, told, store, turn.axes, turn.then)?;
    for point in turn.valued {
        let value = value_at(store, 0, at(turn.axes, *point));
        write!(told, "{value} ")?;
    }
    Ok(())
}

fn told(alloc: Global, turn: &Turn) -> Result<String, Fail> {
    let mut told = String::new(alloc);
    match store_of(alloc, turn.axes, turn.nodes) {
        Ok(mut store) => match push_turn(alloc, &mut told, &mut store, turn) {
            Ok(()) => Ok(told),
            Err(fail) => Err(fail),
        },
        Err(fail) => Err(fail),
    }
}

#[test]
fn containers_stay_and_come_back(rt: HostRuntime) -> Result<(), Fail> {
    for turn in &TURNS {
        let told = told(rt.alloc(), turn)?;
        assert_eq!(rt; told.as_str(), turn.told);
    }
    Ok(())
}
