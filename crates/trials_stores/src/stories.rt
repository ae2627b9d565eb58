//! Stores of all kinds of node, reached, given values, pruned and cleared.

use crate::fixtures::{Node, Point, are_inside, at, coords_of, put, store_of, value_at};
use crate::words::push_words;
use sg_coord::Coord;
use sg_elements::elements;
use sg_layout::Kind::{Bitmasked, Dense, Dynamic, Hash, Pointer};
use sg_store::Store;
use sg_words::{Memory, Stop};
use std::alloc::Global;
use std::test::Fail;

/// A store that is reached step by step and then has a value in each of its first two fields, at two coordinates. What is
/// told: of each step how many coordinates are active after it; the words of the nodes; and how many coordinates are
/// active with the sum of the values, as they stand, after a prune, after another once the first value has gone, and
/// after a clear.
#[derive(Clone, Copy)]
struct Story {
    axes: u32,
    nodes: &'static [Node],
    steps: &'static [&'static [Point]],
    valued: [Point; 2],
    told: &'static str,
}

static STORIES: [Story; 13] = [
    Story {
        axes: 2,
        nodes: &[(Dense, [4, 2, 0], 0)],
        steps: &[&[[3, 1, 0]]],
        valued: [[3, 1, 0], [0, 0, 0]],
        told: "8 | | 8 12 8 12 8 7 8 0 ",
    },
    // a full pool changes nothing
    Story {
        axes: 1,
        nodes: &[(Pointer, [4, 0, 0], 2), (Dense, [4, 0, 0], 0)],
        steps: &[
            &[[5, 0, 0]],
            &[[6, 0, 0], [15, 0, 0]],
            &[[4, 0, 0], [0, 0, 0]],
        ],
        valued: [[5, 0, 0], [15, 0, 0]],
        told: "4 8 full 1 2: 8 | 2/4 17 | 8 12 8 12 4 7 0 0 ",
    },
    Story {
        axes: 1,
        nodes: &[(Pointer, [4, 0, 0], 2), (Bitmasked, [4, 0, 0], 0)],
        steps: &[&[], &[[5, 0, 0]], &[[7, 0, 0], [5, 0, 0], [7, 0, 0]]],
        valued: [[5, 0, 0], [7, 0, 0]],
        told: "0 1 2 | 1/4 18 2 of 2 | 2 12 2 12 1 7 0 0 ",
    },
    Story {
        axes: 1,
        nodes: &[(Pointer, [8, 0, 0], 3)],
        steps: &[
            &[[7, 0, 0], [0, 0, 0], [3, 0, 0]],
            &[[7, 0, 0], [1, 0, 0]],
            &[[3, 0, 0]],
        ],
        valued: [[0, 0, 0], [7, 0, 0]],
        told: "3 full 1 3: 3 3 | 3/8 17 | 3 12 2 12 1 7 0 0 ",
    },
    // the first node that is too full is named
    Story {
        axes: 1,
        nodes: &[(Pointer, [4, 0, 0], 3), (Pointer, [4, 0, 0], 2)],
        steps: &[
            &[[0, 0, 0], [1, 0, 0], [2, 0, 0]],
            &[[0, 0, 0], [4, 0, 0], [8, 0, 0], [12, 0, 0]],
            &[[0, 0, 0], [15, 0, 0]],
        ],
        valued: [[0, 0, 0], [15, 0, 0]],
        told: "full 2 2: 0 full 1 3: 0 2 | 2/4 18 2/80 17 | 2 12 2 12 1 7 0 0 ",
    },
    Story {
        axes: 1,
        nodes: &[(Hash, [4, 0, 0], 2), (Dense, [4, 0, 0], 0)],
        steps: &[
            &[[5, 0, 0]],
            &[[6, 0, 0], [15, 0, 0]],
            &[[4, 0, 0], [0, 0, 0]],
        ],
        valued: [[5, 0, 0], [15, 0, 0]],
        told: "4 8 full 1 2: 8 | 2/4 1 3 2/4 17 | 8 12 8 12 4 7 0 0 ",
    },
    // keys after others
    Story {
        axes: 2,
        nodes: &[
            (Hash, [8, 8, 0], 5),
            (Pointer, [2, 2, 0], 4),
            (Bitmasked, [2, 2, 0], 0),
        ],
        steps: &[
            &[[31, 31, 0], [31, 27, 0], [29, 31, 0]],
            &[[0, 31, 0]],
            &[[31, 0, 0], [31, 4, 0]],
            &[[0, 0, 0], [31, 31, 0]],
        ],
        valued: [[31, 31, 0], [0, 31, 0]],
        told: "3 4 full 2 4: 4 full 2 4: 4 | 3/16 7 62 63 3/16 19 4/88 17 4 of 2 | 4 12 2 12 1 7 0 0 ",
    },
    Story {
        axes: 1,
        nodes: &[
            (Hash, [64, 0, 0], 3),
            (Pointer, [4, 0, 0], 8),
            (Bitmasked, [4, 0, 0], 0),
        ],
        steps: &[&[[1, 0, 0], [1003, 0, 0], [7, 0, 0]]],
        valued: [[1, 0, 0], [1003, 0, 0]],
        told: "3 | 2/8 0 62 2/8 18 3/80 22 3 of 2 | 3 12 2 12 1 7 0 0 ",
    },
    // more points than there is time for
    Story {
        axes: 2,
        nodes: &[(Hash, [32768, 32768, 0], 256)],
        steps: &[&[[32767, 0, 0], [0, 32767, 0], [1, 1, 0]]],
        valued: [[32767, 0, 0], [1, 1, 0]],
        told: "3 | 3/512 32767 32769 1073709056 3/512 270 | 3 12 2 12 1 7 0 0 ",
    },
    Story {
        axes: 1,
        nodes: &[(Dynamic, [8, 0, 0], 2)],
        steps: &[&[[4, 0, 0]], &[[2, 0, 0]], &[[7, 0, 0]]],
        valued: [[4, 0, 0], [2, 0, 0]],
        told: "5 5 8 | 8 in 1 | 8 12 5 12 3 7 0 0 ",
    },
    Story {
        axes: 2,
        nodes: &[(Pointer, [4, 0, 0], 2), (Dynamic, [0, 8, 0], 3)],
        steps: &[
            &[[1, 2, 0]],
            &[[1, 5, 0]],
            &[[2, 4, 0]],
            &[[2, 3, 0], [1, 0, 0]],
        ],
        valued: [[1, 5, 0], [2, 0, 0]],
        told: "3 6 full 2 3: 6 10 | 2/4 17 6 in 19 | 10 12 7 12 1 7 0 0 ",
    },
    // two words of bits with a link under each
    Story {
        axes: 2,
        nodes: &[(Bitmasked, [16, 8, 0], 0), (Pointer, [0, 2, 0], 20)],
        steps: &[&[[15, 15, 0], [8, 0, 0], [7, 15, 0], [0, 1, 0]]],
        valued: [[15, 15, 0], [8, 0, 0]],
        told: "4 | 4 of 2 4/256 33 | 4 12 2 12 1 7 0 0 ",
    },
    // three axes over four nodes
    Story {
        axes: 3,
        nodes: &[
            (Bitmasked, [2, 0, 2], 0),
            (Pointer, [2, 4, 0], 3),
            (Dense, [0, 2, 2], 0),
            (Pointer, [2, 0, 0], 9),
        ],
        steps: &[
            &[[0, 0, 0], [7, 7, 3], [1, 0, 0]],
            &[[0, 1, 1], [4, 7, 0], [6, 6, 3]],
            &[[0, 7, 0], [7, 6, 2]],
        ],
        valued: [[0, 0, 0], [7, 7, 3]],
        told: "3 6 full 2 3: 6 | 3 of 1 3/32 17 6/160 20 | 6 12 2 12 1 7 0 0 ",
    },
];

/// Adds what reaching coordinates answers, and how many are active afterwards.
fn push_step(
    alloc: Global,
    told: &mut String,
    store: &mut Store,
    wanted: &[Coord],
) -> Result<(), Fail> {
    if !are_inside(&store.layout().extents(), wanted) {
        return Err(Fail::from("outside"));
    }
    match store.reach(alloc, wanted) {
        Ok(()) => {}
        Err(Stop::Refused(full)) => write!(told, "full {} {}: ", full.node, full.cap)?,
        Err(Stop::Memory) => return Err(Fail::from(Memory)),
    }
    let count = elements(alloc, store)?.len();
    write!(told, "{count} ")?;
    Ok(())
}

fn push_steps(
    alloc: Global,
    told: &mut String,
    store: &mut Store,
    story: &Story,
) -> Result<(), Fail> {
    for step in story.steps {
        let wanted = coords_of(alloc, story.axes, *step)?;
        push_step(alloc, told, store, &wanted)?;
    }
    Ok(())
}

/// Adds how many coordinates are active, and the sum of the values there in the first two fields.
fn push_held(alloc: Global, told: &mut String, store: &Store) -> Result<(), Fail> {
    let active = elements(alloc, store)?;
    let mut sum = 0u32;
    for at in active.as_slice() {
        sum = sum
            .saturating_add(value_at(store, 0, *at))
            .saturating_add(value_at(store, 1, *at));
    }
    let count = active.len();
    write!(told, "{count} {sum} ")?;
    Ok(())
}

fn push_pruned(alloc: Global, told: &mut String, store: &mut Store) -> Result<(), Fail> {
    store.prune(alloc)?;
    push_held(alloc, told, store)
}

fn push_cleared(alloc: Global, told: &mut String, store: &mut Store) -> Result<(), Fail> {
    store.clear(alloc)?;
    push_held(alloc, told, store)
}

/// Adds what is held with both values, and after each prune and the clear.
fn push_values(
    alloc: Global,
    told: &mut String,
    store: &mut Store,
    story: &Story,
) -> Result<(), Fail> {
    let [first, second] = story.valued;
    put(store, 0, at(story.axes, first), 5);
    put(store, 1, at(story.axes, second), 7);
    push_held(alloc, told, store)?;
    push_pruned(alloc, told, store)?;
    put(store, 0, at(story.axes, first), 0);
    push_pruned(alloc, told, store)?;
    push_cleared(alloc, told, store)
}

fn push_story(
    alloc: Global,
    told: &mut String,
    store: &mut Store,
    story: &Story,
) -> Result<(), Fail> {
    push_steps(alloc, told, store, story)?;
    told.push_str("| ")?;
    push_words(alloc, told, store)?;
    told.push_str("| ")?;
    push_values(alloc, told, store, story)
}

fn told(alloc: Global, story: &Story) -> Result<String, Fail> {
    let mut told = String::new(alloc);
    match store_of(alloc, story.axes, story.nodes) {
        Ok(mut store) => match push_story(alloc, &mut told, &mut store, story) {
            Ok(()) => Ok(told),
            Err(fail) => Err(fail),
        },
        Err(fail) => Err(fail),
    }
}

#[test]
fn stores_are_reached_pruned_and_cleared(rt: HostRuntime) -> Result<(), Fail> {
    for story in &STORIES {
        let told = told(rt.alloc(), story)?;
        assert_eq!(rt; told.as_str(), story.told);
    }
    Ok(())
}
