//! Runs over flat states of layouts of each kind of node.

use crate::fixtures::{Node, Point, at, layout_of};
use sg_flat::{Effects, FlatState, RunFault, Turn, Way, Write};
use sg_layout::Kind::{Bitmasked, Dense, Dynamic, Hash, Pointer};
use sg_layout::{Layout, Layouts};
use sg_words::{Items, Memory, Stop};
use std::alloc::{AllocError, Global};
use std::test::Fail;

/// A layout, points at which 7 is written, and the answer: how many points are active then, and the values at those
/// written, or the fault.
#[derive(Clone, Copy)]
struct Row {
    axes: u32,
    nodes: &'static [Node],
    written: &'static [Point],
    answer: &'static str,
}

static ROWS: [Row; 7] = [
    Row {
        axes: 2,
        nodes: &[(Dense, [4, 2, 0], 0)],
        written: &[[3, 1, 0]],
        answer: "8: 7",
    },
    Row {
        axes: 1,
        nodes: &[(Pointer, [4, 0, 0], 2), (Bitmasked, [4, 0, 0], 0)],
        written: &[[13, 0, 0], [5, 0, 0]],
        answer: "2: 7 7",
    },
    Row {
        axes: 2,
        nodes: &[
            (Hash, [4, 4, 0], 2),
            (Pointer, [2, 2, 0], 3),
            (Dense, [2, 0, 0], 0),
        ],
        written: &[[6, 3, 0], [1, 0, 0]],
        answer: "4: 7 7",
    },
    Row {
        axes: 2,
        nodes: &[(Dense, [2, 4, 0], 0), (Dynamic, [4, 0, 0], 3)],
        written: &[[5, 2, 0], [1, 2, 0], [5, 2, 0]],
        answer: "4: 7 7 7",
    },
    Row {
        axes: 1,
        nodes: &[(Pointer, [4, 0, 0], 2), (Dense, [4, 0, 0], 0)],
        written: &[[0, 0, 0], [4, 0, 0], [8, 0, 0]],
        answer: "full 1 2",
    },
    // of more points than there is time for
    Row {
        axes: 2,
        nodes: &[(Pointer, [8192, 8192, 0], 4), (Dense, [4, 4, 0], 0)],
        written: &[[32767, 32767, 0], [0, 0, 0]],
        answer: "32: 7 7",
    },
    Row {
        axes: 1,
        nodes: &[(Dynamic, [32768, 0, 0], 8192)],
        written: &[[32767, 0, 0]],
        answer: "32768: 7",
    },
];

/// An iteration at a point, which writes 7 there.
fn seven_at(alloc: Global, axes: u32, point: Point) -> Result<Turn, AllocError> {
    let write = Write {
        layout: 0,
        place: 0,
        stmt: 1,
        at: at(axes, point),
        way: Way::Own,
        value: 7,
    };
    Ok(Turn {
        at: at(axes, point),
        writes: Items::from_slice(alloc, &[write])?,
    })
}

fn sevens(alloc: Global, axes: u32, points: &[Point]) -> Result<Effects, AllocError> {
    let mut turns = Items::new(alloc);
    for point in points {
        turns.push(seven_at(alloc, axes, *point)?)?;
    }
    Ok(Effects { turns })
}

fn alone(alloc: Global, layout: Layout) -> Result<Layouts, AllocError> {
    let mut list = Items::new(alloc);
    list.push(layout)?;
    Ok(Layouts { list })
}

/// How many points are active, and the values of the first field at these.
fn state_told(
    alloc: Global,
    layouts: &Layouts,
    state: &FlatState,
    row: &Row,
) -> Result<String, Fail> {
    let Some(layout) = state.layouts.get(0) else {
        return Err(Fail::from("no layout"));
    };
    let count = layout.active.len();
    let mut told = format!(in alloc; "{count}:")?;
    for point in row.written {
        let value = state.value(layouts, 0, 0, at(row.axes, *point));
        write!(told, " {value}")?;
    }
    Ok(told)
}

/// What a run of the effects from the opening state answers.
fn run_told(
    alloc: Global,
    layouts: &Layouts,
    effects: &Effects,
    row: &Row,
) -> Result<String, Fail> {
    match FlatState::open(alloc, layouts) {
        Ok(mut state) => match state.apply(alloc, layouts, effects) {
            Ok(()) => state_told(alloc, layouts, &state, row),
            Err(Stop::Refused(RunFault::PoolFull { node, cap, .. })) => {
                Ok(format!(in alloc; "full {node} {cap}")?)
            }
            Err(Stop::Refused(_)) => Err(Fail::from("outside")),
            Err(Stop::Memory) => Err(Fail::from(Memory)),
        },
        Err(memory) => Err(Fail::from(memory)),
    }
}

fn told(alloc: Global, row: &Row) -> Result<String, Fail> {
    let layouts = alone(alloc, layout_of(alloc, row.axes, row.nodes)?)?;
    let effects = sevens(alloc, row.axes, row.written)?;
    run_told(alloc, &layouts, &effects, row)
}

#[test]
fn runs_change_flat_states(rt: HostRuntime) -> Result<(), Fail> {
    for row in &ROWS {
        let told = told(rt.alloc(), row)?;
        assert_eq!(rt; told.as_str(), row.answer);
    }
    Ok(())
}
