use sg_coord::Coord;
use sg_words::{AccOp, Items};

/// The points that a kernel's loop visits: the active coordinates of a layout, or the box from `lo` up to below `hi`,
/// which have the same number of axes.
#[derive(Clone, Copy, Debug, PartialEq, Eq)]
pub enum Domain {
    Walk { layout: u32 },
    Range { lo: Coord, hi: Coord },
}

/// How a write changes its cell: it puts its value there, or joins it to what is there.
#[derive(Clone, Copy, Debug, PartialEq, Eq)]
pub enum Way {
    Own,
    Acc(AccOp),
}

/// A write of one iteration: to a field, named by its layout and its place there (both from 0), by a statement, at a
/// coordinate.
#[derive(Clone, Copy, Debug, PartialEq, Eq)]
pub struct Write {
    pub layout: u32,
    pub place: u32,
    pub stmt: u32,
    pub at: Coord,
    pub way: Way,
    pub value: u32,
}

/// One iteration: its coordinate, and its writes in order of execution.
#[derive(Debug, Drop)]
pub struct Turn {
    pub at: Coord,
    pub writes: Items<Write>,
}

/// The effects of iterations, in the order in which they run; a kernel makes them in row order of their coordinates.
#[derive(Debug, Drop)]
pub struct Effects {
    pub turns: Items<Turn>,
}

/// Why a kernel run is refused: a write outside the extents, by a statement in the iteration at `at`, or a node (from 1)
/// of a layout (from 0) whose need passes its cap.
#[derive(Clone, Copy, Debug, PartialEq, Eq)]
pub enum RunFault {
    WriteOutside { stmt: u32, at: Coord },
    PoolFull { layout: u32, node: u32, cap: u32 },
}
