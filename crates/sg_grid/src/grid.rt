use sg_coord::Coord;
use sg_words::Items;

/// The most bytes of a grid text that is read.
pub const MOST_GRID_BYTES: usize = 1 << 24;

/// The most rows of a grid text that is read.
pub const MOST_GRID_ROWS: u64 = 1 << 20;

/// A version of grid texts. In the first a line is a row, in the second a run of rows.
#[derive(Clone, Copy)]
pub enum Version {
    One,
    Two,
}

/// A coordinate and the word of a field there.
#[derive(Clone, Copy, Debug, PartialEq, Eq)]
pub struct GridRow {
    pub at: Coord,
    pub word: u32,
}

/// So many rows with the same word: at a coordinate, and at those after it along the last axis. `len` is at least 1.
#[derive(Clone, Copy, Debug, PartialEq, Eq)]
pub struct GridRun {
    pub at: Coord,
    pub len: u32,
    pub word: u32,
}

/// Where a line starts: its number, how many rows come before it, and the coordinate of the last of them.
#[derive(Clone, Copy)]
pub struct LineStart {
    pub line: u32,
    pub rows: u32,
    pub last: Option<Coord>,
}

/// The runs of a grid text, one for each line, whose rows rise strictly in row order.
#[derive(Debug, Drop)]
pub struct Grid {
    pub runs: Items<GridRun>,
}

/// The first fault of a text that is no grid text. Lines are counted from 1.
#[derive(Clone, Copy, Debug, PartialEq, Eq)]
pub enum GridFault {
    /// The line isn't there or out of form, it has a number outside its type, or bytes stand after the last line.
    BadText { line: u32 },
    /// A row of the line isn't inside the extents.
    Outside { line: u32 },
    /// The first row of the line doesn't come after the last one of the line before.
    NotRising { line: u32 },
    /// More than 2^24 bytes.
    TooManyBytes,
    /// The first line announces more than 2^20 lines, or there are more than 2^20 rows.
    TooManyRows,
}
