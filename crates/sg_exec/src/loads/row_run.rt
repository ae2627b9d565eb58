use sg_coord::Coord;

/// Rows that get the same word: the one at a coordinate, and those after it along the last axis; so many in all.
#[derive(Clone, Copy, Debug, PartialEq, Eq)]
pub struct RowRun {
    pub at: Coord,
    pub len: u32,
    pub word: u32,
}
