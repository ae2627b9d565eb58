use sg_flat::Way;

/// What an iteration wrote: a layout, a field of it, the cell, none if the coordinate isn't active, and how the value lands there. All
/// numbers are from 0.
#[derive(Clone, Copy)]
pub struct CellWrite {
    pub layout: u32,
    pub place: u32,
    pub cell: Option<u32>,
    pub way: Way,
    pub value: u32,
}
