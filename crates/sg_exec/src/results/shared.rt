use sg_accum::AccPass;
use sg_words::{AccOp, Ty};

/// An accumulated field of a layout, both from 0, with its operator, its type and the pass into its cells.
#[derive(Drop)]
pub struct Accumulated {
    pub layout: u32,
    pub field: u32,
    pub op: AccOp,
    pub ty: Ty,
    pub pass: AccPass,
}

/// A contribution that isn't given yet: those to the same cell that follow it are joined to it first.
#[derive(Clone, Copy)]
pub struct Pending {
    pub cell: u32,
    pub word: u32,
}

/// An own-written field of a layout, both from 0.
#[derive(Clone, Copy)]
pub struct Owned {
    pub layout: u32,
    pub field: u32,
}
