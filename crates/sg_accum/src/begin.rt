//! What a part of a pass starts with.
use sg_words::{AccOp, Items, Ty};

/// The values of the cells at the start, and how contributions go into them: the operator, and the type in whose order it chooses.
#[derive(Drop)]
pub struct Start {
    pub values: Items<u32>,
    pub op: AccOp,
    pub ty: Ty,
}
