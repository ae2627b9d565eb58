//! What a walk down the nodes needs of each.
use sg_layout::Kind;

/// A node of the layout through which a walk leads: its kind, how many slots it has under a place, which part of the
/// table it is, and the number there of its first slot or bit.
#[derive(Clone, Copy)]
pub struct Level {
    pub kind: Kind,
    pub size: u64,
    pub part: u64,
    pub first: u64,
}
