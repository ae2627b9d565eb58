//! Where the containers and chunks of a node stand.

/// A live number of a node with a cap, and where it stands: `parent` is 0 if a slot of the root segment holds it, else one
/// more than the number of the container that does; `slot` is the slot there. For a pointer node it is the row-major number
/// among the container's slots of the node, for a hash node the key, for a chunk the parent slot's number times the chunks that
/// a full parent has, plus its place in the chain.
#[derive(Clone, Copy, Debug, PartialEq, Eq)]
pub struct LinkAt {
    pub number: u32,
    pub parent: u32,
    pub slot: u32,
}
