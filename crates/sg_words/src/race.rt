//! What a worker of a race knows. No value of it is ever made: it is the view that a seat of a racing table has in proofs.
use std::collections::LinkedList;

/// A worker of the race machine. A pair in `spare`, `left` and `past` is a node and a ticket, in `made` a slot and a ticket, in `seen` a
/// slot and its number, in `keys` a place and its key, in `raised` a length and an index, in `given` a cell and a contribution.
pub struct Worker {
    pub told: LinkedList<u64>,
    pub size: u64,
    pub share: u64,
    pub back: u64,
    pub spare: LinkedList<(u64, u64)>,
    pub left: LinkedList<(u64, u64)>,
    pub past: LinkedList<(u64, u64)>,
    pub seen: LinkedList<(u64, u64)>,
    pub missed: LinkedList<u64>,
    pub made: LinkedList<(u64, u64)>,
    pub keys: LinkedList<(u64, u64)>,
    pub put: LinkedList<u64>,
    pub marked: LinkedList<u64>,
    pub raised: LinkedList<(u64, u64)>,
    pub given: LinkedList<(u64, u64)>,
}
