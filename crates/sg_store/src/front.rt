//! The first cells, with all reached ones among them: those below the high water marks of the pools.

ghost use Rattle.std.specs.Prelude.{◌≡◌, ◌<◌, ◌≤◌, ℕ};
ghost use Rattle.sg_store.specs.WellFormed.{cell_count, IsReached};
ghost use Rattle.sg_store.specs.steps.Marks.{marked_below};

use crate::node::{NodeWords, chunk_of};
use crate::store::Store;
use sg_layout::{Kind, NodeShape};

impl Store {
    /// How many cells there are up to the last that may be reached.
    pub(crate) fn cells_in_use(&self) -> usize
        ensures few { result ≤ cell_count self.now.shape }
        ensures all { (cell : ℕ) → IsReached self.now cell → cell < result }
    {
        let nodes = self.layout.shape().nodes.as_slice();
        let words = self.nodes.as_slice();
        let mut places = 1;
        for index in 0..words.len() {
            let node = &nodes[index];
            let kept = &words[index];
            let slots = places * self.layout.size(index) as usize;
            places = marked_below(node, kept, slots);
        }
        places
    }
}

/// How many places there are below so many slots of a node, up to the last that may be live.
pub(crate) fn marked_below(node: &NodeShape, kept: &NodeWords, slots: usize) -> usize
    ensures { result ≡ marked_below node.now.kind node.now kept.now slots }
{
    match node.kind {
        Kind::Dense | Kind::Bitmasked => slots,
        Kind::Pointer | Kind::Hash => kept.pool.mark() as usize,
        Kind::Dynamic => kept.pool.mark() as usize * chunk_of(node) as usize,
    }
}
