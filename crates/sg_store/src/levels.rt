//! Laws of stores whose nodes are opened one after the other. The function does nothing: what it ensures are the laws.
ghost use Rattle.sg_store.specs.StoreWords.{StoreWords};
ghost use Rattle.sg_store.specs.OpeningLaws.{StandsOpen, DenseOpens, FullIsFirst, KeysFillFirst, LengthsFillFirst, HashIsFirst, DynamicIsLast, OpenHasRoom, OpenStands};

use sg_coord::{Extents, numbering};
use sg_layout::laws as layouts;

// Any extents: the laws of coordinates are of all bounds.
const ONE_POINT: Extents = Extents {
    n: 1,
    a: 1,
    b: 1,
    c: 1,
};

/// How a store is opened for wanted coordinates, from the root on, and what it stands for in the end.
pub fn opening_by_nodes()
    ensures begins { (store : StoreWords) → StandsOpen store }
    ensures dense { (store : StoreWords) → DenseOpens store }
    ensures full { (store : StoreWords) → FullIsFirst store }
    ensures keys { (store : StoreWords) → KeysFillFirst store }
    ensures lengths { (store : StoreWords) → LengthsFillFirst store }
    ensures hash_first { (store : StoreWords) → HashIsFirst store }
    ensures dynamic_last { (store : StoreWords) → DynamicIsLast store }
    ensures room { (store : StoreWords) → OpenHasRoom store }
    ensures ends { (store now : StoreWords) → OpenStands store now }
{
    // for the laws that they ensure
    numbering(&ONE_POINT);
    layouts::rules_decide();
    layouts::paths_tell();
    layouts::need_counts_live();
    layouts::live_absorbs();
    layouts::closure_members();
    layouts::closure_closes();
    layouts::last_sparse_decides();
}
