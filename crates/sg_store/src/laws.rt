//! Laws of stores. Each function does nothing: what it ensures is the law, for whoever reasons about stores.
ghost use Rattle.sg_store.specs.StoreWords.{StoreWords};
ghost use Rattle.sg_store.specs.LinkLaws.{CellsKeepLinks, GrownAreKept, ShrunkAreKept, LinksAreSound};
ghost use Rattle.sg_store.specs.StoreLaws.{StandsForOne, CellsAreActive, CellsDiffer, LiveIsNeed, StandsHasRoom, SameValues};

use sg_coord::{Extents, numbering};
use sg_layout::laws as layouts;

// Any extents: the laws of coordinates are of all bounds.
const ONE_POINT: Extents = Extents {
    n: 1,
    a: 1,
    b: 1,
    c: 1,
};

/// A store stands for at most one flat layout.
pub fn stands_for_one()
    ensures { (store : StoreWords) → StandsForOne store }
{
    // for the laws that they ensure
    numbering(&ONE_POINT);
    layouts::closure_members();
    layouts::paths_tell();
    layouts::last_sparse_decides();
}

/// The cells of a store that stands for a flat layout are those of its active coordinates, each of one alone.
pub fn cells_are_active()
    ensures active { (store : StoreWords) → CellsAreActive store }
    ensures differ { (store : StoreWords) → CellsDiffer store }
{
    // for the laws that they ensure
    numbering(&ONE_POINT);
    layouts::closure_members();
    layouts::paths_tell();
    layouts::last_sparse_decides();
}

/// A node with a cap, of a store that stands for a flat layout, has as many live containers or chunks as the layout needs there.
pub fn live_is_need()
    ensures { (store : StoreWords) → LiveIsNeed store }
{
    // for the laws that they ensure
    layouts::paths_tell();
    layouts::need_counts_live();
}

/// No node of a store that stands for a flat layout is too full for its active coordinates.
pub fn stands_has_room()
    ensures { (store : StoreWords) → StandsHasRoom store }
{
    // for the laws that they ensure
    layouts::paths_tell();
    layouts::need_counts_live();
}

/// Stores that stand for the same flat layout have the same values.
pub fn same_values()
    ensures { (store other : StoreWords) → SameValues store other }
{}

/// Links stay where what led to a place still does; where they only grow, or only shrink, each number that is live before and
/// after has the same one.
pub fn links_stay()
    ensures grow { (old now : StoreWords) → CellsKeepLinks old now }
    ensures grown { (old now : StoreWords) → GrownAreKept old now }
    ensures shrunk { (old now : StoreWords) → ShrunkAreKept old now }
{}

/// The links of each node with a cap are sound: each live number stands in one slot, each slot holds one number, and parents
/// are there.
pub fn links_are_sound()
    ensures { (store : StoreWords) → LinksAreSound store }
{}
