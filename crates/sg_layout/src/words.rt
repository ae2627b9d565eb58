ghost use Rattle.std.specs.Prelude.{◌≡◌, ℕ, ◌≤◌, ◌<◌, ◌*◌, ◌^◌, IsTrue, MatchResult};
ghost use Rattle.std.specs.List.{list_all};
ghost use Rattle.sg_layout.specs.Axes.{count_of, size_of};
ghost use Rattle.sg_layout.specs.Rules.{is_extent, is_cap, has_good_caps};
ghost use Rattle.sg_layout.specs.Accepted.{IsAccepted};
ghost use Rattle.sg_layout.specs.StorageWords.{power_for, chunks_by, words_of_shape, total_words};
ghost use Rattle.sg_layout.specs.Limits.{most_words};
ghost use Rattle.sg_layout.specs.steps.WordSteps.{own_words, copies_next, slots_next};

use crate::layout::{Layout, Layouts};
use crate::shape::{Kind, NodeShape, Shape, Size};

/// The greatest number of storage words of all layouts together.
pub const MOST_WORDS: u64 = 1 << 22;

/// The spare child containers of a node: one for each of 16 workers, and one more.
const SPARES: u64 = 17;

/// The layouts together have more storage words than there may be.
#[derive(Clone, Copy, Debug, PartialEq, Eq)]
pub struct TooLarge;

impl Layout {
    /// How many words of 8 bytes the containers of the layout take, whatever is active.
    pub fn words(&self) -> u64
        ensures value { result ≡ words_of_shape self.now }
        ensures bounded { result ≤ 2 ^ 56 }
    {
        words_of(self.shape())
    }
}

/// Whether all layouts together have at most `MOST_WORDS` storage words.
pub fn check_total(layouts: &Layouts) -> Result<(), TooLarge>
    ensures { MatchResult result (λ _. total_words layouts.now.list ≤ most_words)
        (λ _. most_words < total_words layouts.now.list) }
{
    let mut total = 0;
    for layout in layouts.list.as_slice() {
        total += layout.words();
        if total > MOST_WORDS {
            return Err(TooLarge);
        }
    }
    Ok(())
}

/// The words of the nodes, from the root on, and then those of the cells.
fn words_of(shape: &Shape) -> u64
    requires { IsAccepted shape.now }
    ensures value { result ≡ words_of_shape shape.now }
    ensures bounded { result ≤ 2 ^ 56 }
{
    let fields = shape.fields.len() as u64;
    let mut copies = 1;
    let mut before = 1;
    let mut words = 0;
    for node in shape.nodes.as_slice() {
        let slots = before * size_of(node.sizes.as_slice());
        words += copies * own_words(node, before, slots) + chunk_words(node, fields);
        copies = copies_next(node, copies);
        before = slots_next(node.kind, slots);
    }
    words + copies * (before * fields)
}

/// The number of slots of a node under one slot of the node before.
fn size_of(sizes: &[Size]) -> u64
    requires extents { IsTrue (list_all (λ size. is_extent size.extent) sizes.now) }
    requires small { size_of sizes.now ≤ 2 ^ 30 }
    ensures { result ≡ size_of sizes.now }
{
    let mut product = 1;
    for size in sizes {
        product *= count(size.extent);
    }
    product
}

/// The words of a node in one copy of its segment, which has so many slots before the node and with it.
fn own_words(node: &NodeShape, before: u64, slots: u64) -> u64
    requires caps { IsTrue (has_good_caps node.now.kind node.now) }
    requires few_before { before ≤ 2 ^ 30 }
    requires few { slots ≤ 2 ^ 30 }
    ensures { result ≡ own_words node.now.kind node.now before slots }
{
    match node.kind {
        Kind::Dense => 0,
        Kind::Bitmasked => slots.div_ceil(64),
        Kind::Pointer => slots,
        Kind::Hash => 2 * power_for(node.cap),
        Kind::Dynamic => 2 * before,
    }
}

/// The least power of two that is at least twice the cap.
fn power_for(cap: i32) -> u64
    requires { IsTrue (is_cap cap) }
    ensures value { result ≡ power_for (2 * count_of cap) }
    ensures most { result ≤ 2 ^ 17 }
{
    (2 * count(cap)).next_power_of_two()
}

/// The words of the chunks of a node.
fn chunk_words(node: &NodeShape, fields: u64) -> u64
    requires caps { IsTrue (has_good_caps node.now.kind node.now) }
    requires small { size_of node.now.sizes ≤ 2 ^ 30 }
    requires few { fields ≤ 16 }
    ensures { result ≡ chunks_by node.now.kind node.now fields }
{
    match node.kind {
        Kind::Dynamic => count(node.cap) * (count(node.chunk) * fields + 1),
        Kind::Dense | Kind::Bitmasked | Kind::Pointer | Kind::Hash => 0,
    }
}

/// The copies of what stands after a node.
fn copies_next(node: &NodeShape, copies: u64) -> u64
    requires { IsTrue (has_good_caps node.now.kind node.now) }
    ensures { result ≡ copies_next node.now.kind node.now copies }
{
    match node.kind {
        Kind::Pointer | Kind::Hash => count(node.cap) + SPARES,
        Kind::Dense | Kind::Bitmasked | Kind::Dynamic => copies,
    }
}

/// The slots of one copy that stand before the next node.
fn slots_next(kind: Kind, slots: u64) -> u64
    ensures { result ≡ slots_next kind slots }
{
    match kind {
        Kind::Pointer | Kind::Hash => 1,
        Kind::Dense | Kind::Bitmasked => slots,
        Kind::Dynamic => 0,
    }
}

/// A number from 1 on as a count.
fn count(number: i32) -> u64
    requires { 1 ≤ count_of number }
    ensures { result ≡ count_of number }
{
    number as u64
}
