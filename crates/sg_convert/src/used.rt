//! The words that the containers of a store would take if its pools were as large as what is live.

ghost use Rattle.std.specs.Prelude.{◌≡◌, ◌+◌, ◌≤◌, ◌<◌, ◌*◌, ◌^◌, IsTrue, length};
ghost use Rattle.sg_layout.specs.Axes.{count_of, size_of};
ghost use Rattle.sg_layout.specs.Rules.{is_cap, has_good_caps};
ghost use Rattle.sg_layout.specs.NeedLaws.{IsNumberedNode};
ghost use Rattle.sg_layout.specs.StorageWords.{power_for};
ghost use Rattle.sg_convert.specs.steps.Counting.{own_words, chunks_for, copies_next, slots_next, live_in, counted};

use sg_layout::{Kind, NodeShape};
use sg_store::Store;

/// The words, counted from the root on, and then those of the cells.
pub(crate) fn used_of(store: &Store) -> u64
    ensures { result ≡ counted (live_in store.now) (length store.now.shape.fields) 1 1 1 store.now.shape.nodes }
{
    let layout = store.layout();
    let shape = layout.shape();
    let fields = shape.fields.len() as u64;
    let nodes = shape.nodes.as_slice();
    let mut copies = 1;
    let mut before = 1;
    let mut words = 0;
    for (index, node) in nodes.iter().enumerate() {
        let slots = before * layout.size(index) as u64;
        let need = live_of(store, index as u32 + 1, node);
        words += copies * own_words(node, before, slots) + chunk_words(node, need, fields);
        copies = copies_next(node.kind, need, copies);
        before = slots_next(node.kind, slots);
    }
    words + copies * (before * fields)
}

/// How many child containers or chunks of a node, from 1, are live; 0 if its kind has none.
fn live_of(store: &Store, number: u32, node: &NodeShape) -> u64
    requires numbered { IsNumberedNode store.now.shape number node.now }
    ensures value { result ≡ live_in store.now number node.now }
    ensures few { result ≤ 2 ^ 16 }
{
    // for what it keeps
    store.layout();
    match node.kind {
        Kind::Dense | Kind::Bitmasked => 0,
        Kind::Pointer => store.live(number) as u64,
        Kind::Hash => store.live(number) as u64,
        Kind::Dynamic => store.live(number) as u64,
    }
}

/// The words of a node in one copy of its segment, which has so many slots before the node and with it.
fn own_words(node: &NodeShape, before: u64, slots: u64) -> u64
    requires caps { IsTrue (has_good_caps node.now.kind node.now) }
    requires few_before { before ≤ 2 ^ 30 }
    requires few { slots ≤ 2 ^ 30 }
    ensures { result ≡ own_words node.now.kind node.now before slots }
{
    match node.kind {
        Kind::Dense => 0,
        Kind::Bitmasked => slots.div_ceil(64),
        Kind::Pointer => slots,
        Kind::Hash => 2 * power_for(node.cap),
        Kind::Dynamic => 2 * before,
    }
}

/// The least power of two that is at least twice the cap.
fn power_for(cap: i32) -> u64
    requires { IsTrue (is_cap cap) }
    ensures value { result ≡ power_for (2 * count_of cap) }
    ensures most { result ≤ 2 ^ 17 }
{
    (2 * count(cap)).next_power_of_two()
}

/// The words of so many chunks of a node.
fn chunk_words(node: &NodeShape, need: u64, fields: u64) -> u64
    requires caps { IsTrue (has_good_caps node.now.kind node.now) }
    requires small { size_of node.now.sizes ≤ 2 ^ 30 }
    requires few_needed { need ≤ 2 ^ 16 }
    requires few { fields ≤ 16 }
    ensures { result ≡ chunks_for node.now.kind node.now need fields }
{
    match node.kind {
        Kind::Dynamic => need * (count(node.chunk) * fields + 1),
        Kind::Dense | Kind::Bitmasked | Kind::Pointer | Kind::Hash => 0,
    }
}

/// The copies of what stands after a node.
fn copies_next(kind: Kind, need: u64, copies: u64) -> u64
    ensures { result ≡ copies_next kind need copies }
{
    match kind {
        Kind::Pointer | Kind::Hash => need,
        Kind::Dense | Kind::Bitmasked | Kind::Dynamic => copies,
    }
}

/// The slots of one copy that stand before the next node.
fn slots_next(kind: Kind, slots: u64) -> u64
    ensures { result ≡ slots_next kind slots }
{
    match kind {
        Kind::Pointer | Kind::Hash => 1,
        Kind::Dense | Kind::Bitmasked => slots,
        Kind::Dynamic => 0,
    }
}

/// A number from 1 on as a count.
fn count(number: i32) -> u64
    requires { 1 ≤ count_of number }
    ensures { result ≡ count_of number }
{
    number as u64
}
