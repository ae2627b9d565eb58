//! Rows of the places above a node that are kept.

ghost use Rattle.std.specs.Prelude.{◌≡◌, ◌≢◌, ℕ, ◌+◌, ◌*◌, ◌/◌, ◌^◌, ◌&&◌, ◌==◌, ◌<◌, ◌≤◌, nat_lt, not, length, slice_index, IfOk};
ghost use Rattle.sg_layout.specs.declared.shape.Kind.TheVariants.{Hash, Dynamic};
ghost use Rattle.sg_layout.specs.Axes.{size_of};
ghost use Rattle.sg_store.specs.Slots.{linked};
ghost use Rattle.sg_store.specs.steps.Trimming.{is_kept, leads_kept, place_kept};
ghost use Rattle.sg_store.specs.steps.KeptWords.{in_row, AreMarked, LeadsWithin};
ghost use Rattle.sg_store.specs.steps.Planning.{IsPlannable, IsPlanFor};

use crate::kept_words::is_in_row;
use crate::node::{NodeWords, bit};
use crate::node_plan::{NodePlan, StayingWords};
use crate::word_row::WordRow;
use sg_layout::{Kind, NodeShape};
use sg_words::{Items, Memory};
use std::alloc::Global;

/// The places above a node from which some slot leads to a place that its plan's row keeps. A hash node is the first, so that none is asked
/// for there.
pub(crate) fn row_above(
    alloc: Global,
    node: &NodeShape,
    kept: &NodeWords,
    size: usize,
    places: usize,
    plan: &NodePlan,
) -> Result<Items<bool>, Memory>
    requires node { IsPlannable node.now kept.now }
    requires plan { IsPlanFor node.now.kind node.now kept.now plan.now }
    requires some { 1 ≤ size }
    requires sized { size ≡ size_of node.now.sizes }
    requires linked { node.now.kind ≢ Hash }
    requires within { LeadsWithin (in_row plan.now.row) node.now kept.now (places * size) }
    requires room { places * size ≤ 2 ^ 47 }
    ensures long { IfOk result (λ above. length above ≡ places) }
    ensures above { IfOk result (λ above. (place : ℕ) → in_row above place ≡ place_kept (in_row plan.now.row) node.now kept.now place) }
{
    match &plan.words {
        StayingWords::Lengths(lengths) => row_of_lengths(alloc, lengths, places),
        StayingWords::Whole => row_of_slots(alloc, node, kept, size, places, plan.row.as_slice()),
        StayingWords::Masks(_masks) => row_of_slots(
            alloc,
            node,
            kept,
            size,
            places,
            plan.row.as_slice(),
        ),
        StayingWords::Linked(_links) => row_of_slots(
            alloc,
            node,
            kept,
            size,
            places,
            plan.row.as_slice(),
        ),
        StayingWords::Table(_links, _table) => unreachable!(),
    }
}

/// The places above a dynamic node whose lengths are not 0.
fn row_of_lengths(alloc: Global, lengths: &WordRow, places: usize) -> Result<Items<bool>, Memory>
    ensures long { IfOk result (λ above. length above ≡ places) }
    ensures each { IfOk result (λ above. (place : ℕ) → in_row above place ≡ (nat_lt place places && not (slice_index lengths.now place == 0))) }
{
    let mut above = Items::from_vec(vec![in alloc; false; places]?);
    for place in 0..places {
        if lengths.get(place) != 0 {
            above.set(place, true);
        }
    }
    Ok(above)
}

/// The places above a node from which some slot leads to a place that a row keeps.
fn row_of_slots(
    alloc: Global,
    node: &NodeShape,
    kept: &NodeWords,
    size: usize,
    places: usize,
    row: &[bool],
) -> Result<Items<bool>, Memory>
    requires some { 1 ≤ size }
    requires sized { size ≡ size_of node.now.sizes }
    requires linked { node.now.kind ≢ Hash }
    requires not_last { node.now.kind ≢ Dynamic }
    requires within { LeadsWithin (in_row row.now) node.now kept.now (places * size) }
    requires room { places * size ≤ 2 ^ 47 }
    ensures long { IfOk result (λ above. length above ≡ places) }
    ensures above { IfOk result (λ above. (place : ℕ) → in_row above place ≡ place_kept (in_row row.now) node.now kept.now place) }
{
    let mut above = Items::from_vec(vec![in alloc; false; places]?);
    for slot in 0..places * size {
        mark_above(&mut above, node, kept, size, slot, row);
    }
    Ok(above)
}

/// Marks the place above a slot, where the slot leads to a place that a row keeps.
#[tactic(auto, using(crate::proofs::RowTests::marked_more, crate::proofs::RowTests::marked_same))]
fn mark_above(
    above: &mut Items<bool>,
    node: &NodeShape,
    kept: &NodeWords,
    size: usize,
    slot: usize,
    row: &[bool],
)
    requires some { 1 ≤ size }
    requires sized { size ≡ size_of node.now.sizes }
    requires linked { node.now.kind ≢ Hash }
    requires not_last { node.now.kind ≢ Dynamic }
    requires there { slot / size < length above.old }
    ensures { (places : ℕ) → AreMarked (in_row row.now) node.now kept.now above.old places slot →
        AreMarked (in_row row.now) node.now kept.now above.new places (slot + 1) }
{
    if leads_to_kept(node, kept, slot, row) {
        above.set(slot / size, true);
    }
}

/// Whether a slot leads to a place that a row keeps.
fn leads_to_kept(node: &NodeShape, kept: &NodeWords, slot: usize, row: &[bool]) -> bool
    requires linked { node.now.kind ≢ Hash }
    requires not_last { node.now.kind ≢ Dynamic }
    ensures { result ≡ leads_kept (in_row row.now) node.now kept.now slot }
{
    match node.kind {
        Kind::Dense => is_in_row(row, slot),
        Kind::Bitmasked => bit(&kept.masks, slot) && is_in_row(row, slot),
        Kind::Pointer => is_link_in_row(kept.links.get(slot), row),
        Kind::Hash => unreachable!(),
        Kind::Dynamic => unreachable!(),
    }
}

/// Whether a row keeps the place of a link's number.
pub(crate) fn is_link_in_row(link: u64, row: &[bool]) -> bool
    ensures { result ≡ is_kept (in_row row.now) (linked link) }
{
    link != 0 && is_in_row(row, (link - 1) as usize)
}
