//! Words planned beside those of a node: what stays where only slots stay set that lead to kept places.

ghost use Rattle.std.specs.Prelude.{◌≡◌, ℕ, ◌||◌, ◌&&◌, ◌==◌, ◌<◌, nat_lt, length, slice_index, slice_set, IfOk};
ghost use Rattle.sg_store.specs.Slots.{mask_bit};
ghost use Rattle.sg_store.specs.steps.KeptWords.{in_row, kept_link, AreKeptBits, AreKeptLinks};

use crate::mask::mark;
use crate::node::bit;
use crate::word_row::WordRow;
use sg_hash::PagedRow;
use sg_words::Memory;
use std::alloc::Global;

/// Whether a row keeps a place; not past its end.
pub(crate) fn is_in_row(row: &[bool], place: usize) -> bool
    ensures { result ≡ in_row row.now place }
{
    place < row.len() && row[place]
}

/// The masks with those bits alone whose slots are kept.
pub(crate) fn kept_masks(alloc: Global, masks: &WordRow, row: &[bool]) -> Result<WordRow, Memory>
    ensures { IfOk result (λ kept. AreKeptBits masks.now kept row.now (length row.now)) }
{
    let mut kept = WordRow::zeros(alloc, masks.len())?;
    for slot in 0..row.len() {
        keep_bit(&mut kept, masks, row, slot);
    }
    Ok(kept)
}

/// Sets a bit that the masks have, where its slot is kept.
fn keep_bit(kept: &mut WordRow, masks: &WordRow, row: &[bool], slot: usize)
    requires { length kept.old ≡ length masks.now }
    ensures as_many { length kept.new ≡ length kept.old }
    ensures bits { (other : ℕ) → mask_bit kept.new other ≡ (mask_bit kept.old other || (slot == other && (mask_bit masks.now other && in_row row.now other))) }
{
    if is_in_row(row, slot) && bit(masks, slot) {
        mark(kept, slot);
    }
}

/// The links with those alone whose numbers are kept, and 0 in the place of the others. Pages of which none is kept stand no longer.
pub(crate) fn kept_links(alloc: Global, links: &PagedRow, row: &[bool]) -> Result<PagedRow, Memory>
    ensures { IfOk result (λ kept. AreKeptLinks links.now kept row.now (length links.now)) }
{
    let mut kept = PagedRow::zeros(alloc, links.len())?;
    let mut slot = 0;
    while let Some(next) = links.next(slot) {
        kept.set(next, kept_link(links.get(next), row));
        slot = next + 1;
    }
    Ok(kept)
}

/// A link, or 0 if its number is not kept.
fn kept_link(link: u64, row: &[bool]) -> u64
    ensures { result ≡ kept_link (in_row row.now) link }
{
    if link != 0 && is_in_row(row, (link - 1) as usize) {
        link
    } else {
        0
    }
}
