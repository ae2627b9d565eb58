//! The end of a pass: its last seat takes the table apart.
ghost use Rattle.std.specs.Prelude.{◌≡◌, ◌+◌, ◌^◌, ◌<◌, false, ◌||◌, length, take, drop, IfOk};
ghost use Rattle.std.specs.Mem.Slots.{slots_items, slots_len, IsFull};
ghost use Rattle.sg_words.specs.RaceInvariant.{handed_share};
ghost use Rattle.sg_words.specs.Stocks.{AreLinks, is_dry, AreSpares, taken_of};
ghost use Rattle.sg_words.specs.steps.SlotSteps.{Ended};
ghost use Rattle.sg_hash.specs.Finishing.{Settled, KeysSettled, KeysHaveLinks, LinksHaveKeys};
ghost use Rattle.sg_hash.specs.HashRace.{setting_of};
ghost use Rattle.sg_hash.specs.Seats.{old_keys, old_links, stock_of, worker_of, is_full, IsSeatOf};

use crate::ask::either;
use crate::rule::Start;
use crate::seat::{HashPass, HashSeat};
use atomic_table::Closed;
use sg_words::links::{spare_numbers, taken_numbers};
use sg_words::{Items, Memory};
use std::alloc::Global;

/// What a pass leaves: the key words, the slot words beside them, the numbers of the new links, the drawn numbers that aren't linked, and
/// whether the stock ran out or some key found another in every place.
#[derive(Debug, Drop)]
pub struct HashLinked {
    pub keys: Items<u64>,
    pub links: Items<u64>,
    pub taken: Items<u32>,
    pub spares: Items<u32>,
    pub dry: bool,
}

// The table taken apart.
#[derive(Drop)]
struct Gathered {
    start: Start,
    keys: Items<u64>,
    links: Items<u64>,
    count: u64,
    dry: bool,
    full: bool,
}

impl HashPass {
    /// Ends the pass by a seat into which all others were joined.
    pub fn finish(self, alloc: Global, seat: HashSeat) -> Result<HashLinked, Memory>
        requires own { IsSeatOf self seat }
        requires all { handed_share (worker_of seat) ≡ 16 }
        ensures settled { IfOk result (λ linked. Settled (old_links self) (stock_of self) (worker_of seat) linked.links) }
        ensures keys { IfOk result (λ linked. KeysSettled (old_keys self) (worker_of seat) linked.keys (is_full seat)) }
        ensures beside { IfOk result (λ linked. LinksHaveKeys (old_keys self) (old_links self) → LinksHaveKeys linked.keys linked.links) }
        ensures linked { IfOk result (λ linked. linked.dry ≡ false → KeysHaveLinks (old_keys self) (old_links self) → KeysHaveLinks linked.keys linked.links) }
        ensures dry { IfOk result (λ linked. linked.dry ≡ (is_dry (worker_of seat) || is_full seat)) }
        ensures taken { IfOk result (λ linked. linked.taken ≡ taken_of (old_links self) linked.links) }
        ensures spares { IfOk result (λ linked. AreSpares (stock_of self) (worker_of seat) linked.spares) }
    {
        let keys = Items::from_slice(alloc, self.start.keys.as_slice())?;
        let links = Items::from_slice(alloc, self.start.links.as_slice())?;
        let Gathered {
            start,
            keys,
            links,
            count,
            dry,
            full,
        } = self.gather(seat, keys, links);
        let taken = taken_numbers(alloc, start.links.as_slice(), links.as_slice())?;
        let spares = spare_numbers(alloc, start.stock.as_slice(), taken.as_slice(), count)?;
        Ok(HashLinked {
            keys,
            links,
            taken,
            spares,
            dry: either(dry, full),
        })
    }

    // The words at the end, into two lists of the right length.
    fn gather(self, seat: HashSeat, mut keys: Items<u64>, mut links: Items<u64>) -> Gathered
        requires own { IsSeatOf self seat }
        requires long { length links ≡ length (old_links self) }
        requires many { length keys ≡ length (old_links self) }
        ensures start { result.start ≡ self.start }
        ensures ended { Ended (setting_of self.start) (worker_of seat) result.links result.keys result.count }
        ensures dry { result.dry ≡ is_dry (worker_of seat) }
        ensures full { result.full ≡ is_full seat }
        ensures links { AreLinks result.links }
        ensures long { length result.links ≡ length (old_links self) }
    {
        let HashPass { table, start } = self;
        let HashSeat {
            seat,
            spare: _,
            dry,
            full,
        } = seat;
        let closed = table.close_with(seat);
        let places = links.len();
        copy_words(&closed, 0, &mut links);
        copy_words(&closed, places, &mut keys);
        let count = closed.word(places + places);
        closed.free();
        Gathered {
            start,
            keys,
            links,
            count,
            dry,
            full,
        }
    }
}

// Words of a closed table, from one on.
fn copy_words(closed: &Closed<(), Global>, from: usize, words: &mut Items<u64>)
    requires full { IsFull closed.now.words }
    requires within { from + length words.old < slots_len closed.now.words }
    requires room { from + length words.old < 2 ^ 64 }
    requires items { length (slots_items closed.now.words) ≡ slots_len closed.now.words }
    ensures { words.new ≡ take (length words.old) (drop from (slots_items closed.now.words)) }
{
    for i in 0..words.len() {
        words.set(i, closed.word(from + i));
    }
}
