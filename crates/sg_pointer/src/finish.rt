//! The end of a pass: its last seat takes the table apart.
ghost use Rattle.std.specs.Prelude.{◌≡◌, ◌<◌, [], length, take, IfOk};
ghost use Rattle.std.specs.Mem.Slots.{slots_items, slots_len, IsFull};
ghost use Rattle.sg_words.specs.RaceInvariant.{handed_share};
ghost use Rattle.sg_words.specs.Stocks.{AreLinks, is_dry, Settled, AreSpares, taken_of};
ghost use Rattle.sg_words.specs.steps.SlotSteps.{Ended};
ghost use Rattle.sg_pointer.specs.PointerRace.{setting_of};
ghost use Rattle.sg_pointer.specs.Seats.{old_links, stock_of, worker_of, IsSeatOf};

use crate::rule::Start;
use crate::seat::{AskSeat, PointerPass};
use atomic_table::Closed;
use sg_words::links::{spare_numbers, taken_numbers};
use sg_words::{Items, Memory};
use std::alloc::Global;

/// What a pass leaves: the slot words, the numbers of the new links, the drawn numbers that aren't linked, and whether the stock ran out.
#[derive(Debug, Drop)]
pub struct Linked {
    pub links: Items<u64>,
    pub taken: Items<u32>,
    pub spares: Items<u32>,
    pub dry: bool,
}

// The table taken apart.
#[derive(Drop)]
struct Gathered {
    start: Start,
    links: Items<u64>,
    count: u64,
    dry: bool,
}

impl PointerPass {
    /// Ends the pass by a seat into which all others were joined.
    pub fn finish(self, alloc: Global, seat: AskSeat) -> Result<Linked, Memory>
        requires own { IsSeatOf self seat }
        requires all { handed_share (worker_of seat) ≡ 16 }
        ensures settled { IfOk result (λ linked. Settled (old_links self) (stock_of self) (worker_of seat) linked.links linked.dry) }
        ensures taken { IfOk result (λ linked. linked.taken ≡ taken_of (old_links self) linked.links) }
        ensures spares { IfOk result (λ linked. AreSpares (stock_of self) (worker_of seat) linked.spares) }
    {
        let links = Items::from_slice(alloc, self.start.links.as_slice())?;
        let Gathered {
            start,
            links,
            count,
            dry,
        } = self.gather(seat, links);
        let taken = taken_numbers(alloc, start.links.as_slice(), links.as_slice())?;
        let spares = spare_numbers(alloc, start.stock.as_slice(), taken.as_slice(), count)?;
        Ok(Linked {
            links,
            taken,
            spares,
            dry,
        })
    }

    // The words at the end, into a list of the right length.
    fn gather(self, seat: AskSeat, mut links: Items<u64>) -> Gathered
        requires own { IsSeatOf self seat }
        requires long { length links ≡ length (old_links self) }
        ensures start { result.start ≡ self.start }
        ensures ended { Ended (setting_of self.start) (worker_of seat) result.links [] result.count }
        ensures dry { result.dry ≡ is_dry (worker_of seat) }
        ensures links { AreLinks result.links }
        ensures long { length result.links ≡ length (old_links self) }
    {
        let PointerPass { table, start } = self;
        let AskSeat {
            seat,
            spare: _,
            dry,
        } = seat;
        let closed = table.close_with(seat);
        copy_words(&closed, &mut links);
        let count = closed.word(links.len());
        closed.free();
        Gathered {
            start,
            links,
            count,
            dry,
        }
    }
}

// The first words of a closed table.
fn copy_words(closed: &Closed<(), Global>, links: &mut Items<u64>)
    requires full { IsFull closed.now.words }
    requires within { length links.old < slots_len closed.now.words }
    requires items { length (slots_items closed.now.words) ≡ slots_len closed.now.words }
    ensures { links.new ≡ take (length links.old) (slots_items closed.now.words) }
{
    for i in 0..links.len() {
        links.set(i, closed.word(i));
    }
}
