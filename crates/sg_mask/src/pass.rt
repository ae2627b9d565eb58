//! The calls of a pass: start, mark, split, join and finish.
ghost use Rattle.std.specs.Prelude.{◌≡◌, ℕ, ◌*◌, ◌%◌, ◌^◌, ◌<◌, ◌≤◌, [], length, take, IfOk};
ghost use Rattle.std.specs.Mem.Slots.{slots_items, slots_len, IsFull};
ghost use Rattle.sg_words.specs.RaceMachine.{newcomer, after_split, other_half, after_join, after_mark};
ghost use Rattle.sg_words.specs.RaceInvariant.{handed_share};
ghost use Rattle.sg_mask.specs.Marking.{old_masks, worker_of, IsSeatOf, AreMarked};

use crate::rule::{Half, Mark};
use crate::seat::{MarkSeat, MaskPass};
use atomic_table::{Closed, Table};
use sg_words::{Items, Memory};
use std::alloc::Global;

impl MaskPass {
    /// A pass over these mask words, and its first seat.
    pub fn start(alloc: Global, masks: Items<u64>) -> Result<(MaskPass, MarkSeat), Memory>
        requires words { 0 < length masks }
        ensures seat { IfOk result (λ r. IsSeatOf r.0 r.1) }
        ensures given { IfOk result (λ r. old_masks r.0 ≡ masks) }
        ensures worker { IfOk result (λ r. worker_of r.1 ≡ newcomer [] 16) }
    {
        let (table, seat) = Table::of_words(alloc, masks.as_slice(), &masks)?;
        Ok((MaskPass { table, masks }, MarkSeat { seat }))
    }

    /// Sets a bit. No refusal, no memory, and no waiting.
    pub fn mark(&self, seat: &mut MarkSeat, bit: usize)
        requires own { IsSeatOf self.now seat.old }
        requires inside { bit < 64 * length (old_masks self.now) }
        ensures own { IsSeatOf self.now seat.new }
        ensures worker { worker_of seat.new ≡ after_mark bit (worker_of seat.old) }
    {
        let power = power_of(bit);
        self.table
            .shared
            .fetch_or::<Mark>(&mut seat.seat, bit / 64, power);
    }

    /// A new seat, which takes half of the share, rounded down.
    pub fn split(&self, seat: &mut MarkSeat) -> MarkSeat
        requires own { IsSeatOf self.now seat.old }
        requires share { 2 ≤ (worker_of seat.old).share }
        ensures own { IsSeatOf self.now seat.new }
        ensures other { IsSeatOf self.now result }
        ensures worker { worker_of seat.new ≡ after_split (worker_of seat.old) }
        ensures new_worker { worker_of result ≡ other_half (worker_of seat.old) }
    {
        let other = self.table.shared.split_seat::<Half>(&mut seat.seat);
        MarkSeat { seat: other }
    }

    /// Joins another seat into this one: what it has marked, its share and what came back to it.
    pub fn join(&self, seat: &mut MarkSeat, other: MarkSeat)
        requires own { IsSeatOf self.now seat.old }
        requires other { IsSeatOf self.now other }
        ensures own { IsSeatOf self.now seat.new }
        ensures worker { worker_of seat.new ≡ after_join (worker_of seat.old) (worker_of other) }
    {
        let MarkSeat { seat: joined } = other;
        self.table.shared.join_seat::<Half>(&mut seat.seat, joined);
    }

    /// Ends the pass by a seat into which all others were joined: the words with the old bits and the marked ones.
    pub fn finish(self, seat: MarkSeat) -> Result<Items<u64>, Memory>
        requires own { IsSeatOf self seat }
        requires all { handed_share (worker_of seat) ≡ 16 }
        ensures { IfOk result (λ masks. AreMarked (old_masks self) (worker_of seat).marked masks) }
    {
        let MaskPass { table, mut masks } = self;
        let MarkSeat { seat } = seat;
        let closed = table.close_with(seat);
        copy_words(&closed, &mut masks);
        closed.free();
        Ok(masks)
    }
}

// The bit's number in its word, as a word.
fn power_of(bit: usize) -> u64
    ensures { result ≡ 2 ^ (bit % 64) }
{
    1 << (bit % 64)
}

// The words of a closed table.
fn copy_words(closed: &Closed<(), Global>, words: &mut Items<u64>)
    requires full { IsFull closed.now.words }
    requires within { length words.old ≡ slots_len closed.now.words }
    requires items { length (slots_items closed.now.words) ≡ slots_len closed.now.words }
    ensures { words.new ≡ slots_items closed.now.words }
{
    for i in 0..words.len() {
        words.set(i, closed.word(i));
    }
}
