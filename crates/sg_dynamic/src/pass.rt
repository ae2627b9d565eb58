//! The calls of a pass over lengths: start, raise, split, join and finish.
ghost use Rattle.std.specs.Prelude.{◌≡◌, ℕ, ◌<◌, ◌≤◌, [], length, take, IfOk};
ghost use Rattle.std.specs.Mem.Slots.{slots_items, slots_len, IsFull};
ghost use Rattle.sg_words.specs.RaceMachine.{newcomer, after_split, other_half, after_join, after_raise};
ghost use Rattle.sg_words.specs.RaceInvariant.{handed_share};
ghost use Rattle.sg_dynamic.specs.Raising.{old_lengths, worker_of, IsSeatOf, AreRaised};

use crate::rule::{Half, Raise};
use crate::seat::{LengthPass, RaiseSeat};
use atomic_table::{Closed, Table};
use sg_words::{Items, Memory};
use std::alloc::Global;

impl LengthPass {
    /// A pass over these lengths, and its first seat.
    pub fn start(alloc: Global, lengths: Items<u64>) -> Result<(LengthPass, RaiseSeat), Memory>
        requires words { 0 < length lengths }
        ensures seat { IfOk result (λ r. IsSeatOf r.0 r.1) }
        ensures given { IfOk result (λ r. old_lengths r.0 ≡ lengths) }
        ensures worker { IfOk result (λ r. worker_of r.1 ≡ newcomer [] 16) }
    {
        let (table, seat) = Table::of_words(alloc, lengths.as_slice(), &lengths)?;
        Ok((LengthPass { table, lengths }, RaiseSeat { seat }))
    }

    /// Raises the length of a parent to one more than an index, unless it is as long. No refusal, no memory, and no waiting.
    pub fn raise(&self, seat: &mut RaiseSeat, parent: usize, index: u32)
        requires own { IsSeatOf self.now seat.old }
        requires inside { parent < length (old_lengths self.now) }
        ensures own { IsSeatOf self.now seat.new }
        ensures worker { worker_of seat.new ≡ after_raise parent index (worker_of seat.old) }
    {
        let long = index as u64 + 1;
        self.table
            .shared
            .fetch_max::<Raise>(&mut seat.seat, parent, long);
    }

    /// A new seat, which takes half of the share, rounded down.
    pub fn split(&self, seat: &mut RaiseSeat) -> RaiseSeat
        requires own { IsSeatOf self.now seat.old }
        requires share { 2 ≤ (worker_of seat.old).share }
        ensures own { IsSeatOf self.now seat.new }
        ensures other { IsSeatOf self.now result }
        ensures worker { worker_of seat.new ≡ after_split (worker_of seat.old) }
        ensures new_worker { worker_of result ≡ other_half (worker_of seat.old) }
    {
        let other = self.table.shared.split_seat::<Half>(&mut seat.seat);
        RaiseSeat { seat: other }
    }

    /// Joins another seat into this one: what it has raised, its share and what came back to it.
    pub fn join(&self, seat: &mut RaiseSeat, other: RaiseSeat)
        requires own { IsSeatOf self.now seat.old }
        requires other { IsSeatOf self.now other }
        ensures own { IsSeatOf self.now seat.new }
        ensures worker { worker_of seat.new ≡ after_join (worker_of seat.old) (worker_of other) }
    {
        let RaiseSeat { seat: joined } = other;
        self.table.shared.join_seat::<Half>(&mut seat.seat, joined);
    }

    /// Ends the pass by a seat into which all others were joined: each length is the greatest of the old one and those to which it was raised.
    pub fn finish(self, seat: RaiseSeat) -> Result<Items<u64>, Memory>
        requires own { IsSeatOf self seat }
        requires all { handed_share (worker_of seat) ≡ 16 }
        ensures { IfOk result (λ lengths. AreRaised (old_lengths self) (worker_of seat).raised lengths) }
    {
        let LengthPass { table, mut lengths } = self;
        let RaiseSeat { seat } = seat;
        let closed = table.close_with(seat);
        copy_words(&closed, &mut lengths);
        closed.free();
        Ok(lengths)
    }
}

// The words of a closed table.
fn copy_words(closed: &Closed<(), Global>, words: &mut Items<u64>)
    requires full { IsFull closed.now.words }
    requires within { length words.old ≡ slots_len closed.now.words }
    requires items { length (slots_items closed.now.words) ≡ slots_len closed.now.words }
    ensures { words.new ≡ slots_items closed.now.words }
{
    for i in 0..words.len() {
        words.set(i, closed.word(i));
    }
}
