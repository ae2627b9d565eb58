//! The descent and its seats, and one function for each atomic step.
ghost use Rattle.std.specs.Prelude.{◌≡◌, ℕ, ◌+◌, ◌-◌, ◌*◌, ◌/◌, ◌%◌, ◌^◌, ◌<◌, ◌≤◌, ◌≢◌, ◌⊎◌, true, false, MatchOption, [], ◌∷◌, length, slice_index, slice_index_or};
ghost use Rattle.sg_words.specs.Counts.{pairs, firsts, times_in};
ghost use Rattle.sg_words.specs.RaceMachine.{KnowsContainer, after_draw, after_mark};
ghost use Rattle.sg_words.specs.steps.RaceSteps.{after_look, after_try};
ghost use Rattle.sg_activate.specs.TableParts.{first_of, part_of};
ghost use Rattle.sg_activate.specs.DescentRace.{slots_each, places_each, limits_of, stock_at, told_at, told_limit, setting_of, over_slot_at, over_bit_at};
ghost use Rattle.sg_activate.specs.Descents.{worker_of, IsSeatAt};

use crate::descent::rule::{Draw, Link, Look, Mark};
use crate::descent::seat::{DescentPass, DescentSeat};

impl DescentPass {
    // The word of a slot.
    pub(crate) fn look(&self, seat: &mut DescentSeat, slot: usize) -> u64
        requires own { IsSeatAt self.now seat.old }
        requires inside { slot < length self.now.start.links }
        ensures own { IsSeatAt self.now seat.new }
        ensures event { worker_of seat.new ≡ after_look slot result (worker_of seat.old) }
        ensures small { result ≤ slice_index (places_each self.now.start) (part_of (slots_each self.now.start) slot) }
        ensures again { (n : ℕ) → 0 < pairs slot n (worker_of seat.old).seen → result ≡ n + 1 }
    {
        self.table.shared.load::<Look>(&mut seat.seat, slot)
    }

    // Sets a bit of a level, unless it is the last one that the seat set there: at the upper levels coordinates side by
    // side mostly have the same bit.
    pub(crate) fn mark_once(&self, seat: &mut DescentSeat, index: usize, bit: usize)
        requires own { IsSeatAt self.now seat.old }
        requires level { index < 6 }
        requires inside { bit / 64 < length self.now.start.masks }
        requires known { KnowsContainer (setting_of self.now.start) (worker_of seat.old)
            (over_bit_at self.now.start bit) }
        ensures own { IsSeatAt self.now seat.new }
        ensures event { (worker_of seat.new ≡ worker_of seat.old) ⊎
            (worker_of seat.new ≡ after_mark bit (worker_of seat.old)) }
        ensures marked { 0 < times_in bit (worker_of seat.new).marked }
    {
        let number = bit + 1;
        if seat.last_bits[index] == number {
            return;
        }
        self.mark(seat, bit);
        seat.last_bits[index] = number;
    }

    // Sets a bit.
    fn mark(&self, seat: &mut DescentSeat, bit: usize)
        requires own { IsSeatAt self.now seat.old }
        requires inside { bit / 64 < length self.now.start.masks }
        requires known { KnowsContainer (setting_of self.now.start) (worker_of seat.old)
            (over_bit_at self.now.start bit) }
        ensures own { IsSeatAt self.now seat.new }
        ensures event { worker_of seat.new ≡ after_mark bit (worker_of seat.old) }
    {
        let power = power_of(bit);
        self.table
            .shared
            .fetch_or::<Mark>(&mut seat.seat, self.start.links.len() + bit / 64, power);
    }

    // How many numbers the stock of a pointer node has.
    fn limit_of(&self, node: usize) -> u64
        requires node { node < length self.now.start.slot_parts }
        ensures { result ≡ length (stock_at self.now.start node) }
    {
        let part = &self.start.slot_parts.as_slice()[node];
        part.limit
    }

    // The number of a ticket of a pointer node.
    fn number_of(&self, node: usize, ticket: u64) -> u32
        requires node { node < length self.now.start.slot_parts }
        requires ticket { ticket < length (stock_at self.now.start node) }
        ensures { result ≡ slice_index (stock_at self.now.start node) ticket }
    {
        let first = self.first_of(node);
        self.start.stock.as_slice()[(first + ticket) as usize]
    }

    // Where the stock of a pointer node begins.
    fn first_of(&self, node: usize) -> u64
        requires node { node < length self.now.start.slot_parts }
        ensures first { result ≡ first_of (limits_of self.now.start) node }
        ensures within { (t : ℕ) → t < length (stock_at self.now.start node) →
            result + t < length self.now.start.stock }
    {
        let part = &self.start.slot_parts.as_slice()[node];
        part.stock
    }

    // The seat's spare at a pointer node, which it draws if it has none and may.
    pub(crate) fn provide(&self, seat: &mut DescentSeat, node: usize) -> Option<u64>
        requires own { IsSeatAt self.now seat.old }
        requires node { node < length self.now.start.slot_parts }
        ensures own { IsSeatAt self.now seat.new }
        ensures event { (worker_of seat.new ≡ worker_of seat.old) ⊎ ((n : ℕ) ×
            (worker_of seat.new ≡ after_draw node (length (stock_at self.now.start node)) n (worker_of seat.old))) }
        ensures spare { MatchOption result (slice_index_or seat.new.dry node false ≡ true) (λ t.
            (slice_index seat.new.spares node ≡ t + 1) × (t < length (stock_at self.now.start node))) }
    {
        let spare = seat.spares[node];
        if spare != 0 {
            return Some(spare - 1);
        }
        if seat.dry[node] {
            return None;
        }
        self.draw(seat, node)
    }

    // A new ticket of a pointer node, by its number among these, if it is of the stock.
    fn draw(&self, seat: &mut DescentSeat, node: usize) -> Option<u64>
        requires own { IsSeatAt self.now seat.old }
        requires node { node < length self.now.start.slot_parts }
        requires none { slice_index seat.old.spares node ≡ 0 }
        requires not_dry { slice_index_or seat.old.dry node false ≡ false }
        ensures own { IsSeatAt self.now seat.new }
        ensures event { (n : ℕ) × (worker_of seat.new ≡ after_draw node (length (stock_at self.now.start node)) n
            (worker_of seat.old)) }
        ensures spare { MatchOption result (slice_index_or seat.new.dry node false ≡ true) (λ t.
            (slice_index seat.new.spares node ≡ t + 1) × (t < length (stock_at self.now.start node))) }
    {
        let count = self.start.links.len() + self.start.masks.len() + node;
        let limit = self.limit_of(node);
        let ticket = self
            .table
            .shared
            .fetch_add::<Draw>(&mut seat.seat, count, 1);
        if ticket < limit {
            seat.spares[node] = ticket + 1;
            Some(ticket)
        } else {
            seat.dry[node] = true;
            None
        }
    }

    // The number that the slot of a pointer node holds after an exchange of 0 for the number of the seat's spare of
    // that node.
    pub(crate) fn place(&self, seat: &mut DescentSeat, node: usize, slot: usize, ticket: u64) -> u32
        requires own { IsSeatAt self.now seat.old }
        requires node { node < length self.now.start.slot_parts }
        requires inside { slot < length self.now.start.links }
        requires here { part_of (slots_each self.now.start) slot ≡ node }
        requires spare { slice_index seat.old.spares node ≡ ticket + 1 }
        requires ticket { ticket < length (stock_at self.now.start node) }
        requires known { KnowsContainer (setting_of self.now.start) (worker_of seat.old)
            (over_slot_at self.now.start slot) }
        ensures own { IsSeatAt self.now seat.new }
        ensures event { (word : ℕ) × (worker_of seat.new ≡ after_try node slot ticket (slice_index
            (stock_at self.now.start node) ticket) word (worker_of seat.old)) × (word ≡ 0 →
            result ≡ slice_index (stock_at self.now.start node) ticket) × (word ≢ 0 → word ≡ result + 1) }
        ensures bound { result < slice_index (places_each self.now.start) node }
    {
        let number = self.number_of(node, ticket);
        let link = number as u64 + 1;
        let found = self
            .table
            .shared
            .compare_exchange::<Link>(&mut seat.seat, slot, 0, link);
        if found == 0 {
            seat.spares[node] = 0;
            number
        } else {
            (found - 1) as u32
        }
    }
}

// The bit's number in its word, as a word.
fn power_of(bit: usize) -> u64
    ensures { result ≡ 2 ^ (bit % 64) }
{
    1 << (bit % 64)
}
