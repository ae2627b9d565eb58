//! A seat cut in two, and two seats made one.
ghost use Rattle.std.specs.Prelude.{◌≡◌, ℕ, ◌<◌, ◌≤◌, ◌||◌, false, length, slice_index_or};
ghost use Rattle.sg_words.specs.RaceMachine.{after_split, other_half, after_join};
ghost use Rattle.sg_activate.specs.Descents.{worker_of, IsSeatOf};

use crate::descent::rule::Half;
use crate::descent::seat::{DescentPass, DescentSeat};

impl DescentPass {
    /// A new seat, which takes half of the share, rounded down.
    pub fn split(&self, seat: &mut DescentSeat) -> DescentSeat
        requires own { IsSeatOf self.now seat.old }
        requires share { 2 ≤ (worker_of seat.old).share }
        ensures own { IsSeatOf self.now seat.new }
        ensures other { IsSeatOf self.now result }
        ensures worker { worker_of seat.new ≡ after_split (worker_of seat.old) }
        ensures new_worker { worker_of result ≡ other_half (worker_of seat.old) }
    {
        let other = self.table.shared.split_seat::<Half>(&mut seat.seat);
        DescentSeat {
            seat: other,
            spares: [0; 6],
            dry: [false; 6],
            last_bits: [0; 6],
        }
    }

    /// Joins another seat into this one: what it has done and seen, its share and what came back to it.
    pub fn join(&self, seat: &mut DescentSeat, other: DescentSeat)
        requires own { IsSeatOf self.now seat.old }
        requires other { IsSeatOf self.now other }
        ensures own { IsSeatOf self.now seat.new }
        ensures worker { worker_of seat.new ≡ after_join (worker_of seat.old) (worker_of other) }
    {
        let DescentSeat {
            seat: joined,
            spares: _,
            dry,
            last_bits: _,
        } = other;
        let flags = either_each(seat.dry, dry);
        self.table.shared.join_seat::<Half>(&mut seat.seat, joined);
        seat.dry = flags;
    }
}

// Of two rows of flags those that either has.
fn either_each(one: [bool; 6], other: [bool; 6]) -> [bool; 6]
    ensures rows { length result ≡ 6 }
    ensures each { (l : ℕ) → slice_index_or result l false ≡
        (slice_index_or one l false || slice_index_or other l false) }
{
    [
        either(one[0], other[0]),
        either(one[1], other[1]),
        either(one[2], other[2]),
        either(one[3], other[3]),
        either(one[4], other[4]),
        either(one[5], other[5]),
    ]
}

fn either(one: bool, other: bool) -> bool
    ensures { result ≡ (one || other) }
{
    one || other
}
