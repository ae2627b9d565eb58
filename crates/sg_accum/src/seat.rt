//! The pass and its seats: the two values that callers hold.
ghost use Rattle.std.specs.Prelude.{◌<◌, ◌≤◌, length};
ghost use Rattle.sg_accum.specs.Parts.{part_values, seat_workers, worker_at, AreCut, AreBy, HaveEqualShares};
ghost use Rattle.sg_accum.specs.steps.Rooms.{AreRooms, AreRooms-prop, splits_of};

use crate::part::{Part, PartSeat};
use crate::rooms::Rooms;
use sg_words::{AccOp, Ty};

/// A race into cells, in parts of 65,536 cells. Threads share it by reference, each with a seat of its own.
#[derive(Drop)]
pub struct AccPass {
    pub(crate) parts: Vec<Part>,
    pub(crate) op: AccOp,
    pub(crate) ty: Ty,
    ghost cut: { AreCut (part_values parts.items) },
    ghost by: { AreBy op ty parts.items },
}

/// One worker's seat in a pass: a seat in each part, and room for the seats that may be split off.
#[derive(Drop)]
pub struct AccSeat {
    pub(crate) seats: Vec<PartSeat>,
    pub(crate) rooms: Rooms,
    ghost some: { 0 < length seats.items },
    ghost alike: { HaveEqualShares (seat_workers seats.items) },
    ghost enough: { (worker_at (seat_workers seats.items) 0).share ≤ splits_of rooms },
    ghost room: { AreRooms (length seats.items) rooms } by { AreRooms-prop (length seats.items) rooms },
}
