//! The pass and its seats: the two values that callers hold.
ghost use Rattle.std.specs.Prelude.{◌≡◌, ℕ, ◌+◌, ◌^◌, ◌<◌, [], length, slice_index};
ghost use Rattle.sg_words.specs.Stocks.{AreLinks, IsFreshStock, is_dry, listed};

use crate::rule::{Half, PointerRule, Start};
use atomic_table::{Seat, Table};
use sg_words::{Items, Memory, Worker};
use std::alloc::Global;

/// A race for the slots of one node. Threads share it by reference, each with a seat of its own.
#[derive(Drop)]
pub struct PointerPass {
    pub(crate) table: Table<(), Worker, Start, PointerRule, Global>,
    pub(crate) start: Start,
    ghost sized: { table.shared.table_id.words ≡ length start.links + 1 },
    ghost told: { table.shared.key ≡ start },
    ghost slots: { 0 < length start.links },
    ghost links: { AreLinks start.links },
    ghost numbers: { (t : ℕ) → slice_index start.stock t < 2 ^ 32 },
    ghost room: { length start.stock < 2 ^ 63 },
    ghost fresh: { IsFreshStock start.links start.stock },
    ghost no_values: { table.shared.table_id.slots ≡ 0 },
}

/// One worker's seat in a pass. It holds at most one spare: a ticket of the stock that it drew and hasn't linked.
#[derive(Drop)]
pub struct AskSeat {
    pub(crate) seat: Seat<(), Worker>,
    pub(crate) spare: Option<u64>,
    pub(crate) dry: bool,
    ghost empty_handed: { seat.me.1 ≡ [] },
    ghost working: { 0 < seat.me.0.share },
    ghost spares: { seat.me.0.spare ≡ listed spare },
    ghost dries: { dry ≡ is_dry seat.me.0 },
}
