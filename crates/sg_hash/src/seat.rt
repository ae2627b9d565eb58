//! The pass over keys and its seats: the two values that callers hold.
ghost use Rattle.std.specs.Prelude.{◌≡◌, ℕ, ◌+◌, ◌^◌, ◌<◌, [], length, slice_index};
ghost use Rattle.sg_hash.specs.Tables.{IsTable};
ghost use Rattle.sg_words.specs.Stocks.{AreLinks, IsFreshStock, is_dry, listed};

use crate::rule::{Half, HashRule, Start};
use atomic_table::{Seat, Table};
use sg_words::{Items, Memory, Worker};
use std::alloc::Global;

/// A race for the keys of one node, and the slots beside them. Threads share it by reference, each with a seat of its own.
#[derive(Drop)]
pub struct HashPass {
    pub(crate) table: Table<(), Worker, Start, HashRule, Global>,
    pub(crate) start: Start,
    ghost sized: { table.shared.table_id.words ≡ length start.links + (length start.links + 1) },
    ghost told: { table.shared.key ≡ start },
    ghost slots: { 0 < length start.links },
    ghost few: { length start.links < 2 ^ 63 },
    ghost many: { length start.keys ≡ length start.links },
    ghost table_of_keys: { IsTable start.keys },
    ghost links: { AreLinks start.links },
    ghost numbers: { (t : ℕ) → slice_index start.stock t < 2 ^ 32 },
    ghost room: { length start.stock < 2 ^ 63 },
    ghost fresh: { IsFreshStock start.links start.stock },
    ghost no_values: { table.shared.table_id.slots ≡ 0 },
}

/// One worker's seat in a pass. It holds at most one spare: a ticket of the stock that it drew and hasn't linked. It is full once it
/// found another key in every place.
#[derive(Drop)]
pub struct HashSeat {
    pub(crate) seat: Seat<(), Worker>,
    pub(crate) spare: Option<u64>,
    pub(crate) dry: bool,
    pub(crate) full: bool,
    ghost empty_handed: { seat.me.1 ≡ [] },
    ghost working: { 0 < seat.me.0.share },
    ghost spares: { seat.me.0.spare ≡ listed spare },
    ghost dries: { dry ≡ is_dry seat.me.0 },
}
