//! The pass over lengths and its seats: the two values that callers hold.
ghost use Rattle.std.specs.Prelude.{◌≡◌, ◌<◌, [], length};

use crate::rule::LengthRule;
use atomic_table::{Seat, Table};
use sg_words::{Items, Worker};
use std::alloc::Global;

/// A race for the lengths of a node. Threads share it by reference, each with a seat of its own.
#[derive(Drop)]
pub struct LengthPass {
    pub(crate) table: Table<(), Worker, Items<u64>, LengthRule, Global>,
    pub(crate) lengths: Items<u64>,
    ghost sized: { table.shared.table_id.words ≡ length lengths },
    ghost told: { table.shared.key ≡ lengths },
    ghost some_word: { 0 < length lengths },
    ghost no_values: { table.shared.table_id.slots ≡ 0 },
}

/// One worker's seat in a pass.
#[derive(Drop)]
pub struct RaiseSeat {
    pub(crate) seat: Seat<(), Worker>,
    ghost empty_handed: { seat.me.1 ≡ [] },
    ghost working: { 0 < seat.me.0.share },
}
