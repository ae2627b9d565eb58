//! The pass and its seats: the two values that callers hold.
ghost use Rattle.std.specs.Prelude.{◌≡◌, ◌<◌, [], length};

use crate::rule::MaskRule;
use atomic_table::{Seat, Table};
use sg_words::{Items, Worker};
use std::alloc::Global;

/// A race for the bits of mask words. Threads share it by reference, each with a seat of its own.
#[derive(Drop)]
pub struct MaskPass {
    pub(crate) table: Table<(), Worker, Items<u64>, MaskRule, Global>,
    pub(crate) masks: Items<u64>,
    ghost sized: { table.shared.table_id.words ≡ length masks },
    ghost told: { table.shared.key ≡ masks },
    ghost some_word: { 0 < length masks },
    ghost no_values: { table.shared.table_id.slots ≡ 0 },
}

/// One worker's seat in a pass.
#[derive(Drop)]
pub struct MarkSeat {
    pub(crate) seat: Seat<(), Worker>,
    ghost empty_handed: { seat.me.1 ≡ [] },
    ghost working: { 0 < seat.me.0.share },
}
