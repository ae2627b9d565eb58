//! A part of a pass: a race into at most 65,536 cells, and a seat in it.
ghost use Rattle.std.specs.Prelude.{◌≡◌, ◌<◌, [], length};

use crate::begin::Start;
use crate::rule::AccRule;
use atomic_table::{Seat, Table};
use sg_words::Worker;
use std::alloc::Global;

/// A race into cells, each a word of a table.
#[derive(Drop)]
pub struct Part {
    pub(crate) table: Table<(), Worker, Start, AccRule, Global>,
    pub(crate) start: Start,
    ghost sized: { table.shared.table_id.words ≡ length start.values },
    ghost told: { table.shared.key ≡ start },
    ghost some_cell: { 0 < length start.values },
    ghost no_values: { table.shared.table_id.slots ≡ 0 },
}

/// One worker's seat in a part. It has no bytes.
#[derive(Drop)]
pub struct PartSeat {
    pub(crate) seat: Seat<(), Worker>,
    ghost empty_handed: { seat.me.1 ≡ [] },
    ghost working: { 0 < seat.me.0.share },
}
