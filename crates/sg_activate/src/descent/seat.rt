//! A descent and its seats: the two values that callers hold.
ghost use Rattle.std.specs.Prelude.{◌≡◌, ◌≢◌, ℕ, ◌+◌, ◌*◌, ◌<◌, ◌≤◌, ◌^◌, [], length};
ghost use Rattle.sg_layout.specs.declared.shape.Kind.TheVariants.{Bitmasked, Pointer, Hash, Dynamic};
ghost use Rattle.sg_activate.specs.Descending.{open_before, last_fused};
ghost use Rattle.sg_activate.specs.steps.DescentParts.{IsLaidOut, AreHeads};
ghost use Rattle.sg_activate.specs.steps.DescentSeats.{AreSpares, AreDry, AreRemembered};
ghost use Rattle.sg_activate.specs.steps.DescentWalk.{level_at, places_at, IsLevelAt, IsSlotLevel, IsMaskLevel};

use crate::descent::level::Level;
use crate::descent::rule::{DescentRule, Start};
use atomic_table::{Seat, Table};
use sg_words::{Items, Worker};
use std::alloc::Global;

/// A race for the links and bits of all pointer and bitmasked nodes. Threads share it by reference, each with a seat of
/// its own. Its levels are the nodes below the root, or below the hash node, down to the last of these.
#[derive(Drop)]
pub struct DescentPass {
    pub(crate) table: Table<(), Worker, Start, DescentRule, Global>,
    pub(crate) start: Start,
    pub(crate) base: usize,
    pub(crate) levels: Items<Level>,
    ghost sized: { table.shared.table_id.words ≡ length start.links + length start.masks + length start.slot_parts },
    ghost told: { table.shared.key ≡ start },
    ghost laid: { IsLaidOut start },
    ghost heads: { AreHeads start base },
    ghost based: { base ≡ open_before start.layout },
    ghost through: { base + length levels ≡ last_fused start.layout },
    ghost within: { base + length levels ≤ length start.layout.nodes },
    ghost levels_are: { (k : ℕ) → k < length levels → IsLevelAt start base levels k },
    ghost short: { base + length levels ≤ 6 },
    ghost kinds: { (k : ℕ) → k < length levels → ((level_at levels k).kind ≢ Hash) ×
        ((level_at levels k).kind ≢ Dynamic) },
    ghost slot_levels: { (k : ℕ) → k < length levels → (level_at levels k).kind ≡ Pointer →
        IsSlotLevel start levels k },
    ghost mask_levels: { (k : ℕ) → k < length levels → (level_at levels k).kind ≡ Bitmasked →
        IsMaskLevel start levels k },
    ghost small: { (k : ℕ) → k < length levels → places_at start start.head_places levels k *
        (level_at levels k).size ≤ 2 ^ 47 },
    ghost some: { 0 < length start.links + length start.masks },
    ghost few: { length start.slot_parts ≤ 6 },
    ghost room: { length start.links + length start.masks + length start.slot_parts < 2 ^ 56 },
    ghost no_values: { table.shared.table_id.slots ≡ 0 },
}

/// One worker's seat in a descent. At each pointer node it holds at most one spare: one more than a ticket of the stock
/// that it drew and hasn't linked. At each bitmasked level it remembers one more than the last bit that it set there.
#[derive(Drop)]
pub struct DescentSeat {
    pub(crate) seat: Seat<(), Worker>,
    pub(crate) spares: [u64; 6],
    pub(crate) dry: [bool; 6],
    pub(crate) last_bits: [usize; 6],
    ghost empty_handed: { seat.me.1 ≡ [] },
    ghost working: { 0 < seat.me.0.share },
    ghost rows: { length spares ≡ 6 },
    ghost flags: { length dry ≡ 6 },
    ghost bits: { length last_bits ≡ 6 },
    ghost spares_are: { AreSpares spares seat.me.0 },
    ghost dry_are: { AreDry dry seat.me.0 },
    ghost bits_are: { AreRemembered last_bits seat.me.0 },
}
