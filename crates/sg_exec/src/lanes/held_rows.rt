//! What all place registers hold, as rows of words.

ghost use Rattle.std.specs.Prelude.{◌≡◌, ◌≤◌, ◌+◌, ◌*◌, length, get_or};
ghost use Rattle.sg_exec.specs.steps.Rows.{On, IsPut};

use crate::lanes::columns::Columns;
use crate::lanes::held::Held;
use crate::lanes::held_row::{HeldRow, held_of};
use crate::lanes::row::{put_row, reaches, reset, row, word_in};
use std::alloc::Global;
use std::marker::Model;
use std::simd::prelude::*;

/// What place registers hold, in rows of 32 columns. Contracts see the list of what is held.
#[derive(Drop)]
pub struct HeldRows {
    kinds: Vec<u32>,
    parts: Vec<u32>,
    slots: Vec<u32>,
}

impl Model for HeldRows {
    ghost use Rattle.std.specs.Prelude.{List, Option, ◌≤◌, length};
    ghost use Rattle.sg_exec.specs.declared.lanes.held.Held.{Held};
    ghost use Rattle.sg_exec.specs.steps.Holding.{held_rows};

    ghost Value = { List (Option Held) };

    ghost view = { λ rows. held_rows rows.kinds.items rows.parts.items rows.slots.items };

    ghost invariant = { λ rows. (length rows.kinds.items ≤ length rows.parts.items) × (length rows.kinds.items ≤ length rows.slots.items) };
}

impl HeldRows {
    ghost use Rattle.std.specs.Prelude.{◌≡◌, ◌<◌, ◌≤◌, ◌+◌, ◌*◌, [], ℕ, length, get_or, IsTrue, Option, None};
    ghost use Rattle.sg_exec.specs.steps.Rows.{item_in, On, IsPut};
    ghost use Rattle.sg_exec.specs.steps.Holding.{held_at};

    /// No rows.
    pub fn new(alloc: Global) -> HeldRows
        ensures { result ≡ [] }
    {
        HeldRows {
            kinds: Vec::new(alloc),
            parts: Vec::new(alloc),
            slots: Vec::new(alloc),
        }
    }

    /// Nothing is held.
    #[inline(always)]
    pub fn start(&mut self)
        ensures none { (place : ℕ) → get_or self.new place None ≡ None }
    {
        reset(&mut self.kinds, 0);
    }

    /// Makes the rows long enough for a number. False if memory runs out.
    #[inline(always)]
    pub fn reaches(&mut self, number: u32) -> bool
        ensures long { IsTrue result → number * 32 + 32 ≤ length self.new }
        ensures same { (place : ℕ) → get_or self.new place None ≡ get_or self.old place None }
    {
        if number as usize * 32 + 32 <= self.kinds.len() {
            return true;
        }
        self.lengthen(number)
    }

    #[cold]
    fn lengthen(&mut self, number: u32) -> bool
        ensures long { IsTrue result → number * 32 + 32 ≤ length self.new }
        ensures same { (place : ℕ) → get_or self.new place None ≡ get_or self.old place None }
    {
        if !reaches(&mut self.parts, number, 0) {
            return false;
        }
        if !reaches(&mut self.slots, number, 0) {
            return false;
        }
        reaches(&mut self.kinds, number, 0)
    }

    /// What a register holds.
    #[inline(always)]
    pub fn row(&self, place: u32) -> HeldRow
        requires place { place * 32 + 32 ≤ length self.now }
        ensures { (k : ℕ) → k < 32 → held_at result k ≡ item_in self.now None k place }
    {
        HeldRow {
            kinds: row(self.kinds.as_slice(), place),
            parts: row(self.parts.as_slice(), place),
            slots: row(self.slots.as_slice(), place),
        }
    }

    /// A register holds other spots in some columns.
    #[inline(always)]
    pub fn put(&mut self, columns: &Columns, to: u32, held: &HeldRow)
        requires to { to * 32 + 32 ≤ length self.old }
        ensures { IsPut (λ k item. item ≡ held_at held.now k) (On columns.now.on) to None self.old self.new }
    {
        put_words(&mut self.kinds, columns, to, held.kinds);
        put_words(&mut self.parts, columns, to, held.parts);
        put_words(&mut self.slots, columns, to, held.slots);
    }

    /// What a register holds in a column.
    #[inline(always)]
    pub fn held(&self, place: u32, k: usize) -> Option<Held>
        requires column { k < 32 }
        ensures { result ≡ item_in self.now None k place }
    {
        held_of(
            word_in(self.kinds.as_slice(), place, k),
            word_in(self.parts.as_slice(), place, k),
            word_in(self.slots.as_slice(), place, k),
        )
    }
}

/// A row of words of a list becomes another in some columns.
#[inline(always)]
fn put_words(items: &mut Vec<u32>, columns: &Columns, to: u32, words: u32x32)
    requires room { to * 32 + 32 ≤ length items.old.items }
    ensures { IsPut (λ k word. word ≡ get_or words k 0) (On columns.now.on) to 0 items.old.items items.new.items }
{
    put_row(items.as_mut_slice(), columns, to, words);
}
