//! Coordinates cut into pieces, which workers race for.

ghost use Rattle.std.specs.Prelude.{◌≡◌, ◌*◌, ◌≤◌, length, take, drop, All};
ghost use Rattle.sg_coord.specs.Bounds.{bounds_of};
ghost use Rattle.sg_coord.specs.Coord.{Inside};

use sg_activate::Wanted;
use sg_coord::{Coord, Extents};
use sg_words::{Items, Memory};
use std::alloc::Global;

/// Into so many pieces coordinates are cut.
pub(crate) const PIECES: u32 = 64;

/// Wanted coordinates within extents, cut into pieces of so many.
#[derive(Drop)]
pub(crate) struct Pieces {
    pub(crate) coords: Items<Coord>,
    pub(crate) extents: Extents,
    pub(crate) each: usize,
    ghost inside: { All (Inside (bounds_of extents)) coords },
    ghost all: { length coords ≤ 64 * each },
}

impl Wanted for Pieces {
    type Hand = ();

    ghost use Rattle.std.specs.Prelude.{◌≡◌, ℕ};
    ghost use Rattle.sg_coord.specs.Bounds.{bounds_of};
    ghost use Rattle.sg_convert.specs.steps.Parts.{part_of};

    ghost count = { λ pieces. 64 };

    ghost bounds = { λ pieces. bounds_of pieces.extents };

    ghost Means = { λ pieces list. (piece : ℕ) → list piece ≡ part_of pieces.coords pieces.each piece };

    ghost IsHand = { λ pieces hand. Unit {0} };

    fn pieces(&self) -> u32 {
        PIECES
    }

    fn effort(&self) -> usize {
        self.each
    }

    fn hand(&self, _alloc: Global) -> Result<(), Memory> {
        Ok(())
    }

    fn wanted(&self, _hand: &mut (), piece: u32, into: &mut Vec<Coord>) -> Result<(), Memory> {
        let before = self.each.saturating_mul(piece as usize);
        let part = first_of(rest_of(self.coords.as_slice(), before), self.each);
        into.extend_from_slice(part)?;
        Ok(())
    }
}

/// Coordinates inside extents, cut into pieces.
pub(crate) fn cut(coords: Items<Coord>, extents: Extents) -> Pieces
    requires { All (Inside (bounds_of extents)) coords }
    ensures coords { result.coords ≡ coords }
    ensures extents { result.extents ≡ extents }
{
    let each = coords.len() / PIECES as usize + 1;
    Pieces {
        coords,
        extents,
        each,
    }
}

/// What is left of coordinates behind so many.
fn rest_of(coords: &[Coord], before: usize) -> &[Coord]
    ensures { result.now ≡ drop before coords.now }
{
    if before < coords.len() {
        &coords[before..]
    } else {
        &coords[..0]
    }
}

/// The first of coordinates, so many if there are.
fn first_of(coords: &[Coord], many: usize) -> &[Coord]
    ensures { result.now ≡ take many coords.now }
{
    if many < coords.len() {
        &coords[..many]
    } else {
        coords
    }
}
