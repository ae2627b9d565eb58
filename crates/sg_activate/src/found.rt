//! The list that a look writes down: what is wanted and isn't active yet.
ghost use Rattle.std.specs.Prelude.{◌≡◌, ℕ, true, false, [], Contains};
ghost use Rattle.sg_coord.specs.declared.coord.Coord.{Coord};
ghost use Rattle.sg_activate.specs.steps.Finding.{coord_found, found_in};

use sg_coord::Coord;
use sg_words::Items;

/// A wanted coordinate that isn't active, by its parts, and the piece that wants it.
#[derive(Clone, Copy)]
pub(crate) struct Found {
    pub(crate) piece: u32,
    pub(crate) a: i32,
    pub(crate) b: i32,
    pub(crate) c: i32,
}

/// Some of what one worker found, in the order in which its pieces want it.
#[derive(Drop)]
pub(crate) struct Finds {
    pub(crate) worker: u32,
    pub(crate) list: Items<Found>,
}

/// Whether nothing was found.
pub(crate) fn is_nothing(found: &[Finds]) -> bool
    ensures none { result ≡ true → (axes : ℕ) → found_in axes found.now ≡ [] }
    ensures some { result ≡ false → (axes : ℕ) → (at : Coord) × Contains (found_in axes found.now) at }
{
    for finds in found {
        if finds.list.len() > 0 {
            return false;
        }
    }
    true
}

/// The coordinate that was found, with so many axes.
pub(crate) fn coord_found(axes: u32, found: Found) -> Coord
    ensures { result ≡ coord_found axes found }
{
    Coord {
        n: axes,
        a: found.a,
        b: found.b,
        c: found.c,
    }
}

/// What is found at a coordinate that a piece wants.
pub(crate) fn found_at(piece: u32, at: Coord) -> Found
    ensures { coord_found at.n result ≡ at }
{
    Found {
        piece,
        a: at.a,
        b: at.b,
        c: at.c,
    }
}
