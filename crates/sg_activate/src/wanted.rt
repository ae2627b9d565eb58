ghost use Rattle.std.specs.Prelude.{◌≡◌, ℕ, ◌<◌, ◌++◌, List, All, IfOk, OnOk, OnErr};
ghost use Rattle.sg_coord.specs.declared.coord.Coord.{Coord};
ghost use Rattle.sg_coord.specs.Bounds.{Bounds};
ghost use Rattle.sg_coord.specs.Coord.{Inside};
ghost use Rattle.sg_activate.specs.Activating.{HasFront};

use sg_coord::Coord;
use sg_words::Memory;
use std::alloc::Global;

/// What is wanted: a list of coordinates for each piece of some work. `count` tells how many pieces there are, `bounds`
/// within which all wanted coordinates are, and `Means` which lists are meant, by the piece's number from 0. Where
/// lists of several kinds may be meant, each promise is of all of them.
pub trait Wanted {
    /// What a worker needs to tell what pieces want, such as a machine with its rows: it makes one at its start, and
    /// uses it for all its pieces.
    type Hand: Drop;

    ghost count: { Self → ℕ };

    ghost bounds: { Self → Bounds };

    ghost Means: { Self → (ℕ → List Coord) → Type 0 };

    ghost IsHand: { Self → Self.Hand → Type 0 };

    /// How many pieces there are.
    fn pieces(&self) -> u32
        ensures { result ≡ count self.now };

    /// About how many instructions a piece takes. Any number will do: where the gate can't hold anyone, there are as
    /// many workers as have enough to do by it.
    fn effort(&self) -> usize {
        1
    }

    /// A new hand.
    fn hand(&self, alloc: Global) -> Result<Self::Hand, Memory>
        ensures { IfOk result (IsHand self.now) };

    /// Appends the coordinates that a piece wants. Where memory runs out, a front of them has been appended, and the
    /// hand isn't used again.
    fn wanted(&self, hand: &mut Self::Hand, piece: u32, into: &mut Vec<Coord>) -> Result<(), Memory>
        requires own { IsHand self.now hand.old }
        requires below { piece < count self.now }
        ensures own { OnOk result (IsHand self.now hand.new) }
        ensures list { OnOk result ((list : ℕ → List Coord) → Means self.now list →
            into.new.items ≡ into.old.items ++ list piece) }
        ensures inside { OnOk result (All (Inside (bounds self.now)) into.old.items →
            All (Inside (bounds self.now)) into.new.items) }
        ensures front { OnErr result (HasFront (Means self.now) piece into.old.items into.new.items) };
}
