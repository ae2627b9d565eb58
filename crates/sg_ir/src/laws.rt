//! Laws of access code. Each function does nothing: what it ensures is the law, for whoever reasons about code.
ghost use Rattle.std.specs.Prelude.{List, ℕ};
ghost use Rattle.sg_coord.specs.declared.coord.Coord.{Coord};
ghost use Rattle.sg_layout.specs.declared.shape.Shape.{Shape};
ghost use Rattle.sg_flat.specs.declared.effects.Domain.{Domain};
ghost use Rattle.sg_ir.specs.Blocks.{Block};
ghost use Rattle.sg_ir.specs.Laws.{PlaceHasCoordinate};
ghost use Rattle.sg_ir.specs.SpanLaws.{WordsLieInSpans};
ghost use Rattle.sg_ir.specs.Touches.{ReadsDecide};

use sg_coord::{Extents, numbering};
use sg_flat::laws::box_in_order;
use sg_layout::laws::closure_members;
use sg_layout::paths_tell;
use sg_words::laws::{arithmetic_is_modular, operators_give_words, words_are_numbers};

// Any extents: the laws of coordinates are of all bounds.
const ONE_POINT: Extents = Extents {
    n: 1,
    a: 1,
    b: 1,
    c: 1,
};

/// The place of a coordinate is that coordinate's and no other's.
pub fn places_tell()
    ensures { (shapes : List Shape) (layout : ℕ) (at : Coord) → PlaceHasCoordinate shapes layout at }
{
    // for the laws that they ensure
    paths_tell();
    numbering(&ONE_POINT);
}

/// Along each iteration the word that a register is set to lies in the span of the instruction that sets it.
pub fn words_lie_in_spans()
    ensures { (shapes : List Shape) (domain : Domain) (block : Block) → WordsLieInSpans shapes domain block }
{
    // for the laws that they ensure
    words_are_numbers();
    arithmetic_is_modular();
    operators_give_words();
    closure_members();
    box_in_order();
}

/// At two states that have the same layouts wherever code reads or asks, each iteration writes and wants the same.
pub fn reads_decide()
    ensures { ReadsDecide }
{}
