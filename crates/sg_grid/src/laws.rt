//! Laws of grid texts. Each function does nothing: what it ensures is the law.
ghost use Rattle.sg_coord.specs.Bounds.{Bounds, IsBounds};
ghost use Rattle.sg_words.specs.declared.operators.Ty.{Ty};
ghost use Rattle.sg_layout.specs.declared.shape.Shape.{Shape};
ghost use Rattle.sg_grid.specs.declared.grid.Version.{Version};
ghost use Rattle.sg_grid.specs.Laws.{AcceptsGridTexts, FaultsAreFirst, RunsAreRows, ReadsRows, ReadsWritten, ReadsDump};

use sg_coord::laws::strict_order;
use sg_layout::laws::closure_members;
use sg_words::laws::words_are_numbers;

/// Exactly the grid texts are read, each with its rows.
pub fn grid_texts_are_read()
    ensures { (bounds : Bounds) (type : Ty) → IsBounds bounds → AcceptsGridTexts bounds type }
{
    words_are_numbers();
}

/// All rows of runs are inside and rise, and so do those of a text that is read.
pub fn runs_are_rows()
    ensures runs { (version : Version) (bounds : Bounds) → RunsAreRows version bounds }
    ensures read { (bounds : Bounds) (type : Ty) → ReadsRows bounds type }
{
    // for the laws that they ensure
    words_are_numbers();
    strict_order();
}

/// A fault is there, and all before it is well.
pub fn faults_are_first()
    ensures { (bounds : Bounds) (type : Ty) → FaultsAreFirst bounds type }
{
    // for the laws that it ensures
    words_are_numbers();
}

/// Reading the text of rows gives the rows again.
pub fn written_is_read()
    ensures { (bounds : Bounds) (type : Ty) → IsBounds bounds → ReadsWritten bounds type }
{
    grid_texts_are_read();
}

/// Reading a dump gives its rows again.
pub fn dump_is_read()
    ensures { (shape : Shape) → ReadsDump shape }
{
    written_is_read();
    // for the laws that they ensure
    closure_members();
    strict_order();
}
