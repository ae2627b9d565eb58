//! What compiling keeps, and what loads can't do, each as the contract of a function that does nothing.

ghost use Rattle.sg_session.specs.Independence.{LayoutsDontMatter};
ghost use Rattle.sg_session.specs.Laws.{CommandsAreKept, CompilingKeepsTasks, LoadsStayInside};

use sg_coord::{Extents, numbering};
use sg_grid::laws::runs_are_rows;
use sg_layout::laws::{closure_closes, points_in_order};
use sg_parser::laws::parsed_is_spelled;
use sg_types::laws::{declared_layouts_fit, typed_is_well_typed, variables_are_numbered};
use sg_words::laws::words_are_numbers;

// Any extents: the laws of coordinates are of all bounds.
const ONE_POINT: Extents = Extents {
    n: 1,
    a: 1,
    b: 1,
    c: 1,
};

/// The commands of a compiled program are those of its file, one for one and in order.
pub fn commands_are_kept()
    ensures { CommandsAreKept }
{}

/// A task of a compiled program means what it means in each program that is compiled to it.
pub fn compiling_keeps_tasks()
    ensures { CompilingKeepsTasks }
{}

/// No load writes outside.
pub fn loads_stay_inside()
    ensures { LoadsStayInside }
{
    // for the law that it ensures
    runs_are_rows();
}

/// The programs of two files that differ in the nodes of their layouts alone, and run neutral kernels alone, leave the same values after
/// each command and at the end, and draw the same images.
pub fn layouts_dont_matter()
    ensures { LayoutsDontMatter }
{
    // for the laws that they ensure
    numbering(&ONE_POINT);
    points_in_order();
    closure_closes();
    words_are_numbers();
    parsed_is_spelled();
    declared_layouts_fit();
    typed_is_well_typed();
    variables_are_numbered();
}
