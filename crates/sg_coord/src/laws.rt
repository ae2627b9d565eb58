ghost use Rattle.std.specs.Prelude.{◌≡◌, ◌<◌, ◌≤◌, ◌↔◌};
ghost use Rattle.sg_coord.specs.Bounds.{IsBounds, bounds_of};
ghost use Rattle.sg_coord.specs.Coord.{Inside, row_of, ComesBefore};
ghost use Rattle.sg_coord.specs.Slices.{IsPartition};
ghost use Rattle.sg_coord.specs.Laws.{InsideTest, OrderTest, OrderCarriesOver, OrderIsStrict, OrderIsTotal, PointInside, RowOfPoint, RowBelow, PointOfRow, RowOrder, PointsRise, SlicesPartition};

use crate::coord::Coord;
use crate::extents::Extents;

/// The numbers below the volume and the coordinates inside match one to one.
pub fn numbering(extents: &Extents)
    ensures bounds { IsBounds (bounds_of extents.now) }
    ensures inside_test { InsideTest }
    ensures point_inside { PointInside }
    ensures row_of_point { RowOfPoint }
    ensures row_below { RowBelow }
    ensures point_of_row { PointOfRow }
    ensures points_rise { PointsRise }
{}

/// Row order is a strict order, and total among coordinates with as many axes.
pub fn strict_order()
    ensures test { OrderTest }
    ensures carries_over { OrderCarriesOver }
    ensures strict { OrderIsStrict }
    ensures total { OrderIsTotal }
{}

/// Among the coordinates inside, row order is the order of their row numbers.
pub fn row_order(extents: &Extents, x: Coord, y: Coord)
    requires x_inside { Inside (bounds_of extents.now) x }
    requires y_inside { Inside (bounds_of extents.now) y }
    ensures here { ComesBefore x y
        ↔ (row_of (bounds_of extents.now) x < row_of (bounds_of extents.now) y) }
    ensures everywhere { RowOrder }
{}

/// The slices of the workers partition `0..len`.
pub fn slices_partition(len: usize, workers: u32)
    requires { 1 ≤ workers }
    ensures here { IsPartition len workers }
    ensures everywhere { SlicesPartition }
{}
