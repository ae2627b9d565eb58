ghost use Rattle.std.specs.Prelude.{List};
ghost use Rattle.sg_coord.specs.Bounds.{Bounds};
ghost use Rattle.sg_layout.specs.declared.shape.NodeShape.{NodeShape};
ghost use Rattle.sg_layout.specs.declared.shape.Shape.{Shape};
ghost use Rattle.sg_layout.specs.ClosureLaws.{PointsAreInside, PointsFillVolume, PointsAreNumbered, PointsAreInOrder, ClosureIsTested, ClosureIsInside, ClosureIsInOrder, ClosureIsOfMembers, ClosureExtends, ClosureGrows, ClosureIsClosed, ClosureAbsorbs, DenseIsFull};
ghost use Rattle.sg_layout.specs.RuleLaws.{AcceptedKeepsRules, FaultIsFirst};
ghost use Rattle.sg_layout.specs.PathLaws.{WholePathIsOffsets, CoordinateOfPath, PathTellsCoordinate, PathIsSlot, SlotIsPath, SlotIsReached, SlotsFillVolume, SlotHasNumber, NumberHasSlot, SlotsAreListed, SlotsAreCounted, SlotsAreInOrder, NoneDecides, LastDecides, SlotDecides};
ghost use Rattle.sg_layout.specs.LiveLaws.{LiveGrows, LiveIsOfMembers, ClosureIsLive, LiveAbsorbs};
ghost use Rattle.sg_layout.specs.NeedLaws.{NeedGrows, NeedIsOfMembers, FullIsOfMembers, NeedAbsorbs, FullAbsorbs, ReachedAreLive, ReachedOnce, ParentsHaveLive, LiveUpToGreatest, ChunksHaveRoom};

use sg_coord::{Extents, numbering};

// Any extents: the laws of coordinates are of all bounds.
const ONE_POINT: Extents = Extents {
    n: 1,
    a: 1,
    b: 1,
    c: 1,
};

/// The rules decide which shapes are accepted, and a fault is the first.
pub fn rules_decide()
    ensures accepted { (shape : Shape) → AcceptedKeepsRules shape }
    ensures refused { (shape : Shape) → FaultIsFirst shape }
{}

/// Whatever the bounds, the points are the coordinates inside, each once, in row order.
pub fn points_in_order()
    ensures inside { (bounds : Bounds) → PointsAreInside bounds }
    ensures volume { (bounds : Bounds) → PointsFillVolume bounds }
    ensures numbered { (bounds : Bounds) → PointsAreNumbered bounds }
    ensures in_order { (bounds : Bounds) → PointsAreInOrder bounds }
{
    // for the laws that it ensures
    numbering(&ONE_POINT);
}

/// What a closure of any shape has: points, in row order, those that pass the test.
pub fn closure_members()
    ensures tested { (shape : Shape) → ClosureIsTested shape }
    ensures inside { (shape : Shape) → ClosureIsInside shape }
    ensures in_order { (shape : Shape) → ClosureIsInOrder shape }
    ensures of_members { (shape : Shape) → ClosureIsOfMembers shape }
{
    // for the laws that they ensure
    points_in_order();
    numbering(&ONE_POINT);
}

/// A closure of any shape has the coordinates inside of its list, grows with it, and is closed.
pub fn closure_closes()
    ensures extends { (shape : Shape) → ClosureExtends shape }
    ensures grows { (shape : Shape) → ClosureGrows shape }
    ensures closed { (shape : Shape) → ClosureIsClosed shape }
    ensures absorbs { (shape : Shape) → ClosureAbsorbs shape }
{
    // for the laws that they ensure
    points_in_order();
    numbering(&ONE_POINT);
}

/// Where all nodes are dense, everything inside is active always, and nothing runs full.
pub fn dense_is_full()
    ensures { (shape : Shape) → DenseIsFull shape }
{
    // for the laws that they ensure
    points_in_order();
    numbering(&ONE_POINT);
}

/// Whatever the nodes, their slots are numbered from 0 to below the product of the sizes.
pub fn slots_numbered()
    ensures has_number { (nodes : List NodeShape) → SlotHasNumber nodes }
    ensures has_slot { (nodes : List NodeShape) → NumberHasSlot nodes }
    ensures listed { (nodes : List NodeShape) → SlotsAreListed nodes }
    ensures counted { (nodes : List NodeShape) → SlotsAreCounted nodes }
    ensures in_order { (nodes : List NodeShape) → SlotsAreInOrder nodes }
{}

/// The whole path of a coordinate inside tells the coordinate, and each slot of the last node is one.
pub fn paths_tell()
    ensures whole { (shape : Shape) → WholePathIsOffsets shape }
    ensures coordinate { (shape : Shape) → CoordinateOfPath shape }
    ensures tells { (shape : Shape) → PathTellsCoordinate shape }
    ensures is_slot { (shape : Shape) → PathIsSlot shape }
    ensures is_path { (shape : Shape) → SlotIsPath shape }
    ensures reached { (shape : Shape) → SlotIsReached shape }
    ensures fill { (shape : Shape) → SlotsFillVolume shape }
{
    // for the laws that they ensure
    numbering(&ONE_POINT);
}

/// The last node that isn't dense decides what is active, slot by slot.
pub fn last_sparse_decides()
    ensures none { (shape : Shape) → NoneDecides shape }
    ensures last { (shape : Shape) → LastDecides shape }
    ensures by_slot { (shape : Shape) → SlotDecides shape }
{
    // for the laws that they ensure
    numbering(&ONE_POINT);
}

/// Needs are of the members of a list alone, and grow with it.
pub fn need_grows()
    ensures grows { (shape : Shape) → NeedGrows shape }
    ensures of_members { (shape : Shape) → NeedIsOfMembers shape }
    ensures full { (shape : Shape) → FullIsOfMembers shape }
{}

/// Closing a part of a list first changes no need.
pub fn need_absorbs()
    ensures absorbs { (shape : Shape) → NeedAbsorbs shape }
    ensures full { (shape : Shape) → FullAbsorbs shape }
{
    // for the laws that they ensure
    points_in_order();
    numbering(&ONE_POINT);
}

/// What a need counts: live slots, and at a dynamic node the chunks for the live indices under each parent.
pub fn need_counts_live()
    ensures live { (shape : Shape) → ReachedAreLive shape }
    ensures once { (shape : Shape) → ReachedOnce shape }
    ensures parents { (shape : Shape) → ParentsHaveLive shape }
    ensures greatest { (shape : Shape) → LiveUpToGreatest shape }
    ensures room { (shape : Shape) → ChunksHaveRoom shape }
{}

/// What is live for a list is of its members alone, and grows with it.
pub fn live_grows()
    ensures grows { (shape : Shape) → LiveGrows shape }
    ensures of_members { (shape : Shape) → LiveIsOfMembers shape }
{}

/// The slots of a closure are live for its list, and closing a part of a list first makes no other live.
pub fn live_absorbs()
    ensures closure { (shape : Shape) → ClosureIsLive shape }
    ensures absorbs { (shape : Shape) → LiveAbsorbs shape }
{
    // for the laws that they ensure
    points_in_order();
    numbering(&ONE_POINT);
}
