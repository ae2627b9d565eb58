ghost use Rattle.std.specs.Prelude.{◌≡◌, ◌*◌, ◌/◌};

use sg_coord::Extents;

/// A layout's points, cut into blocks of one size: those in which a node of the layout tells the live points.
#[derive(Clone, Copy)]
pub(crate) struct Blocks {
    /// The extents of the layout.
    pub(crate) extents: Extents,
    /// The extents of a block.
    pub(crate) block: Extents,
    /// Whether a block is live as a whole, and not up to a length.
    pub(crate) whole: bool,
    ghost same_axes: { extents.n ≡ block.n },
    ghost a_cut: { extents.a / block.a * block.a ≡ extents.a },
    ghost b_cut: { extents.b / block.b * block.b ≡ extents.b },
    ghost c_cut: { extents.c / block.c * block.c ≡ extents.c },
}
