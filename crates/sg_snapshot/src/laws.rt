//! Laws of images and snapshots. Each function does nothing.

ghost use Rattle.std.specs.Prelude.{◌≡◌, ◌∷◌, [], Ok};
ghost use Rattle.sg_snapshot.specs.FormLaws.{PartsOfBytes, BytesOfParts};
ghost use Rattle.sg_snapshot.specs.SnapLaws.{ImageIsRestored, RestoredIsImage};
ghost use Rattle.sg_snapshot.specs.Restoring.{restored};
ghost use Rattle.sg_snapshot.specs.Examples.{blocks_of, one_block, one_block_bytes};

use sg_coord::{Extents, numbering};
use sg_layout::closure_members;

// Any extents: the laws of coordinates are of all bounds.
const ONE_POINT: Extents = Extents {
    n: 1,
    a: 1,
    b: 1,
    c: 1,
};

/// The bytes of parts are read as these, and bytes that are read as parts are theirs.
pub fn form_is_exact()
    ensures bytes { PartsOfBytes }
    ensures back { BytesOfParts }
{}

/// The image of a flat state that fits is restored to it.
pub fn image_is_restored()
    ensures { ImageIsRestored }
{
    // for the laws that they ensure
    numbering(&ONE_POINT);
    closure_members();
}

/// What is restored is flat and fits, and the bytes are its image.
pub fn restored_is_image()
    ensures { RestoredIsImage }
{
    // for the laws that they ensure
    numbering(&ONE_POINT);
    closure_members();
}

/// A snapshot, worked.
pub fn block_is_restored()
    ensures { restored (blocks_of 2 ∷ []) one_block_bytes ≡ Ok one_block }
{}
