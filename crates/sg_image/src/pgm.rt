//! The image of a field.

ghost use Rattle.std.specs.Prelude.{◌≡◌, ◌<◌, ◌≤◌, ◌^◌, ◌++◌, length, pos, neg_ℤ, ◌≤ℤ◌, ◌<ℤ◌, [], ◌∷◌, decimal, if◌then◌else◌, IfOk, OnOk, string_bytes};
ghost use Rattle.sg_coord.specs.Bounds.{volume};
ghost use Rattle.sg_layout.specs.Axes.{bounds_of_shape};
ghost use Rattle.sg_flat.specs.declared.state.FlatLayout.{FlatLayout};
ghost use Rattle.sg_store.specs.StandsFor.{StandsFor};
ghost use Rattle.sg_image.specs.Limits.{most_image_points};
ghost use Rattle.sg_image.specs.Pgm.{pgm_head, ends_line, image_row_text, image_rows_text};
ghost use Rattle.sg_image.specs.Image.{type_of_field, image_text};
ghost use Rattle.sg_image.specs.steps.Keeping.{kept_word, kept_grey};

use crate::grey::Shades;
use sg_coord::{Coord, coord_of, numbering};
use sg_layout::Layout;
use sg_store::Store;
use sg_store::laws::cells_are_active;
use sg_words::{Items, Memory, Text, Ty};
use std::alloc::{AllocError, Global};

/// The most points of an image.
pub const MOST_IMAGE_POINTS: u32 = 1 << 20;

/// The most values on a line.
const VALUES_OF_A_LINE: u32 = 11;

/// The plain PGM of Netpbm ("P2") of a field, from 0, of a layout with 2 axes: the first one downwards, the second one to the right.
/// Numbers up to `lo` are black, those from `hi` on are white.
pub fn image(alloc: Global, store: &Store, place: u32, lo: i64, hi: i64) -> Result<Text, Memory>
    requires field { place < length store.now.shape.fields }
    requires plane { store.now.shape.axes ≡ 2 }
    requires points { volume (bounds_of_shape store.now.shape) ≤ most_image_points }
    requires rising { lo <ℤ hi }
    requires lo_low { neg_ℤ (pos (2 ^ 32)) ≤ℤ lo }
    requires hi_high { hi ≤ℤ pos (2 ^ 32) }
    ensures { IfOk result (λ text. (flat : FlatLayout) → StandsFor store.now flat →
        text.bytes ≡ image_text store.now.shape flat place lo hi) }
{
    let layout = store.layout();
    let extents = layout.extents();
    // for the laws that they ensure
    cells_are_active();
    numbering(&extents);
    let ty = type_of_field(layout, place);
    let shades = Shades { ty, lo, hi };
    let mut text = first_lines(alloc, extents.b, extents.a)?;
    push_rows(&mut text, store, place, &shades, extents.b, extents.a)?;
    Ok(Text {
        bytes: Items::from_vec(text.into_bytes()),
    })
}

/// The lines above the values.
fn first_lines(alloc: Global, width: u32, height: u32) -> Result<String, AllocError>
    ensures { IfOk result (λ text. string_bytes text ≡ pgm_head width height) }
{
    let lines = format!(in alloc; "P2\n{width} {height}\n255\n")?;
    Ok(lines)
}

/// Adds the lines of all rows of the image.
fn push_rows(
    text: &mut String,
    store: &Store,
    place: u32,
    shades: &Shades,
    width: u32,
    height: u32,
) -> Result<(), AllocError>
    requires field { place < length store.now.shape.fields }
    requires width { width < 2 ^ 31 }
    requires height { height < 2 ^ 31 }
    ensures { OnOk result (string_bytes text.new ≡ string_bytes text.old ++ image_rows_text width height
        (kept_grey store.now place shades.now.ty shades.now.lo shades.now.hi)) }
{
    for row in 0..height {
        push_row(text, store, place, shades, row, width)?;
    }
    Ok(())
}

/// Adds the lines of a row of the image.
fn push_row(
    text: &mut String,
    store: &Store,
    place: u32,
    shades: &Shades,
    row: u32,
    width: u32,
) -> Result<(), AllocError>
    requires field { place < length store.now.shape.fields }
    requires row { row < 2 ^ 31 }
    requires width { width < 2 ^ 31 }
    ensures { OnOk result (string_bytes text.new ≡ string_bytes text.old
        ++ image_row_text width (kept_grey store.now place shades.now.ty shades.now.lo shades.now.hi row)) }
{
    for column in 0..width {
        let word = kept_word(store, place, coord_of(2, row, column, 0));
        let value = shades.grey(word);
        push_value(text, value, ends_line(width, column))?;
    }
    Ok(())
}

/// Adds a value, with a newline after it if it ends its line, else a space.
fn push_value(text: &mut String, value: u64, ends: bool) -> Result<(), AllocError>
    ensures { OnOk result (string_bytes text.new
        ≡ string_bytes text.old ++ decimal value ++ (if ends then 10 else 32) ∷ []) }
{
    if ends {
        write!(text, "{value}\n")
    } else {
        write!(text, "{value} ")
    }
}

/// Whether a line ends after the value in a column: it is the last of the row, or the line is full.
fn ends_line(width: u32, column: u32) -> bool
    requires { column < width }
    ensures { result ≡ ends_line width column }
{
    column + 1 == width || (column + 1) % VALUES_OF_A_LINE == 0
}

/// The type of a field.
fn type_of_field(layout: &Layout, place: u32) -> Ty
    ensures { result ≡ type_of_field layout.now place }
{
    match layout.shape().fields.get(place as usize) {
        Some(ty) => *ty,
        None => Ty::I32,
    }
}

/// The word that the store keeps of a field at a coordinate; 0 if it has no cell.
fn kept_word(store: &Store, place: u32, at: Coord) -> u32
    requires { place < length store.now.shape.fields }
    ensures { result ≡ kept_word store.now place at }
{
    match store.cell_of(at) {
        Some(cell) => store.value(place, cell),
        None => 0,
    }
}
