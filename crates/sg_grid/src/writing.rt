//! Writing a grid text.

ghost use Rattle.std.specs.Prelude.{◌≡◌, [], ◌∷◌, ◌++◌, decimal, if◌then◌else◌, IfOk, OnOk, string_bytes};
ghost use Rattle.std.specs.Fmt.{signed_decimal};
ghost use Rattle.sg_grid.specs.GridText as spec;
ghost use Rattle.sg_grid.specs.GridText.{GoesOn};

use crate::grid::GridRow;
use itoa::Buffer;
use sg_coord::Coord;
use sg_words::{Memory, Ty, number};
use std::alloc::{AllocError, Global};

/// The grid text of rows over so many axes, for a field of the type.
pub fn grid_text(alloc: Global, axes: u32, ty: Ty, rows: &[GridRow]) -> Result<String, Memory>
    ensures { IfOk result (λ text. string_bytes text ≡ spec.grid_text axes ty rows.now) }
{
    let mut text = first_line(alloc, axes, rows.len())?;
    for row in rows {
        push_row(&mut text, ty, *row)?;
    }
    Ok(text)
}

/// The first line of a grid text.
pub(crate) fn first_line(alloc: Global, axes: u32, count: usize) -> Result<String, AllocError>
    ensures { IfOk result (λ text. string_bytes text ≡ spec.grid_head axes ++ decimal count ++ 10 ∷ []) }
{
    let line = format!(in alloc; "grid {axes} {count}\n")?;
    Ok(line)
}

/// Adds the line of a row. Where memory runs out some of it may stand after the text.
pub fn push_row(text: &mut String, ty: Ty, row: GridRow) -> Result<(), AllocError>
    ensures line { OnOk result (string_bytes text.new ≡ string_bytes text.old ++ spec.row_text ty row) }
    ensures on { GoesOn (string_bytes text.old) (string_bytes text.new) }
{
    push_coordinate(text, row.at)?;
    push_text(text, " ")?;
    push_number(text, number(ty, row.word))?;
    push_text(text, "\n")
}

/// Adds the parts of a coordinate, with a space between them. Where memory runs out some of them may stand after the text.
pub fn push_coordinate(text: &mut String, at: Coord) -> Result<(), AllocError>
    ensures parts { OnOk result (string_bytes text.new ≡ string_bytes text.old ++ spec.coordinate_text at) }
    ensures on { GoesOn (string_bytes text.old) (string_bytes text.new) }
{
    push_number(text, at.a as i64)?;
    push_further(text, at.n >= 2, at.b as i64)?;
    push_further(text, at.n >= 3, at.c as i64)
}

/// Adds a space and a number, if there is one.
fn push_further(text: &mut String, there: bool, number: i64) -> Result<(), AllocError>
    ensures part { OnOk result (string_bytes text.new ≡ string_bytes text.old ++ (if there then 32 ∷ signed_decimal number else [])) }
    ensures on { GoesOn (string_bytes text.old) (string_bytes text.new) }
{
    if !there {
        return Ok(());
    }
    push_text(text, " ")?;
    push_number(text, number)
}

/// Adds a number.
fn push_number(text: &mut String, number: i64) -> Result<(), AllocError>
    ensures digits { OnOk result (string_bytes text.new ≡ string_bytes text.old ++ signed_decimal number) }
    ensures on { GoesOn (string_bytes text.old) (string_bytes text.new) }
{
    push_text(text, Buffer::new().format(number))
}

/// Adds a piece.
fn push_text(text: &mut String, piece: &str) -> Result<(), AllocError>
    ensures piece { OnOk result (string_bytes text.new ≡ string_bytes text.old ++ piece.now) }
    ensures on { GoesOn (string_bytes text.old) (string_bytes text.new) }
{
    text.push_str(piece)
}
