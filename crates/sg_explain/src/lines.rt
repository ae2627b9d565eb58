//! Lines and columns, and the line of a place with a caret below it.

use crate::cuts::{bytes_behind, front_bytes};
use crate::place::Place;
use sg_words::Memory;
use std::alloc::Global;

/// A line and a column, from 1. Columns count characters: a byte from 128 to 191 belongs to the one before it.
#[derive(Clone, Copy, Debug, PartialEq, Eq)]
pub struct LineColumn {
    pub line: u32,
    pub column: u32,
}

/// Whether a byte goes on with a character.
fn goes_on(byte: u8) -> bool {
    byte >= 128 && byte < 192
}

/// The position behind these bytes.
pub fn position(before: &[u8]) -> LineColumn {
    let mut line: u32 = 1;
    let mut column: u32 = 1;
    for byte in before {
        if *byte == b'\n' {
            line = line.saturating_add(1);
            column = 1;
        } else if !goes_on(*byte) {
            column = column.saturating_add(1);
        }
    }
    LineColumn { line, column }
}

/// How many bytes stand up to the last newline, it counted.
fn line_start(before: &[u8]) -> usize {
    let mut start = 0;
    for (at, byte) in before.iter().enumerate() {
        if *byte == b'\n' {
            start = at.saturating_add(1);
        }
    }
    start
}

/// How many bytes the first line has, without its newline.
fn line_len(bytes: &[u8]) -> usize {
    bytes.iter().take_while(|byte| **byte != b'\n').count()
}

/// Adds blanks under bytes, a tab under a tab.
fn push_blanks(text: &mut Vec<u8>, bytes: &[u8]) -> Result<(), Memory> {
    for byte in bytes {
        if *byte == b'\t' {
            text.push(b'\t')?;
        } else if !goes_on(*byte) {
            text.push(b' ')?;
        }
    }
    Ok(())
}

/// Adds a caret under each character, and at least one.
fn push_carets(text: &mut Vec<u8>, bytes: &[u8]) -> Result<(), Memory> {
    text.push(b'^')?;
    for byte in bytes.iter().skip(1) {
        if !goes_on(*byte) {
            text.push(b'^')?;
        }
    }
    Ok(())
}

/// The bytes of a place.
pub(crate) fn bytes_of(bytes: &[u8], place: Place) -> &[u8] {
    let behind = bytes_behind(bytes, place.from as usize);
    front_bytes(behind, place.to.saturating_sub(place.from) as usize)
}

/// The position of a place.
pub fn position_of(bytes: &[u8], place: Place) -> LineColumn {
    position(front_bytes(bytes, place.from as usize))
}

/// Adds a text.
pub(crate) fn push_text(text: &mut Vec<u8>, more: &str) -> Result<(), Memory> {
    text.extend_from_slice(more.as_bytes())?;
    Ok(())
}

/// Adds bytes between backquotes.
pub(crate) fn push_quoted(text: &mut Vec<u8>, name: &[u8]) -> Result<(), Memory> {
    text.push(b'`')?;
    text.extend_from_slice(name)?;
    text.push(b'`')?;
    Ok(())
}

/// Adds a number.
pub(crate) fn push_number(alloc: Global, text: &mut Vec<u8>, number: u64) -> Result<(), Memory> {
    let digits = format!(in alloc; "{number}")?;
    text.extend_from_slice(digits.as_bytes())?;
    Ok(())
}

/// How many bytes of a line are shown before a place, and from it on.
const COLUMNS_BEFORE: usize = 60;

const COLUMNS_BEHIND: usize = 60;

/// Adds the first line of a place with its number, and below it a caret under each character of the place, up to the line's end.
pub fn push_shown(
    alloc: Global,
    text: &mut Vec<u8>,
    bytes: &[u8],
    place: Place,
) -> Result<(), Memory> {
    let before = front_bytes(bytes, place.from as usize);
    let behind = bytes_behind(bytes, place.from as usize);
    let number = position(before).line;
    let line = bytes_behind(before, line_start(before));
    let head = bytes_behind(line, line.len().saturating_sub(COLUMNS_BEFORE));
    let tail = front_bytes(front_bytes(behind, line_len(behind)), COLUMNS_BEHIND);
    let marked = front_bytes(tail, place.to.saturating_sub(place.from) as usize);
    let label = format!(in alloc; "{number:>5}")?;
    text.extend_from_slice(label.as_bytes())?;
    text.extend_from_slice(b" | ")?;
    text.extend_from_slice(head)?;
    text.extend_from_slice(tail)?;
    text.extend_from_slice(b"\n      | ")?;
    push_blanks(text, head)?;
    push_carets(text, marked)?;
    text.push(b'\n')?;
    Ok(())
}
