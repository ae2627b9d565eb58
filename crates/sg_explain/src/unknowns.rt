//! What is said of a name that stands for nothing.

use crate::lines::{bytes_of, position_of, push_number, push_quoted, push_text};
use crate::names::{Kind, Unknown};
use crate::rules::Rule;
use crate::telling::{Asked, push_begin, push_end, push_middle};
use sg_words::Memory;
use std::alloc::Global;

/// What a kind is called, with what stands before it.
fn kind_text(kind: Kind) -> &'static str {
    match kind {
        Kind::Size => "an i32 constant",
        Kind::Unsigned => "a u32 constant",
        Kind::Layout => "a layout",
        Kind::Field => "a field",
        Kind::Kernel => "a kernel",
        Kind::Local => "a local, a variable of a loop or a constant",
    }
}

/// Adds what is said of a name that stands for nothing, or for something else.
pub(crate) fn push_unknown(
    alloc: Global,
    text: &mut Vec<u8>,
    asked: &Asked,
    rule: &Rule,
    unknown: &Unknown,
) -> Result<(), Memory> {
    let place = Some(unknown.place);
    let name = bytes_of(asked.bytes, unknown.place);
    push_begin(alloc, text, asked, place)?;
    push_quoted(text, name)?;
    push_why(alloc, text, asked, unknown)?;
    push_middle(alloc, text, asked, place)?;
    push_instead(text, asked, unknown)?;
    push_end(text, rule)
}

/// Adds why a name stands for nothing.
fn push_why(
    alloc: Global,
    text: &mut Vec<u8>,
    asked: &Asked,
    unknown: &Unknown,
) -> Result<(), Memory> {
    if let Some(other) = unknown.other {
        push_text(text, " is ")?;
        push_text(text, kind_text(other))?;
        push_text(text, ", and here stands ")?;
        push_text(text, kind_text(unknown.kind))?;
        return Ok(());
    }
    if let Some(below) = unknown.below {
        push_text(text, " is declared in line ")?;
        push_number(alloc, text, position_of(asked.bytes, below).line as u64)?;
        return push_text(text, ", and a name is known below its declaration alone");
    }
    push_text(text, " is not known here as ")?;
    push_text(text, kind_text(unknown.kind))?;
    match unknown.nearest {
        Some(nearest) => push_nearest(text, bytes_of(asked.bytes, nearest)),
        None => Ok(()),
    }
}

/// Adds the nearest name.
fn push_nearest(text: &mut Vec<u8>, name: &[u8]) -> Result<(), Memory> {
    push_text(text, ": the nearest name is ")?;
    push_quoted(text, name)
}

/// Adds what to write in the place of a name.
fn push_instead(text: &mut Vec<u8>, asked: &Asked, unknown: &Unknown) -> Result<(), Memory> {
    let name = bytes_of(asked.bytes, unknown.place);
    if unknown.kind == Kind::Local && unknown.other == Some(Kind::Field) {
        text.extend_from_slice(name)?;
        return push_text(text, "[..], with an index for each axis");
    }
    if unknown.below.is_some() {
        return push_text(text, "the declaration above this item");
    }
    match unknown.nearest {
        Some(nearest) => push_bytes(text, bytes_of(asked.bytes, nearest)),
        None => push_declaration(text, unknown.kind, name),
    }
}

/// Adds bytes.
fn push_bytes(text: &mut Vec<u8>, bytes: &[u8]) -> Result<(), Memory> {
    text.extend_from_slice(bytes)?;
    Ok(())
}

/// Adds what to write where no name is near.
fn push_declaration(text: &mut Vec<u8>, kind: Kind, name: &[u8]) -> Result<(), Memory> {
    match kind {
        Kind::Size => {
            push_text(text, "a declaration above: const ")?;
            push_bytes(text, name)?;
            push_text(text, " = 4;")
        }
        Kind::Local => {
            push_text(text, "a local above: let ")?;
            push_bytes(text, name)?;
            push_text(text, " = ..;")
        }
        _ => {
            push_text(text, "the name of ")?;
            push_text(text, kind_text(kind))?;
            push_text(text, " that is declared above")
        }
    }
}
