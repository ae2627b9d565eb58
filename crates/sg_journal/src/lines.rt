//! The lines of a journal.

ghost use Rattle.std.specs.Prelude.{◌≡◌, ◌++◌, OnOk};
ghost use Rattle.sg_journal.specs.Lines.{line_text, behind_space};

use itoa::Buffer;
use std::alloc::AllocError;

/// A held container or chunk: its layout, from 0, its node, from 1, its number, and where it stands: `parent` is 0 if a slot of the
/// root segment holds it, else one more than the number of the container that does.
#[derive(Clone, Copy, Debug, PartialEq, Eq)]
pub struct Link {
    pub layout: u32,
    pub node: u32,
    pub number: u32,
    pub parent: u32,
    pub slot: u32,
}

/// A line of a journal before its end: a number of a node has come to stand in a slot, or stands in none any more.
#[derive(Clone, Copy, Debug, PartialEq, Eq)]
pub enum Line {
    Take(Link),
    Free { layout: u32, node: u32, number: u32 },
}

/// Adds a line. Where memory runs out some of it may stand after the text.
pub(crate) fn push_line(into: &mut Vec<u8>, line: Line) -> Result<(), AllocError>
    ensures { OnOk result (into.new.items ≡ into.old.items ++ line_text line) }
{
    match line {
        Line::Take(link) => {
            push_bytes(into, b"take")?;
            push_number(into, link.layout)?;
            push_number(into, link.node)?;
            push_number(into, link.number)?;
            push_number(into, link.parent)?;
            push_number(into, link.slot)?;
        }
        Line::Free {
            layout,
            node,
            number,
        } => {
            push_bytes(into, b"free")?;
            push_number(into, layout)?;
            push_number(into, node)?;
            push_number(into, number)?;
        }
    }
    push_bytes(into, b"\n")
}

/// Adds a space and a number.
fn push_number(into: &mut Vec<u8>, number: u32) -> Result<(), AllocError>
    ensures { OnOk result (into.new.items ≡ into.old.items ++ behind_space number) }
{
    push_bytes(into, b" ")?;
    push_bytes(into, Buffer::new().format(number).as_bytes())
}

/// Adds bytes.
fn push_bytes(into: &mut Vec<u8>, bytes: &[u8]) -> Result<(), AllocError>
    ensures { OnOk result (into.new.items ≡ into.old.items ++ bytes.now) }
{
    into.extend_from_slice(bytes)
}
