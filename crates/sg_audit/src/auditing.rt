//! The verdict on bytes as a journal.

ghost use Rattle.std.specs.Prelude.{◌≡◌, ◌+◌, ◌^◌, ◌<◌, IfOk, length};
ghost use Rattle.sg_audit.specs.Reading.{entries_of, entry_of};
ghost use Rattle.sg_audit.specs.Auditing.{audited};
ghost use Rattle.sg_audit.specs.steps.Stepping.{StepsFrom};

use crate::reading::{Entry, entry_of, first_line};
use crate::tables::Tables;
use crate::verdict::Verdict;
use sg_layout::Layouts;
use sg_words::Memory;
use std::alloc::Global;

/// The verdict on bytes as a journal of containers of layouts. In time by how many bytes there are, times the logarithm of the
/// greatest cap.
pub fn audit(alloc: Global, bytes: &[u8], layouts: &Layouts) -> Result<Verdict, Memory>
    requires { length bytes.now + 1 < 2 ^ 32 }
    ensures { IfOk result (λ verdict. verdict ≡ audited layouts.now.list bytes.now) }
{
    let mut tables = Tables::make(alloc, layouts)?;
    let mut rest = bytes;
    for line in 1..u32::MAX {
        let Some((text, later)) = first_line(rest) else {
            return Ok(Verdict::No { line });
        };
        if let Some(verdict) = step(&mut tables, line, text, later)? {
            return Ok(verdict);
        }
        rest = later;
    }
    Ok(Verdict::No { line: u32::MAX })
}

/// Follows the line with this number, from what is held before it, with what stands behind it; the verdict, if it is the last line
/// that counts.
fn step(
    tables: &mut Tables,
    line: u32,
    text: &[u8],
    later: &[u8],
) -> Result<Option<Verdict>, Memory>
    requires { line + 1 < 2 ^ 32 }
    ensures { IfOk result (StepsFrom tables.old tables.new line (entry_of text.now) (entries_of later.now)) }
{
    match entry_of(text) {
        Entry::Bad => Ok(Some(Verdict::No { line })),
        Entry::End if later.is_empty() => Ok(Some(Verdict::Yes)),
        Entry::End => Ok(Some(Verdict::No { line: line + 1 })),
        Entry::Written(written) => {
            if tables.follow(written)? {
                Ok(None)
            } else {
                Ok(Some(Verdict::No { line }))
            }
        }
    }
}
