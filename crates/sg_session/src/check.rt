ghost use Rattle.std.specs.Prelude.{◌≡◌, ◌++◌, length, IfOk, OnOk};
ghost use Rattle.sg_session.specs.Texts as spec;

use crate::compiled::Compiled;
use sg_ast::Name;
use sg_names::Names;
use sg_words::{Items, Memory, Text};
use std::alloc::Global;

/// For each kernel in order a line that says whether it is neutral or layout-bound.
pub fn check_text(alloc: Global, compiled: &Compiled) -> Result<Text, Memory>
    ensures { IfOk result (λ text. text.bytes ≡ spec.check_text compiled.now.names compiled.now.neutral) }
{
    let mut bytes = Vec::new(alloc);
    push_lines(&mut bytes, &compiled.names, compiled.neutral.as_slice())?;
    Ok(Text {
        bytes: Items::from_vec(bytes),
    })
}

/// Adds the lines of all kernels. More than a u32 counts are never in memory.
fn push_lines(bytes: &mut Vec<u8>, names: &Names, neutral: &[bool]) -> Result<(), Memory>
    requires { length neutral.now ≡ length names.now.kernels }
    ensures { OnOk result (bytes.new.items ≡ bytes.old.items ++ spec.check_lines names.now.kernels neutral.now) }
{
    for number in 0..neutral.len() {
        if number > u32::MAX as usize {
            return Err(Memory);
        }
        push_line(bytes, names.kernel_name(number as u32), neutral[number])?;
    }
    Ok(())
}

/// Adds the line of a kernel.
fn push_line(bytes: &mut Vec<u8>, name: &Name, neutral: bool) -> Result<(), Memory>
    ensures { OnOk result (bytes.new.items ≡ bytes.old.items ++ spec.check_line name.now neutral) }
{
    bytes.extend_from_slice(b"kernel ")?;
    bytes.extend_from_slice(name.text.as_slice())?;
    bytes.push(b' ')?;
    bytes.extend_from_slice(neutral_word(neutral))?;
    bytes.push(b'\n')?;
    Ok(())
}

fn neutral_word(neutral: bool) -> &'static [u8]
    ensures { result.now ≡ spec.neutral_word neutral }
{
    if neutral { b"neutral" } else { b"layout-bound" }
}
