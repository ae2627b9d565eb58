ghost use Rattle.std.specs.Prelude.{◌≡◌, ◌++◌, length, IfOk, OnOk};
ghost use Rattle.sg_session.specs.Texts as spec;

use crate::compiled::Compiled;
use sg_ast::Name;
use sg_ir::{KernelCode, text};
use sg_names::Names;
use sg_words::{Items, Memory, Text};
use std::alloc::Global;

/// For each kernel in order the lines of its slice and of its code.
pub fn lower_text(alloc: Global, compiled: &Compiled) -> Result<Text, Memory>
    ensures { IfOk result (λ text. text.bytes ≡ spec.lower_text compiled.now.names compiled.now.kernels) }
{
    let mut bytes = Vec::new(alloc);
    push_codes(
        alloc,
        &mut bytes,
        &compiled.names,
        compiled.kernels.as_slice(),
    )?;
    Ok(Text {
        bytes: Items::from_vec(bytes),
    })
}

/// Adds the lines of all kernels. More than a u32 counts are never in memory.
fn push_codes(
    alloc: Global,
    bytes: &mut Vec<u8>,
    names: &Names,
    kernels: &[KernelCode],
) -> Result<(), Memory>
    requires { length kernels.now ≡ length names.now.kernels }
    ensures { OnOk result (bytes.new.items ≡ bytes.old.items ++ spec.lines_of_kernels names.now.kernels kernels.now) }
{
    for number in 0..kernels.len() {
        if number > u32::MAX as usize {
            return Err(Memory);
        }
        let name = names.kernel_name(number as u32);
        push_code(alloc, bytes, name, &kernels[number])?;
    }
    Ok(())
}

/// Adds the lines of a kernel.
fn push_code(
    alloc: Global,
    bytes: &mut Vec<u8>,
    name: &Name,
    kernel: &KernelCode,
) -> Result<(), Memory>
    ensures { OnOk result (bytes.new.items ≡ bytes.old.items ++ spec.lines_of_kernel name.now kernel.now) }
{
    let slice = text(alloc, &kernel.slice)?;
    let code = text(alloc, &kernel.code)?;
    bytes.extend_from_slice(b"kernel ")?;
    bytes.extend_from_slice(name.text.as_slice())?;
    bytes.extend_from_slice(b"\nslice\n")?;
    bytes.extend_from_slice(slice.bytes.as_slice())?;
    bytes.extend_from_slice(b"code\n")?;
    bytes.extend_from_slice(code.bytes.as_slice())?;
    Ok(())
}
