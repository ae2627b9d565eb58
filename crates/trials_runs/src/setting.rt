//! What is looked at of the program that a file is compiled to.

use sg_ir::well_typed;
use sg_session::{Compiled, Refusal, check_text, compile, lower_text};
use sg_words::{Items, Memory, Stop, Text};
use std::alloc::Global;

/// Why a file is refused; or the lines of its kernels, the text of their code, and whether all code is well typed.
#[derive(Drop)]
pub struct Told {
    pub refusal: Option<Refusal>,
    pub lines: Text,
    pub codes: Text,
    pub typed: bool,
}

fn no_text(alloc: Global) -> Text {
    Text {
        bytes: Items::new(alloc),
    }
}

/// Whether the slice and the code of each kernel are well typed.
fn all_typed(compiled: &Compiled) -> bool {
    for kernel in compiled.kernels.as_slice() {
        if !well_typed(&kernel.slice, &compiled.layouts)
            || !well_typed(&kernel.code, &compiled.layouts)
        {
            return false;
        }
    }
    true
}

fn look_at(alloc: Global, compiled: &Compiled) -> Result<Told, Memory> {
    let typed = all_typed(compiled);
    let lines = check_text(alloc, compiled)?;
    let codes = lower_text(alloc, compiled)?;
    Ok(Told {
        refusal: None,
        lines,
        codes,
        typed,
    })
}

/// Compiles a file, which is short enough for it.
pub fn look(alloc: Global, file: &str) -> Result<Told, Memory> {
    if file.len() > 65_536 {
        return Err(Memory);
    }
    match compile(alloc, file.as_bytes()) {
        Ok(compiled) => look_at(alloc, &compiled),
        Err(Stop::Refused(refusal)) => Ok(Told {
            refusal: Some(refusal),
            lines: no_text(alloc),
            codes: no_text(alloc),
            typed: false,
        }),
        Err(Stop::Memory) => Err(Memory),
    }
}

/// Why a file is refused, if it is.
pub fn refusal(alloc: Global, file: &str) -> Result<Option<Refusal>, Memory> {
    let told = look(alloc, file)?;
    Ok(told.refusal)
}

/// Whether a file is compiled, and the lines of its kernels are these.
pub fn has_lines(alloc: Global, file: &str, lines: &str) -> Result<bool, Memory> {
    let told = look(alloc, file)?;
    Ok(told.refusal == None && told.typed && told.lines.bytes.as_slice() == lines.as_bytes())
}

/// Whether a file is compiled, and its code is well typed and has this text.
pub fn has_codes(alloc: Global, file: &str, codes: &str) -> Result<bool, Memory> {
    let told = look(alloc, file)?;
    Ok(told.refusal == None && told.typed && told.codes.bytes.as_slice() == codes.as_bytes())
}
