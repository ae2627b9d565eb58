ghost use Rattle.std.specs.Prelude.{IsTrue};
ghost use Rattle.sg_types.specs.steps.Standing.{fields_stand};

use sg_names::Names;
use std::alloc::Global;

/// What is known in a kernel before its loop: its number, the names of the program, and how many constants earlier items declare.
#[derive(Clone, Copy)]
pub(crate) struct Known<'a> {
    pub alloc: Global,
    pub kernel: u32,
    pub names: &'a Names,
    pub constants: u32,
    ghost stands: { IsTrue (fields_stand names.now) },
}
