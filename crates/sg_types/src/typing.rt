ghost use Rattle.std.specs.Prelude.{◌≡◌, ◌≤◌, ◌<◌, ◌+◌, ◌^◌, IsTrue, Ok, length};
ghost use Rattle.sg_words.specs.Answers.{Answers};
ghost use Rattle.sg_ast.specs.Grammar.{is_program};
ghost use Rattle.sg_ast.specs.Limits.{most_tokens};
ghost use Rattle.sg_ast.specs.Program.{program_tokens};
ghost use Rattle.sg_names.specs.Names.{tables_of};
ghost use Rattle.sg_types.specs.steps.Sizes.{item_size};
ghost use Rattle.sg_types.specs.Programs.{typed_program};
ghost use Rattle.sg_types.specs.steps.Standing.{fields_stand};
ghost use Rattle.sg_types.specs.steps.Taking.{Takes};

use crate::fault::TypeFault;
use crate::known::Known;
use crate::typed::{Typed, TypedKernel};
use sg_ast::{Item, Program};
use sg_names::Names;
use sg_words::{Items, Stop};
use std::alloc::Global;

/// The program's kernels, typed, or the first fault: of the first kernel with one, in it of the first statement, in it the first
/// of the codes 4, 5, 3, 2, 1; `laws::faults_decide` says which these are, apart from typing. The grammar's limits on depth and
/// nesting bound how deep the calls go.
pub fn type_program(
    alloc: Global,
    program: &Program,
    names: &Names,
) -> Result<Typed, Stop<TypeFault>>
    requires grammar { IsTrue (is_program program.now) }
    requires tokens { length (program_tokens program.now) ≤ most_tokens }
    requires names { tables_of program.now ≡ Ok names.now }
    ensures { Answers result (typed_program names.now program.now) }
{
    let mut kernels = Items::new(alloc);
    let mut constants = 0;
    for item in program.items.as_slice() {
        take_item(alloc, names, item, &mut kernels, &mut constants)?;
    }
    Ok(Typed { kernels })
}

/// Types an item that is a kernel, and counts one that is a constant.
fn take_item(
    alloc: Global,
    names: &Names,
    item: &Item,
    kernels: &mut Items<TypedKernel>,
    constants: &mut u32,
) -> Result<(), Stop<TypeFault>>
    requires stand { IsTrue (fields_stand names.now) }
    requires size { item_size item.now < 2 ^ 32 }
    requires few_kernels { length kernels.old < 2 ^ 32 }
    requires few_constants { constants.old + 1 < 2 ^ 32 }
    ensures takes { Takes names.now item.now kernels.old constants.old kernels.new constants.new result }
    ensures kernels_more { length kernels.new ≤ length kernels.old + 1 }
    ensures constants_more { constants.new ≤ constants.old + 1 }
{
    match item {
        Item::Const(_) => *constants += 1,
        Item::Kernel(decl) => {
            let context = Known {
                alloc,
                kernel: kernels.len() as u32,
                names,
                constants: *constants,
            };
            let kernel = context.kernel(decl)?;
            kernels.push(kernel)?;
        }
        Item::Layout(_) | Item::Command(_) => {}
    }
    Ok(())
}
