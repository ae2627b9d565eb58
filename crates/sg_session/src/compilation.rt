ghost use Rattle.std.specs.Prelude.{◌≡◌, ◌≤◌, length, Ok, IfOk};
ghost use Rattle.sg_lexer.specs.Limits.{most_file_bytes};
ghost use Rattle.sg_names.specs.Names.{tables_of};
ghost use Rattle.sg_session.specs.Compiled.{IsCompiled};
ghost use Rattle.sg_session.specs.Compiling.{CompilesAs, compiled_program, compiled_tree, compiled_with};
ghost use Rattle.sg_session.specs.Spelled.{IsSpelled};
ghost use Rattle.sg_session.specs.steps.Parts.{with_tables};

use crate::compiled::Compiled;
use crate::kernels::{kernels_of, lower_all, neutral_of};
use crate::layouts::layouts_of;
use crate::refusal::Refusal;
use crate::rules::Judge;
use crate::spelled::spell;
use crate::stages::stages_of;
use crate::tasks::Stage;
use sg_ast::Program;
use sg_ir::KernelCode;
use sg_layout::Layouts;
use sg_names::{Names, name_tables};
use sg_words::{Items, Stop};
use std::alloc::Global;

/// What the bytes of a file are compiled to, or the first cause for which they are refused.
#[tactic(auto, unfolding(crate::specs::Compiling::compiled_program))]
pub fn compile(alloc: Global, bytes: &[u8]) -> Result<Compiled, Stop<Refusal>>
    requires { length bytes.now ≤ most_file_bytes }
    ensures answer { CompilesAs (λ compiled. compiled) result (compiled_program bytes.now) }
    ensures compiled { IfOk result IsCompiled }
{
    match spell(alloc, bytes) {
        Ok(program) => compile_tree(alloc, &program),
        Err(why) => Err(why),
    }
}

/// What a program is compiled to.
#[tactic(auto, unfolding(crate::specs::Compiling::compiled_tree))]
fn compile_tree(alloc: Global, program: &Program) -> Result<Compiled, Stop<Refusal>>
    requires { IsSpelled program.now }
    ensures answer { CompilesAs (λ compiled. compiled) result (compiled_tree program.now) }
    ensures compiled { IfOk result IsCompiled }
{
    match name_tables(alloc, program) {
        Ok(names) => with_names(alloc, program, names),
        Err(Stop::Refused(fault)) => Err(Stop::Refused(Refusal::Name(fault))),
        Err(Stop::Memory) => Err(Stop::Memory),
    }
}

/// What a program with these names is compiled to.
fn with_names(alloc: Global, program: &Program, names: Names) -> Result<Compiled, Stop<Refusal>>
    requires spelled { IsSpelled program.now }
    requires names { tables_of program.now ≡ Ok names }
    ensures answer { CompilesAs (λ compiled. compiled) result (compiled_with names program.now) }
    ensures compiled { IfOk result IsCompiled }
{
    // for the laws that they ensure
    sg_names::laws::tables_declared();
    sg_names::laws::look_ups_invert();
    sg_types::laws::declared_layouts_fit();
    sg_types::laws::typed_is_well_typed();
    sg_types::laws::variables_are_numbered();
    match parts_of(alloc, program, &names) {
        Ok(
            Parts {
                layouts,
                kernels,
                neutral,
                commands,
            },
        ) => Ok(Compiled {
            names,
            layouts,
            kernels,
            neutral,
            commands,
        }),
        Err(why) => Err(why),
    }
}

/// What a program is compiled to, except for its names.
#[derive(Drop)]
struct Parts {
    layouts: Layouts,
    kernels: Items<KernelCode>,
    neutral: Items<bool>,
    commands: Items<Stage>,
}

/// What a program with these names is compiled to: layouts, then kernels, then commands; then the code of the kernels.
#[tactic(auto, unfolding(crate::specs::Compiling::compiled_with))]
fn parts_of(alloc: Global, program: &Program, names: &Names) -> Result<Parts, Stop<Refusal>>
    requires spelled { IsSpelled program.now }
    requires names { tables_of program.now ≡ Ok names.now }
    ensures { CompilesAs (with_tables names.now) result (compiled_with names.now program.now) }
{
    // for the law that it ensures
    sg_types::laws::declared_layouts_fit();
    let items = program.items.as_slice();
    let layouts = layouts_of(alloc, program, names)?;
    let kernels = kernels_of(alloc, program, names, &layouts)?;
    let judge = Judge {
        names,
        layouts: &layouts,
    };
    if let Some(refusal) = judge.commands_refusal(items) {
        return Err(Stop::Refused(refusal));
    }
    let neutral = neutral_of(alloc, kernels.as_slice())?;
    let commands = stages_of(alloc, names, items)?;
    let codes = lower_all(alloc, kernels.as_slice(), &layouts)?;
    Ok(Parts {
        layouts,
        kernels: codes,
        neutral,
        commands,
    })
}
