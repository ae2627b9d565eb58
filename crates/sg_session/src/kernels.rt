//! The kernels of a program.

ghost use Rattle.std.specs.Prelude.{◌≡◌, ◌≤◌, ◌+◌, ◌<◌, ◌^◌, true, length, map, Ok, IfOk};
ghost use Rattle.std.specs.List.{AllByRecursion, AllZip};
ghost use Rattle.sg_words.specs.Answers.{Answers};
ghost use Rattle.sg_names.specs.Names.{tables_of};
ghost use Rattle.sg_types.specs.Laws.{TablesFit, declared_shapes};
ghost use Rattle.sg_admit.specs.Neutral.{is_neutral_kernel};
ghost use Rattle.sg_session.specs.Compiled.{IsCodeOf};
ghost use Rattle.sg_session.specs.Compiling.{kernels_of, admitted_kernels};
ghost use Rattle.sg_session.specs.Spelled.{IsSpelled};
ghost use Rattle.sg_exec.specs.Running.{IsRunnable};
ghost use Rattle.sg_session.specs.steps.Kernels.{IsReady, IsLowerable, IsLoweredOf, AreSimplified};

use crate::refusal::Refusal;
use sg_admit::laws::{domain_is_constant, own_writes_stand};
use sg_admit::{Admitted, admit, is_neutral};
use sg_ast::Program;
use sg_ir::KernelCode;
use sg_layout::Layouts;
use sg_lower::lower;
use sg_names::Names;
use sg_simplify::simplify;
use sg_types::{Typed, TypedKernel, type_program};
use sg_words::{Items, Memory, Stop};
use std::alloc::Global;

/// The kernels of a program with what is known of them; or the first fault of types, then the first kernel that isn't admitted.
#[tactic(auto, unfolding(crate::specs::Compiling::kernels_of))]
pub fn kernels_of(
    alloc: Global,
    program: &Program,
    names: &Names,
    layouts: &Layouts,
) -> Result<Items<Admitted>, Stop<Refusal>>
    requires spelled { IsSpelled program.now }
    requires names { tables_of program.now ≡ Ok names.now }
    requires fit { TablesFit names.now layouts.now.list }
    ensures answer { Answers result (kernels_of names.now program.now) }
    ensures lowerable { IfOk result (AllByRecursion (IsLowerable layouts.now.list)) }
{
    // for the laws that they ensure
    sg_types::laws::typed_is_well_typed();
    sg_types::laws::variables_are_numbered();
    match type_program(alloc, program, names) {
        Ok(typed) => admit_all(alloc, typed.kernels, layouts),
        Err(Stop::Refused(fault)) => Err(Stop::Refused(Refusal::Types(fault))),
        Err(Stop::Memory) => Err(Stop::Memory),
    }
}

/// Admits kernels one after the other.
fn admit_all(
    alloc: Global,
    kernels: Items<TypedKernel>,
    layouts: &Layouts,
) -> Result<Items<Admitted>, Stop<Refusal>>
    requires ready { AllByRecursion (IsReady layouts.now.list) kernels }
    requires few { length kernels < 2 ^ 32 }
    ensures { Answers result (admitted_kernels 0 kernels) }
{
    let mut left = kernels;
    let mut admitted = Items::new(alloc);
    for number in 0..left.len() {
        let kernel = left.remove(0);
        match admit(alloc, kernel, layouts) {
            Ok(kernel) => admitted.push(kernel)?,
            Err(Stop::Refused(fault)) => {
                return Err(Stop::Refused(Refusal::Admit {
                    kernel: number as u32,
                    fault,
                }));
            }
            Err(Stop::Memory) => return Err(Stop::Memory),
        }
    }
    Ok(admitted)
}

/// The access code of kernels, one after the other.
pub fn lower_all(
    alloc: Global,
    kernels: &[Admitted],
    layouts: &Layouts,
) -> Result<Items<KernelCode>, Memory>
    requires { AllByRecursion (IsLowerable layouts.now.list) kernels.now }
    ensures { IfOk result (AllZip (IsCodeOf layouts.now.list) kernels.now) }
{
    let mut codes = Items::new(alloc);
    for kernel in kernels {
        codes.push(code_of(alloc, kernel, layouts)?)?;
    }
    Ok(codes)
}

/// The access code of a kernel, shared and trimmed.
fn code_of(alloc: Global, kernel: &Admitted, layouts: &Layouts) -> Result<KernelCode, Memory>
    requires { IsLowerable layouts.now.list kernel.now }
    ensures { IfOk result (IsCodeOf layouts.now.list kernel.now) }
{
    let lowered = lowered_of(alloc, kernel, layouts)?;
    simplified_of(alloc, &lowered, layouts)
}

/// The access code of a kernel as it is lowered.
fn lowered_of(alloc: Global, kernel: &Admitted, layouts: &Layouts) -> Result<KernelCode, Memory>
    requires { IsLowerable layouts.now.list kernel.now }
    ensures { IfOk result (IsLoweredOf layouts.now.list kernel.now) }
{
    // for the laws that they ensure
    domain_is_constant();
    own_writes_stand();
    lower(alloc, kernel, layouts)
}

/// Both codes of a kernel, simplified over its domain.
fn simplified_of(
    alloc: Global,
    kernel: &KernelCode,
    layouts: &Layouts,
) -> Result<KernelCode, Memory>
    requires { IsRunnable layouts.now.list kernel.now }
    ensures { IfOk result (AreSimplified layouts.now.list kernel.now) }
{
    let slice = simplify(alloc, &kernel.slice, &kernel.domain, layouts)?;
    let code = simplify(alloc, &kernel.code, &kernel.domain, layouts)?;
    Ok(KernelCode {
        slice,
        code,
        domain: kernel.domain,
    })
}

/// For each kernel whether it is neutral.
pub fn neutral_of(alloc: Global, kernels: &[Admitted]) -> Result<Items<bool>, Memory>
    ensures { IfOk result (λ neutral. neutral ≡ map (λ kernel. is_neutral_kernel kernel.kernel) kernels.now) }
{
    let mut neutral = Items::new(alloc);
    for kernel in kernels {
        neutral.push(is_neutral(kernel))?;
    }
    Ok(neutral)
}
