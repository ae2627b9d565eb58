ghost use Rattle.std.specs.Prelude.{◌≡◌, ◌≤◌, IfOk, Ok, true, length, []};
ghost use Rattle.std.specs.List.{list_all, range_with_len};
ghost use Rattle.sg_types.specs.WellTyped.{is_well_typed_kernel};
ghost use Rattle.sg_types.specs.Numbers.{kernel_vars};
ghost use Rattle.sg_admit.specs.Admission.{admission};
ghost use Rattle.sg_ir.specs.Apt.{IsApt};
ghost use Rattle.sg_ir.specs.WellTyped.{is_well_typed};
ghost use Rattle.sg_lower.specs.Lowered.{WritesAsKernel, WantsAsKernel, NamesItsAccesses, PointsAreWhole};
ghost use Rattle.sg_lower.specs.steps.Basis.{basis_of};
ghost use Rattle.sg_lower.specs.steps.Fitting.{stmt_fits};
ghost use Rattle.sg_lower.specs.steps.Agreeing.{Tells};
ghost use Rattle.sg_lower.specs.steps.Using.{UsesBlock};
ghost use Rattle.sg_lower.specs.steps.Asking.{AsksBlock};
ghost use Rattle.sg_lower.specs.steps.Typing.{AddsBlock, SetsBlock};

use crate::domains::domain_bounds;
use crate::lowering::Lowering;
use crate::owned::owned_in;
use sg_admit::Admitted;
use sg_admit::laws::{
    box_has_its_size, dirty_is_closed, faults_are_first, slice_wants_what_is_written,
};
use sg_coord::{Extents, numbering};
use sg_ir::{Code, KernelCode, Names};
use sg_layout::laws::closure_members;
use sg_layout::{Layouts, paths_tell};
use sg_types::TypedStmt;
use sg_words::laws::{operators_give_words, words_are_numbers};
use sg_words::{Items, Memory, Ty};
use std::alloc::Global;

// Any extents: the laws of coordinates are of all bounds.
const ONE_POINT: Extents = Extents {
    n: 1,
    a: 1,
    b: 1,
    c: 1,
};

/// The access code of an admitted kernel, and of its address slice.
pub fn lower(alloc: Global, kernel: &Admitted, layouts: &Layouts) -> Result<KernelCode, Memory>
    requires admitted { admission kernel.now.kernel ≡ Ok kernel.now }
    requires typed { is_well_typed_kernel layouts.now.list kernel.now.kernel ≡ true }
    requires numbered { kernel_vars kernel.now.kernel ≡ range_with_len 0 (length kernel.now.kernel.types) }
    requires few { kernel.now.kernel.vars ≤ 3 }
    ensures domain { IfOk result (λ it. it.domain ≡ kernel.now.domain) }
    ensures writes { IfOk result (λ it. WritesAsKernel layouts.now.list kernel.now.kernel it.code.body) }
    ensures wants { IfOk result (λ it. WantsAsKernel layouts.now.list kernel.now.kernel it.slice.body) }
    ensures code_named { IfOk result (λ it. NamesItsAccesses layouts.now.list kernel.now.kernel it.code.body) }
    ensures slice_named { IfOk result (λ it. NamesItsAccesses layouts.now.list kernel.now.kernel it.slice.body) }
    ensures points { IfOk result (λ it. PointsAreWhole layouts.now.list kernel.now) }
    ensures well_typed { IfOk result (λ it. (is_well_typed layouts.now.list it.code ≡ true) × (is_well_typed layouts.now.list it.slice ≡ true)) }
    ensures apt { IfOk result (λ it. IsApt layouts.now.list it) }
{
    // for the laws that they ensure
    operators_give_words();
    numbering(&ONE_POINT);
    paths_tell();
    dirty_is_closed();
    faults_are_first();
    slice_wants_what_is_written();
    box_has_its_size();
    closure_members();
    words_are_numbers();
    domain_bounds(layouts, kernel.domain);
    let owned = owned_in(alloc, kernel.kernel.body.as_slice())?;
    let mut lowering = Lowering {
        vars: kernel.kernel.vars,
        owned,
        slicing: false,
    };
    let types = kernel.kernel.types.as_slice();
    let code = lowering.code(layouts, alloc, kernel.kernel.body.as_slice(), types)?;
    lowering.slicing = true;
    let slice = lowering.code(layouts, alloc, kernel.slice.as_slice(), types)?;
    Ok(KernelCode {
        slice,
        code,
        domain: kernel.domain,
    })
}

impl Lowering {
    /// The code of the statements of an iteration, over variables of these types.
    pub(crate) fn code(
        &self,
        layouts: &Layouts,
        alloc: Global,
        stmts: &[TypedStmt],
        types: &[Ty],
    ) -> Result<Code, Memory>
        ensures tells { IfOk result (λ code. list_all (stmt_fits (basis_of layouts.now self.now)) stmts.now ≡ true → Tells (basis_of layouts.now self.now) stmts.now code.body) }
        ensures vars { IfOk result (λ code. code.vars ≡ types.now) }
        ensures uses { IfOk result (λ code. UsesBlock (basis_of layouts.now self.now) stmts.now [] code.body) }
        ensures asks { IfOk result (λ code. AsksBlock stmts.now [] code.body) }
        ensures typed { IfOk result (λ code. AddsBlock layouts.now.list stmts.now (record { regs = []; places = 0 }) (record { regs = code.regs; places = code.places }) [] code.body) }
        ensures sets { IfOk result (λ code. SetsBlock stmts.now [] code.body) }
    {
        let mut names = Names::new(alloc);
        let mut body = Items::new(alloc);
        self.stmts(layouts, alloc, stmts, &mut names, &mut body)?;
        let vars = Items::from_slice(alloc, types)?;
        let Names { regs, places } = names;
        Ok(Code {
            regs,
            places,
            vars,
            body,
        })
    }
}
