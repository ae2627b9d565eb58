ghost use Rattle.std.specs.Prelude.{◌≡◌, ℕ, true, length, map, not, ◌||◌, ◌==◌, IfOk};
ghost use Rattle.std.specs.List.{list_any, range_with_len};
ghost use Rattle.sg_words.specs.Answers.{Answers};
ghost use Rattle.sg_types.specs.WellTyped.{is_well_typed_kernel};
ghost use Rattle.sg_types.specs.Numbers.{kernel_vars};
ghost use Rattle.sg_admit.specs.Lines.{kernel_lines, block_lines, nothing_round};
ghost use Rattle.sg_admit.specs.Slices as slices;
ghost use Rattle.sg_admit.specs.Rules.{facts_of};
ghost use Rattle.sg_admit.specs.Admission as spec;
ghost use Rattle.sg_admit.specs.steps.Corners.{IsCounted};
ghost use Rattle.sg_admit.specs.steps.Marked.{marked_facts};
ghost use Rattle.sg_admit.specs.steps.Noting.{loops_in};
ghost use Rattle.sg_words.specs.Spread as spread;

use crate::admitted::{AdmitFault, Admitted};
use crate::boxes::{constant_domain, is_small};
use crate::hangs::dirty_vars;
use crate::marks::Marks;
use crate::text::Text;
use sg_layout::Layouts;
use sg_types::{TypedDomain, TypedKernel};
use sg_words::spreads::{is_marked, mark};
use sg_words::{Items, Memory, Stop, Ty};
use std::alloc::Global;

/// The kernel with what is known of it, if it keeps the rules and its box isn't too large; else the first fault.
pub fn admit(
    alloc: Global,
    kernel: TypedKernel,
    layouts: &Layouts,
) -> Result<Admitted, Stop<AdmitFault>>
    requires typed { is_well_typed_kernel layouts.now.list kernel ≡ true }
    requires numbered { kernel_vars kernel ≡ range_with_len 0 (length kernel.types) }
    ensures { Answers result (spec.admission kernel) }
{
    examined(alloc, kernel)
}

/// The same, where a loop over ranges has as many of them as it has variables.
pub(crate) fn examined(alloc: Global, kernel: TypedKernel) -> Result<Admitted, Stop<AdmitFault>>
    requires { IsCounted kernel.vars kernel.domain }
    ensures { Answers result (spec.admission kernel) }
{
    let known = known_of(alloc, &kernel)?;
    if let Some(fault) = known.marks.kernel_fault(&kernel) {
        return Err(Stop::Refused(fault));
    }
    let domain = constant_domain(&kernel);
    if !is_small(&domain) {
        return Err(Stop::Refused(AdmitFault::BoxTooLarge));
    }
    let slice = known.marks.slice_block(alloc, kernel.body.as_slice())?;
    let clean = known.clean_vars(alloc, kernel.types.as_slice())?;
    Ok(Admitted {
        kernel,
        clean,
        slice,
        domain,
    })
}

/// What is known of a kernel before its rules are tested, and the variables of its inner loops.
#[derive(Drop)]
pub(crate) struct Known {
    pub marks: Marks,
    pub loops: Items<u32>,
}

pub(crate) fn known_of(alloc: Global, kernel: &TypedKernel) -> Result<Known, Memory>
    ensures { IfOk result (λ known. (marked_facts known.marks ≡ facts_of kernel.now)
        × (known.loops ≡ loops_in (kernel_lines kernel.now))) }
{
    let mut text = Text {
        writes: Items::new(alloc),
        loops: Items::new(alloc),
        ifs: 1,
    };
    text.block(kernel.body.as_slice())?;
    let dirty = dirty_vars(alloc, &text, kernel.body.as_slice())?;
    let Text {
        writes,
        loops,
        ifs: _ifs,
    } = text;
    Ok(Known {
        marks: Marks {
            ways: writes,
            dirty,
            vars: kernel.vars,
            walked: walked_by(&kernel.domain),
        },
        loops,
    })
}

fn walked_by(domain: &TypedDomain) -> Option<u32>
    ensures { result ≡ slices.walked_by domain.now }
{
    match domain {
        TypedDomain::Walk(layout) => Some(*layout),
        TypedDomain::Ranges(_ranges) => None,
    }
}

impl Known {
    /// For each variable whether it is a loop's or a clean local.
    fn clean_vars(&self, alloc: Global, types: &[Ty]) -> Result<Items<bool>, Memory>
        ensures { IfOk result (λ clean. clean
            ≡ map (λ var. not (spread.bears_mark self.now.marks.dirty var) || list_any (λ it. it == var) self.now.loops) (range_with_len 0 (length types.now))) }
    {
        let looped = self.looped(alloc)?;
        let mut clean = Items::new(alloc);
        for (var, _ty) in types.iter().enumerate() {
            clean.push(self.is_clean_var(&looped, var))?;
        }
        Ok(clean)
    }

    fn is_clean_var(&self, looped: &Items<bool>, var: usize) -> bool
        ensures { result ≡ (not (spread.bears_mark self.now.marks.dirty var) || spread.bears_mark looped.now var) }
    {
        !is_marked(&self.marks.dirty, var) || is_marked(looped, var)
    }

    fn looped(&self, alloc: Global) -> Result<Items<bool>, Memory>
        ensures { IfOk result (λ looped. (var : ℕ) → spread.bears_mark looped var ≡ list_any (λ it. it == var) self.now.loops) }
    {
        let mut looped = Items::new(alloc);
        for var in self.loops.as_slice() {
            mark(&mut looped, *var as usize)?;
        }
        Ok(looped)
    }
}
