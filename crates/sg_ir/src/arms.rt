//! Whether single instructions are good, form by form.
ghost use Rattle.std.specs.Prelude.{◌≡◌, ℕ};
ghost use Rattle.sg_words.specs.declared.operators.Ty.{Ty};
ghost use Rattle.sg_words.specs.declared.operators.AccOp.{AccOp};
ghost use Rattle.sg_ir.specs.declared.code.Inst.TheOpen as i;
ghost use Rattle.sg_ir.specs.WellTyped.{inst_fits, step_fits};
ghost use Rattle.sg_ir.specs.steps.Frames.{frame_in, scope_in, way_of_step};

use crate::before::{Before, passed_by};
use crate::kinds::{StepKind, both, gives_truth, is_lnot, is_of, joins, takes_truth};
use crate::typing::Typing;
use sg_words::{BinOp, UnOp};

impl Typing<'_> {
    pub(crate) fn var_fits(&self, before: &Before, to: u32, var: u32) -> bool
        ensures { result ≡ (inst_fits (frame_in self.now) (i.Var to var) (scope_in self.now before.now)).0 }
    {
        both(
            self.can_use(before, var),
            joins(self.var(var), self.reg(to)),
        )
    }

    pub(crate) fn set_fits(&self, before: &Before, var: u32, from: u32) -> bool
        ensures { result ≡ (inst_fits (frame_in self.now) (i.Set var from) (scope_in self.now before.now)).0 }
    {
        both(
            self.is_set(before, from),
            joins(self.var(var), self.reg(from)),
        )
    }

    pub(crate) fn bin_fits(&self, before: &Before, to: u32, op: BinOp, a: u32, b: u32) -> bool
        ensures { (given : Ty) → result ≡ (inst_fits (frame_in self.now) (i.Bin to op given a b) (scope_in self.now before.now)).0 }
    {
        let truth = takes_truth(op);
        let read = both(
            self.reads(before, truth, b),
            is_of(gives_truth(op), self.reg(to)),
        );
        both(self.reads(before, truth, a), read)
    }

    pub(crate) fn un_fits(&self, before: &Before, to: u32, op: UnOp, a: u32) -> bool
        ensures { (given : Ty) → result ≡ (inst_fits (frame_in self.now) (i.Un to op given a) (scope_in self.now before.now)).0 }
    {
        let truth = is_lnot(op);
        both(self.reads(before, truth, a), is_of(truth, self.reg(to)))
    }

    pub(crate) fn mulq_fits(&self, before: &Before, to: u32, a: u32, b: u32, s: u32) -> bool
        ensures { result ≡ (inst_fits (frame_in self.now) (i.Mulq to a b s) (scope_in self.now before.now)).0 }
    {
        let last = both(self.reads(before, false, s), is_of(false, self.reg(to)));
        both(
            self.reads(before, false, a),
            both(self.reads(before, false, b), last),
        )
    }

    pub(crate) fn check_fits(
        &self,
        before: &Before,
        to: u32,
        place: u32,
        axis: u32,
        extent: u32,
        index: u32,
    ) -> bool
        ensures { result ≡ (inst_fits (frame_in self.now) (i.Check to place axis extent index) (scope_in self.now before.now)).0 }
    {
        let checkable = self.is_checkable(passed_by(before, place), axis, extent);
        let last = both(checkable, self.reads(before, false, index));
        both(to < self.places, both(0 < extent, last))
    }

    pub(crate) fn extract_fits(
        &self,
        before: &Before,
        to: u32,
        div: u32,
        size: u32,
        from: u32,
    ) -> bool
        ensures { result ≡ (inst_fits (frame_in self.now) (i.Extract to div size from) (scope_in self.now before.now)).0 }
    {
        let last = both(self.reads(before, false, from), is_of(false, self.reg(to)));
        both(0 < div, both(0 < size, last))
    }

    pub(crate) fn offset_fits(
        &self,
        before: &Before,
        to: u32,
        high: u32,
        size: u32,
        low: u32,
    ) -> bool
        ensures { result ≡ (inst_fits (frame_in self.now) (i.Offset to high size low) (scope_in self.now before.now)).0 }
    {
        let last = both(self.reads(before, false, low), is_of(false, self.reg(to)));
        both(0 < size, both(self.reads(before, false, high), last))
    }

    pub(crate) fn own_write_fits(&self, before: &Before, layout: u32, field: u32, from: u32) -> bool
        ensures { (stmt : ℕ) → result ≡ (inst_fits (frame_in self.now) (i.OwnWrite layout field from stmt) (scope_in self.now before.now)).0 }
    {
        both(
            self.is_set(before, from),
            joins(self.field(layout, field), self.reg(from)),
        )
    }

    pub(crate) fn acc_fits(
        &self,
        before: &Before,
        layout: u32,
        field: u32,
        place: u32,
        from: u32,
        index: &[u32],
    ) -> bool
        ensures { (op : AccOp) (stmt : ℕ) → result ≡ (inst_fits (frame_in self.now) (i.Acc op layout field place from index.now stmt) (scope_in self.now before.now)).0 }
    {
        let joined = joins(self.field(layout, field), self.reg(from));
        let last = both(joined, self.indexes(before, layout, index));
        both(
            self.is_cell(passed_by(before, place), layout),
            both(self.is_set(before, from), last),
        )
    }

    pub(crate) fn active_fits(&self, before: &Before, to: u32, place: u32, index: &[u32]) -> bool
        ensures { result ≡ (inst_fits (frame_in self.now) (i.IsActive to place index.now) (scope_in self.now before.now)).0 }
    {
        match passed_by(before, place) {
            Some(known) => {
                let last = both(
                    self.indexes(before, known.layout, index),
                    is_of(true, self.reg(to)),
                );
                both(self.is_cell(Some(known), known.layout), last)
            }
            None => false,
        }
    }

    /// Whether a place may go down a node.
    pub(crate) fn step_fits(
        &self,
        before: &Before,
        step: StepKind,
        to: u32,
        place: u32,
        node: u32,
        offset: u32,
    ) -> bool
        ensures { result ≡ (step_fits (frame_in self.now) (way_of_step step) to place node offset (scope_in self.now before.now)).0 }
    {
        let last = both(
            self.descends(passed_by(before, place), step, node),
            self.reads(before, false, offset),
        );
        both(to < self.places, last)
    }
}
