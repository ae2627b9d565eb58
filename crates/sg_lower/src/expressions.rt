ghost use Rattle.std.specs.Prelude.{◌≡◌, ◌<◌, length, All, IfOk, true};
ghost use Rattle.std.specs.List.{list_all};
ghost use Rattle.sg_ir.specs.Emits.{NamesGrow};
ghost use Rattle.sg_lower.specs.steps.Basis.{basis_of};
ghost use Rattle.sg_lower.specs.steps.Fitting.{can_be_lowered, typed_active, typed_read};
ghost use Rattle.sg_lower.specs.steps.Agreeing.{Values, AllValues};
ghost use Rattle.sg_ir.specs.WellTyped.{set_vars};
ghost use Rattle.sg_lower.specs.steps.Typing.{AddsExpr, AddsIndex};
ghost use Rattle.sg_lower.specs.steps.Using.{expr_uses, all_uses, Uses};
ghost use Rattle.sg_lower.specs.steps.Asking.{AsksExpr, AsksExprs};

use crate::lowering::Lowering;
use crate::places::named_place;
use sg_ir::emit::{binary, constant, is_active, own_read, product, read_cell, unary, variable};
use sg_ir::{Inst, Names};
use sg_layout::Layouts;
use sg_types::{Form, TypedExpr};
use sg_words::{Items, Memory, Ty};
use std::alloc::Global;

impl Lowering {
    /// A register with the word of an expression.
    #[cycle(expressions)]
    pub(crate) fn expr(
        &self,
        layouts: &Layouts,
        alloc: Global,
        expr: &TypedExpr,
        names: &mut Names,
        block: &mut Items<Inst>,
    ) -> Result<u32, Memory>
        ensures grows { IfOk result (λ to. NamesGrow names.old names.new × (to < length names.new.regs)) }
        ensures values { IfOk result (λ to. can_be_lowered (basis_of layouts.now self.now) expr.now ≡ true →
            Values (basis_of layouts.now self.now) expr.now to names.old names.new block.old block.new) }
        ensures uses { IfOk result (λ to. Uses (expr_uses self.now.owned expr.now) block.old block.new) }
        ensures asks { IfOk result (λ to. AsksExpr expr.now block.old block.new) }
        ensures typed { IfOk result (λ to. AddsExpr layouts.now.list expr.now to names.old names.new block.old block.new) }
        ensures vars { IfOk result (λ to. set_vars block.new ≡ set_vars block.old) }
    {
        match &expr.form {
            Form::Literal(word) => constant(names, block, expr.ty, *word),
            Form::Constant(word) => constant(names, block, expr.ty, *word),
            Form::Var(var) => variable(names, block, expr.ty, *var),
            Form::Read {
                layout,
                place,
                index,
            } => self.read(
                layouts,
                alloc,
                index.as_slice(),
                *layout,
                *place,
                expr.ty,
                names,
                block,
            ),
            Form::Paren(inner) => self.expr(layouts, alloc, inner.get(), names, block),
            Form::Un { op, of } => {
                let of = of.get();
                let a = self.expr(layouts, alloc, of, names, block)?;
                unary(names, block, expr.ty, *op, of.ty, a)
            }
            Form::Bin { op, left, right } => {
                let (left, right) = (left.get(), right.get());
                let a = self.expr(layouts, alloc, left, names, block)?;
                let b = self.expr(layouts, alloc, right, names, block)?;
                binary(names, block, expr.ty, *op, left.ty, a, b)
            }
            Form::Mulq { a, b, s } => {
                let a = self.expr(layouts, alloc, a.get(), names, block)?;
                let b = self.expr(layouts, alloc, b.get(), names, block)?;
                let s = self.expr(layouts, alloc, s.get(), names, block)?;
                product(names, block, a, b, s)
            }
            Form::Convert(inner) => self.expr(layouts, alloc, inner.get(), names, block),
            Form::Active { layout, index } => {
                self.active(
                    layouts,
                    alloc,
                    index.as_slice(),
                    *layout,
                    expr.ty,
                    names,
                    block,
                )
            }
        }
    }

    /// A register with the value of a field: in the own cell where the kernel own-writes it, else where the indices say.
    #[cycle(expressions)]
    fn read(
        &self,
        layouts: &Layouts,
        alloc: Global,
        index: &[TypedExpr],
        layout: u32,
        place: u32,
        ty: Ty,
        names: &mut Names,
        block: &mut Items<Inst>,
    ) -> Result<u32, Memory>
        ensures grows { IfOk result (λ to. NamesGrow names.old names.new × (to < length names.new.regs)) }
        ensures values { IfOk result (λ to. can_be_lowered (basis_of layouts.now self.now) (typed_read ty layout place index.now) ≡ true →
            Values (basis_of layouts.now self.now) (typed_read ty layout place index.now) to names.old names.new block.old block.new) }
        ensures uses { IfOk result (λ to. Uses (expr_uses self.now.owned (typed_read ty layout place index.now)) block.old block.new) }
        ensures asks { IfOk result (λ to. AsksExpr (typed_read ty layout place index.now) block.old block.new) }
        ensures typed { IfOk result (λ to. AddsExpr layouts.now.list (typed_read ty layout place index.now) to names.old names.new block.old block.new) }
        ensures vars { IfOk result (λ to. set_vars block.new ≡ set_vars block.old) }
    {
        if self.is_owned(layout, place) {
            return own_read(names, block, ty, layout, place);
        }
        let regs = self.indices(layouts, alloc, index, names, block)?;
        let at = named_place(layouts, layout, names, block, regs.as_slice())?;
        read_cell(names, block, ty, at, layout, place, regs)
    }

    /// A register that tells whether the coordinate of indices is active in a layout.
    #[cycle(expressions)]
    fn active(
        &self,
        layouts: &Layouts,
        alloc: Global,
        index: &[TypedExpr],
        layout: u32,
        ty: Ty,
        names: &mut Names,
        block: &mut Items<Inst>,
    ) -> Result<u32, Memory>
        ensures grows { IfOk result (λ to. NamesGrow names.old names.new × (to < length names.new.regs)) }
        ensures values { IfOk result (λ to. can_be_lowered (basis_of layouts.now self.now) (typed_active ty layout index.now) ≡ true →
            Values (basis_of layouts.now self.now) (typed_active ty layout index.now) to names.old names.new block.old block.new) }
        ensures uses { IfOk result (λ to. Uses (expr_uses self.now.owned (typed_active ty layout index.now)) block.old block.new) }
        ensures asks { IfOk result (λ to. AsksExpr (typed_active ty layout index.now) block.old block.new) }
        ensures typed { IfOk result (λ to. AddsExpr layouts.now.list (typed_active ty layout index.now) to names.old names.new block.old block.new) }
        ensures vars { IfOk result (λ to. set_vars block.new ≡ set_vars block.old) }
    {
        let regs = self.indices(layouts, alloc, index, names, block)?;
        let at = named_place(layouts, layout, names, block, regs.as_slice())?;
        is_active(names, block, ty, at, regs)
    }

    /// A register for each of these expressions.
    #[cycle(expressions)]
    pub(crate) fn indices(
        &self,
        layouts: &Layouts,
        alloc: Global,
        index: &[TypedExpr],
        names: &mut Names,
        block: &mut Items<Inst>,
    ) -> Result<Items<u32>, Memory>
        ensures grows { IfOk result (λ regs. NamesGrow names.old names.new × All (λ r. r < length names.new.regs) regs) }
        ensures count { IfOk result (λ regs. length regs ≡ length index.now) }
        ensures values { IfOk result (λ regs. list_all (can_be_lowered (basis_of layouts.now self.now)) index.now ≡ true →
            AllValues (basis_of layouts.now self.now) index.now regs names.old names.new block.old block.new) }
        ensures uses { IfOk result (λ regs. Uses (all_uses self.now.owned index.now) block.old block.new) }
        ensures asks { IfOk result (λ _. AsksExprs index.now block.old block.new) }
        ensures typed { IfOk result (λ regs. AddsIndex layouts.now.list index.now regs names.old names.new block.old block.new) }
        ensures vars { IfOk result (λ regs. set_vars block.new ≡ set_vars block.old) }
    {
        let mut regs = Items::new(alloc);
        for part in index {
            regs.push(self.expr(layouts, alloc, part, names, block)?)?;
        }
        Ok(regs)
    }
}
