ghost use Rattle.std.specs.Prelude.{◌≡◌, [], map, IfOk, true};
ghost use Rattle.std.specs.List.{list_all};
ghost use Rattle.sg_types.specs.Iterations.{run_all, action_of};
ghost use Rattle.sg_ir.specs.Emits.{NamesGrow};
ghost use Rattle.sg_lower.specs.steps.Basis.{basis_of};
ghost use Rattle.sg_lower.specs.steps.Fitting.{stmt_fits, write_stmt};
ghost use Rattle.sg_lower.specs.steps.Agreeing.{Steps};
ghost use Rattle.sg_lower.specs.steps.Using.{UsesStmt, UsesBlock};
ghost use Rattle.sg_lower.specs.steps.Asking.{AsksStmt, AsksBlock};
ghost use Rattle.sg_lower.specs.steps.Typing.{AddsStmt, AddsBlock, SetsStmt, SetsBlock};

use crate::constants::constant_number;
use crate::lowering::Lowering;
use crate::places::named_place;
use sg_flat::Way;
use sg_ir::{Inst, Names};
use sg_layout::Layouts;
use sg_types::{TypedExpr, TypedKind, TypedStmt};
use sg_words::{Items, Memory};
use std::alloc::Global;

impl Lowering {
    /// What statements do, at the end of a block.
    #[cycle(statements)]
    pub(crate) fn stmts(
        &self,
        layouts: &Layouts,
        alloc: Global,
        stmts: &[TypedStmt],
        names: &mut Names,
        block: &mut Items<Inst>,
    ) -> Result<(), Memory>
        ensures steps { IfOk result (λ _. list_all (stmt_fits (basis_of layouts.now self.now)) stmts.now ≡ true →
            Steps (basis_of layouts.now self.now) (λ world now. run_all (map (action_of world) stmts.now) now) block.old block.new) }
        ensures uses { IfOk result (λ _. UsesBlock (basis_of layouts.now self.now) stmts.now block.old block.new) }
        ensures asks { IfOk result (λ _. AsksBlock stmts.now block.old block.new) }
        ensures typed { IfOk result (λ _. AddsBlock layouts.now.list stmts.now names.old names.new block.old block.new) }
        ensures sets { IfOk result (λ _. SetsBlock stmts.now block.old block.new) }
    {
        for stmt in stmts {
            self.stmt(layouts, alloc, stmt, names, block)?;
        }
        Ok(())
    }

    /// A block of its own for statements.
    #[cycle(statements)]
    fn inner_block(
        &self,
        layouts: &Layouts,
        alloc: Global,
        stmts: &[TypedStmt],
        names: &mut Names,
    ) -> Result<Items<Inst>, Memory>
        ensures steps { IfOk result (λ block. list_all (stmt_fits (basis_of layouts.now self.now)) stmts.now ≡ true →
            Steps (basis_of layouts.now self.now) (λ world now. run_all (map (action_of world) stmts.now) now) [] block) }
        ensures uses { IfOk result (λ block. UsesBlock (basis_of layouts.now self.now) stmts.now [] block) }
        ensures asks { IfOk result (λ block. AsksBlock stmts.now [] block) }
        ensures typed { IfOk result (λ block. AddsBlock layouts.now.list stmts.now names.old names.new [] block) }
        ensures sets { IfOk result (λ block. SetsBlock stmts.now [] block) }
    {
        let mut block = Items::new(alloc);
        self.stmts(layouts, alloc, stmts, names, &mut block)?;
        Ok(block)
    }

    /// What a statement does, at the end of a block.
    #[cycle(statements)]
    fn stmt(
        &self,
        layouts: &Layouts,
        alloc: Global,
        stmt: &TypedStmt,
        names: &mut Names,
        block: &mut Items<Inst>,
    ) -> Result<(), Memory>
        ensures steps { IfOk result (λ _. stmt_fits (basis_of layouts.now self.now) stmt.now ≡ true →
            Steps (basis_of layouts.now self.now) (λ world now. action_of world stmt.now now) block.old block.new) }
        ensures uses { IfOk result (λ _. UsesStmt (basis_of layouts.now self.now) stmt.now block.old block.new) }
        ensures asks { IfOk result (λ _. AsksStmt stmt.now block.old block.new) }
        ensures typed { IfOk result (λ _. AddsStmt layouts.now.list stmt.now names.old names.new block.old block.new) }
        ensures sets { IfOk result (λ _. SetsStmt stmt.now block.old block.new) }
    {
        match &stmt.kind {
            TypedKind::Let { var, value } => {
                let from = self.expr(layouts, alloc, value, names, block)?;
                block.push(Inst::Set { var: *var, from })?;
            }
            TypedKind::Assign { var, value } => {
                let from = self.expr(layouts, alloc, value, names, block)?;
                block.push(Inst::Set { var: *var, from })?;
            }
            TypedKind::Write {
                layout,
                place,
                index,
                way,
                value,
            } => {
                let index = index.as_slice();
                let number = stmt.number;
                self.write(
                    layouts, alloc, index, value, number, *layout, *place, *way, names, block,
                )?;
            }
            TypedKind::If {
                cond,
                yes,
                no,
                has_else: _has_else,
            } => {
                let cond = self.expr(layouts, alloc, cond, names, block)?;
                let yes = self.inner_block(layouts, alloc, yes.as_slice(), names)?;
                let no = self.inner_block(layouts, alloc, no.as_slice(), names)?;
                block.push(Inst::If { cond, yes, no })?;
            }
            TypedKind::For { var, range, body } => {
                let lo = constant_number(&range.lo);
                let hi = constant_number(&range.hi);
                let body = self.inner_block(layouts, alloc, body.as_slice(), names)?;
                block.push(Inst::For {
                    var: *var,
                    lo,
                    hi,
                    body,
                })?;
            }
        }
        Ok(())
    }

    /// A write: in a slice a want, else an own write or a contribution.
    fn write(
        &self,
        layouts: &Layouts,
        alloc: Global,
        index: &[TypedExpr],
        value: &TypedExpr,
        stmt: u32,
        layout: u32,
        place: u32,
        way: Way,
        names: &mut Names,
        block: &mut Items<Inst>,
    ) -> Result<(), Memory>
        ensures steps { IfOk result (λ _. stmt_fits (basis_of layouts.now self.now) (write_stmt stmt layout place index.now way value.now) ≡ true →
            Steps (basis_of layouts.now self.now) (λ world now. action_of world (write_stmt stmt layout place index.now way value.now) now) block.old block.new) }
        ensures uses { IfOk result (λ _. UsesStmt (basis_of layouts.now self.now) (write_stmt stmt layout place index.now way value.now) block.old block.new) }
        ensures asks { IfOk result (λ _. AsksStmt (write_stmt stmt layout place index.now way value.now) block.old block.new) }
        ensures typed { IfOk result (λ _. AddsStmt layouts.now.list (write_stmt stmt layout place index.now way value.now) names.old names.new block.old block.new) }
        ensures sets { IfOk result (λ _. SetsStmt (write_stmt stmt layout place index.now way value.now) block.old block.new) }
    {
        if self.slicing {
            let index = self.indices(layouts, alloc, index, names, block)?;
            block.push(Inst::Want {
                layout,
                index,
                stmt,
            })?;
            return Ok(());
        }
        let from = self.expr(layouts, alloc, value, names, block)?;
        match way {
            Way::Own => {
                block.push(Inst::OwnWrite {
                    layout,
                    field: place,
                    from,
                    stmt,
                })?;
            }
            Way::Acc(op) => {
                let index = self.indices(layouts, alloc, index, names, block)?;
                let at = named_place(layouts, layout, names, block, index.as_slice())?;
                block.push(Inst::Acc {
                    op,
                    layout,
                    field: place,
                    place: at,
                    from,
                    index,
                    stmt,
                })?;
            }
        }
        Ok(())
    }
}
