ghost use Rattle.std.specs.Prelude.{◌≡◌, IfOk};
ghost use Rattle.sg_admit.specs.Slices as spec;
ghost use Rattle.sg_admit.specs.steps.Marked.{unclean_of, kept_list};

use crate::copies::{copy_expr, copy_exprs, copy_range};
use crate::marks::Marks;
use sg_types::{Form, TypedExpr, TypedKind, TypedStmt};
use sg_words::{Items, Memory};
use std::alloc::Global;

impl Marks {
    /// What is kept of a block in the address slice.
    #[cycle(slices)]
    pub fn slice_block(
        &self,
        alloc: Global,
        block: &[TypedStmt],
    ) -> Result<Items<TypedStmt>, Memory>
        ensures { IfOk result (λ kept. kept ≡ spec.block_slice self.now.walked (unclean_of self.now) block.now) }
    {
        let mut kept = Items::new(alloc);
        for stmt in block {
            if let Some(stmt) = self.slice_stmt(alloc, stmt)? {
                kept.push(stmt)?;
            }
        }
        Ok(kept)
    }

    #[cycle(slices)]
    fn slice_stmt(&self, alloc: Global, stmt: &TypedStmt) -> Result<Option<TypedStmt>, Memory>
        ensures { IfOk result (λ kept. kept_list kept ≡ spec.stmt_slice self.now.walked (unclean_of self.now) stmt.now) }
    {
        let number = stmt.number;
        let kind = match &stmt.kind {
            TypedKind::Let { var, value } => {
                if self.is_dirty(*var) {
                    return Ok(None);
                }
                TypedKind::Let {
                    var: *var,
                    value: copy_expr(alloc, value)?,
                }
            }
            TypedKind::Assign { var, value } => {
                if self.is_dirty(*var) {
                    return Ok(None);
                }
                TypedKind::Assign {
                    var: *var,
                    value: copy_expr(alloc, value)?,
                }
            }
            TypedKind::Write {
                layout,
                place,
                index,
                way,
                value,
            } => {
                if !self.may_activate(*layout, *way) {
                    return Ok(None);
                }
                TypedKind::Write {
                    layout: *layout,
                    place: *place,
                    index: copy_exprs(alloc, index.as_slice())?,
                    way: *way,
                    value: no_value(value),
                }
            }
            TypedKind::If {
                cond,
                yes,
                no,
                has_else,
            } => {
                if !self.is_clean(cond) {
                    return Ok(None);
                }
                TypedKind::If {
                    cond: copy_expr(alloc, cond)?,
                    yes: self.slice_block(alloc, yes.as_slice())?,
                    no: self.slice_block(alloc, no.as_slice())?,
                    has_else: *has_else,
                }
            }
            TypedKind::For { var, range, body } => TypedKind::For {
                var: *var,
                range: copy_range(alloc, range)?,
                body: self.slice_block(alloc, body.as_slice())?,
            },
        };
        Ok(Some(TypedStmt { number, kind }))
    }
}

/// What stands for the value of a write: the literal 0 of its type.
fn no_value(value: &TypedExpr) -> TypedExpr
    ensures { result ≡ spec.no_value value.now }
{
    TypedExpr {
        ty: value.ty,
        form: Form::Literal(0),
    }
}
