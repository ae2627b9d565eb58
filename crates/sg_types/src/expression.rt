//! Expressions: which names are known, which accesses have the right number of indices, and the typed expression.

ghost use Rattle.std.specs.Prelude.{◌≡◌, map, IfOk};
ghost use Rattle.std.specs.List.{list_all};
ghost use Rattle.sg_types.specs.Expressions as spec;
ghost use Rattle.sg_types.specs.steps.Views.{known_view};

use crate::known::Known;
use crate::make;
use crate::scope::Scope;
use crate::typed::TypedExpr;
use sg_ast::Expr;
use sg_words::{Items, Memory};

impl<'a> Known<'a> {
    /// Whether every name in an expression is known.
    #[cycle(knows)]
    pub fn knows(&self, scope: &Scope, expr: &Expr) -> bool
        ensures { result ≡ spec.knows (known_view self.now) scope.now expr.now }
    {
        match expr {
            Expr::Number { .. } | Expr::Truth(_) => true,
            Expr::Name(name) => self.is_taken(scope, name),
            Expr::Read { field, index } => {
                self.has_field(field) && self.knows_all(scope, index.as_slice())
            }
            Expr::Paren(inner) => self.knows(scope, inner.get()),
            Expr::Un { of, .. } => self.knows(scope, of.get()),
            Expr::Bin { left, right, .. } => {
                self.knows(scope, left.get()) && self.knows(scope, right.get())
            }
            Expr::Call { args, .. } => self.knows_all(scope, args.as_slice()),
            Expr::Active { field, index } => {
                self.has_field(field) && self.knows_all(scope, index.as_slice())
            }
        }
    }

    #[cycle(knows)]
    pub fn knows_all(&self, scope: &Scope, exprs: &[Expr]) -> bool
        ensures { result ≡ list_all (spec.knows (known_view self.now) scope.now) exprs.now }
    {
        for expr in exprs {
            if !self.knows(scope, expr) {
                return false;
            }
        }
        true
    }

    /// Whether every access in an expression has as many indices as its layout has axes.
    #[cycle(counts)]
    pub fn counts(&self, expr: &Expr) -> bool
        ensures { result ≡ spec.counts self.now.names.now expr.now }
    {
        match expr {
            Expr::Number { .. } | Expr::Truth(_) | Expr::Name(_) => true,
            Expr::Read { field, index } => {
                self.has_axes(field, index.len()) && self.counts_all(index.as_slice())
            }
            Expr::Paren(inner) => self.counts(inner.get()),
            Expr::Un { of, .. } => self.counts(of.get()),
            Expr::Bin { left, right, .. } => self.counts(left.get()) && self.counts(right.get()),
            Expr::Call { args, .. } => self.counts_all(args.as_slice()),
            Expr::Active { field, index } => {
                self.has_axes(field, index.len()) && self.counts_all(index.as_slice())
            }
        }
    }

    #[cycle(counts)]
    pub fn counts_all(&self, exprs: &[Expr]) -> bool
        ensures { result ≡ list_all (spec.counts self.now.names.now) exprs.now }
    {
        for expr in exprs {
            if !self.counts(expr) {
                return false;
            }
        }
        true
    }

    /// The typed expression, where its names are known and all types fit.
    #[cycle(typed)]
    pub fn typed_expr(&self, scope: &Scope, expr: &Expr) -> Result<Option<TypedExpr>, Memory>
        ensures { IfOk result (λ typed. typed ≡ spec.typed_expr (known_view self.now) scope.now expr.now) }
    {
        match expr {
            Expr::Number { value, unsigned } => Ok(Some(make::number(*value, *unsigned))),
            Expr::Truth(truth) => Ok(Some(make::truth(*truth))),
            Expr::Name(name) => Ok(self.name_expr(scope, name)),
            Expr::Read { field, index } => {
                let Some(index) = self.typed_all(scope, index.as_slice())? else {
                    return Ok(None);
                };
                Ok(make::read(self.names.field(field), index))
            }
            Expr::Paren(inner) => {
                let Some(inner) = self.typed_expr(scope, inner.get())? else {
                    return Ok(None);
                };
                make::paren(self.alloc, inner)
            }
            Expr::Un { op, of } => {
                let Some(operand) = self.typed_expr(scope, of.get())? else {
                    return Ok(None);
                };
                make::un(self.alloc, *op, operand)
            }
            Expr::Bin { op, left, right } => {
                let Some(left) = self.typed_expr(scope, left.get())? else {
                    return Ok(None);
                };
                let Some(right) = self.typed_expr(scope, right.get())? else {
                    return Ok(None);
                };
                make::bin(self.alloc, *op, left, right)
            }
            Expr::Call { callee, args } => {
                let Some(args) = self.typed_all(scope, args.as_slice())? else {
                    return Ok(None);
                };
                make::call(self.alloc, *callee, args)
            }
            Expr::Active { field, index } => {
                let Some(index) = self.typed_all(scope, index.as_slice())? else {
                    return Ok(None);
                };
                Ok(make::active(self.names.field(field), index))
            }
        }
    }

    /// The typed expressions, where each is there.
    #[cycle(typed)]
    pub fn typed_all(
        &self,
        scope: &Scope,
        exprs: &[Expr],
    ) -> Result<Option<Items<TypedExpr>>, Memory>
        ensures { IfOk result (λ typed. typed ≡
            spec.all_some (map (spec.typed_expr (known_view self.now) scope.now) exprs.now)) }
    {
        let mut typed = Items::new(self.alloc);
        for expr in exprs {
            let Some(next) = self.typed_expr(scope, expr)? else {
                return Ok(None);
            };
            typed.push(next)?;
        }
        Ok(Some(typed))
    }
}
