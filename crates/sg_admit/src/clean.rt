ghost use Rattle.std.specs.Prelude.{◌≡◌};
ghost use Rattle.std.specs.List.{list_all};
ghost use Rattle.sg_admit.specs.Clean as spec;
ghost use Rattle.sg_admit.specs.steps.Marked.{unclean_of};

use crate::marks::Marks;
use sg_types::{Form, TypedExpr};

impl Marks {
    /// Whether an expression reads no written field and no dirty variable.
    #[cycle(clean)]
    pub fn is_clean(&self, expr: &TypedExpr) -> bool
        ensures { result ≡ spec.is_clean (unclean_of self.now) expr.now }
    {
        match &expr.form {
            Form::Literal(_word) => true,
            Form::Constant(_word) => true,
            Form::Var(var) => !self.is_dirty(*var),
            Form::Read {
                layout,
                place,
                index,
            } => !self.writes(*layout, *place) && self.all_clean(index.as_slice()),
            Form::Paren(inner) => self.is_clean(inner.get()),
            Form::Un { op: _op, of } => self.is_clean(of.get()),
            Form::Bin {
                op: _op,
                left,
                right,
            } => self.is_clean(left.get()) && self.is_clean(right.get()),
            Form::Mulq { a, b, s } => {
                self.is_clean(a.get()) && (self.is_clean(b.get()) && self.is_clean(s.get()))
            }
            Form::Convert(inner) => self.is_clean(inner.get()),
            Form::Active {
                layout: _layout,
                index,
            } => self.all_clean(index.as_slice()),
        }
    }

    #[cycle(clean)]
    pub fn all_clean(&self, exprs: &[TypedExpr]) -> bool
        ensures { result ≡ list_all (spec.is_clean (unclean_of self.now)) exprs.now }
    {
        for expr in exprs {
            if !self.is_clean(expr) {
                return false;
            }
        }
        true
    }
}
