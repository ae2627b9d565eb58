ghost use Rattle.std.specs.Prelude.{◌≡◌};
ghost use Rattle.sg_admit.specs.steps.Marked.{word_if_constant};

use sg_types::{Form, TypedExpr};
use sg_words::{apply, apply_un, mulq};

/// The word of a constant expression; None for any other.
pub(crate) fn constant(expr: &TypedExpr) -> Option<u32>
    ensures { result ≡ word_if_constant expr.now }
{
    match &expr.form {
        Form::Literal(word) => Some(*word),
        Form::Constant(word) => Some(*word),
        Form::Var(_var) => None,
        Form::Read {
            layout: _layout,
            place: _place,
            index: _index,
        } => None,
        Form::Paren(inner) => constant(inner.get()),
        Form::Un { op, of } => {
            let of = constant(of.get())?;
            Some(apply_un(*op, of))
        }
        Form::Bin { op, left, right } => {
            let ty = left.get().ty;
            let left = constant(left.get())?;
            let right = constant(right.get())?;
            Some(apply(*op, ty, left, right))
        }
        Form::Mulq { a, b, s } => {
            let a = constant(a.get())?;
            let b = constant(b.get())?;
            let s = constant(s.get())?;
            Some(mulq(a, b, s))
        }
        Form::Convert(inner) => constant(inner.get()),
        Form::Active {
            layout: _layout,
            index: _index,
        } => None,
    }
}
