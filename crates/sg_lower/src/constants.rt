ghost use Rattle.std.specs.Prelude.{◌≡◌};
ghost use Rattle.sg_words.specs.declared.operators.Ty.TheVariants as ty;
ghost use Rattle.sg_words.specs.Words as words;
ghost use Rattle.sg_admit.specs.Bounds.{constant_word};

use sg_types::{Form, TypedExpr};
use sg_words::{Ty, apply, apply_un, mulq, number};

/// The number of the word of a constant expression.
pub(crate) fn constant_number(expr: &TypedExpr) -> i32
    ensures { result ≡ words.number ty.I32 (constant_word expr.now) }
{
    number(Ty::I32, constant(expr)) as i32
}

/// The word of a constant expression; variables, reads and questions count as 0.
fn constant(expr: &TypedExpr) -> u32
    ensures { result ≡ constant_word expr.now }
{
    match &expr.form {
        Form::Literal(word) => *word,
        Form::Constant(word) => *word,
        Form::Var(_var) => 0,
        Form::Read {
            layout: _layout,
            place: _place,
            index: _index,
        } => 0,
        Form::Paren(inner) => constant(inner.get()),
        Form::Un { op, of } => apply_un(*op, constant(of.get())),
        Form::Bin { op, left, right } => apply(
            *op,
            left.get().ty,
            constant(left.get()),
            constant(right.get()),
        ),
        Form::Mulq { a, b, s } => mulq(constant(a.get()), constant(b.get()), constant(s.get())),
        Form::Convert(inner) => constant(inner.get()),
        Form::Active {
            layout: _layout,
            index: _index,
        } => 0,
    }
}
