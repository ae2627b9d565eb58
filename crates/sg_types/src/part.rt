//! The parts of statements, each judged by itself: the first of the codes 4, 5, 3, 2 and 1, or the typed part.

ghost use Rattle.std.specs.Prelude.{◌≡◌, IfOk};
ghost use Rattle.sg_words.specs.Answers.{Answers};
ghost use Rattle.sg_words.specs.Options.{only_where};
ghost use Rattle.sg_types.specs.TypeTable as table;
ghost use Rattle.sg_types.specs.Statements as spec;
ghost use Rattle.sg_types.specs.steps.Views.{known_view};

use crate::fault::TypeFault;
use crate::known::Known;
use crate::make::{all_signed, is_signed_expr};
use crate::scope::{Local, Scope};
use crate::type_table::{is_truth, same_ty};
use crate::typed::{TypedExpr, TypedKind, TypedRange};
use crate::wrongs::Wrongs;
use sg_ast::{Expr, Name, RangeDecl, WayDecl};
use sg_flat::Way;
use sg_names::FieldAt;
use sg_words::{Items, Memory, Stop};

impl<'a> Known<'a> {
    /// A part of the statement with this number, if nothing is wrong with it and its types fit.
    pub fn judge<T: Drop>(
        &self,
        number: u32,
        wrongs: Wrongs,
        typed: Option<T>,
    ) -> Result<T, Stop<TypeFault>>
        ensures { Answers result (spec.stmt_fault (known_view self.now) number (spec.judged_part wrongs typed)) }
    {
        let code = match wrongs.first_code() {
            Some(code) => code,
            None => match typed {
                Some(typed) => return Ok(typed),
                None => 1,
            },
        };
        Err(Stop::Refused(TypeFault {
            kernel: self.kernel,
            stmt: number,
            code,
        }))
    }

    /// The value of a `let`.
    pub fn let_part(
        &self,
        number: u32,
        scope: &Scope,
        name: &Name,
        value: &Expr,
    ) -> Result<TypedExpr, Stop<TypeFault>>
        ensures { Answers result
            (spec.stmt_fault (known_view self.now) number (spec.let_part
            (known_view self.now) scope.now name.now value.now)) }
    {
        let typed = self.typed_expr(scope, value)?;
        let wrongs = Wrongs {
            unknown: !self.knows(scope, value),
            twice: self.is_taken(scope, name),
            fixed: false,
            miscounted: !self.counts(value),
        };
        self.judge(number, wrongs, typed)
    }

    /// An assignment.
    pub fn assign_part(
        &self,
        number: u32,
        scope: &Scope,
        name: &Name,
        value: &Expr,
    ) -> Result<TypedKind, Stop<TypeFault>>
        ensures { Answers result
            (spec.stmt_fault (known_view self.now) number (spec.assign_part
            (known_view self.now) scope.now name.now value.now)) }
    {
        let typed = self.typed_expr(scope, value)?;
        let local = scope.get(name);
        let wrongs = Wrongs {
            unknown: !(self.is_taken(scope, name) && self.knows(scope, value)),
            twice: false,
            fixed: may_not_assign(local),
            miscounted: !self.counts(value),
        };
        self.judge(number, wrongs, assign_kind(local, typed))
    }

    /// An own write or an accumulation.
    pub fn write_part(
        &self,
        number: u32,
        scope: &Scope,
        field: &Name,
        index: &[Expr],
        way: WayDecl,
        value: &Expr,
    ) -> Result<TypedKind, Stop<TypeFault>>
        ensures { Answers result
            (spec.stmt_fault (known_view self.now) number (spec.write_part
            (known_view self.now) scope.now field.now index.now way value.now)) }
    {
        let typed_index = self.typed_all(scope, index)?;
        let typed = self.typed_expr(scope, value)?;
        let at = self.names.field(field);
        let wrongs = Wrongs {
            unknown: !(at.is_some() && self.knows_all(scope, index) && self.knows(scope, value)),
            twice: false,
            fixed: false,
            miscounted: !(self.has_axes(field, index.len())
                && self.counts_all(index)
                && self.counts(value)),
        };
        self.judge(number, wrongs, write_kind(way, at, typed_index, typed))
    }

    /// The condition of an `if`.
    pub fn if_part(
        &self,
        number: u32,
        scope: &Scope,
        cond: &Expr,
    ) -> Result<TypedExpr, Stop<TypeFault>>
        ensures { Answers result
            (spec.stmt_fault (known_view self.now) number (spec.if_part (known_view self.now) scope.now cond.now)) }
    {
        let typed = self.typed_expr(scope, cond)?;
        let wrongs = Wrongs {
            unknown: !self.knows(scope, cond),
            twice: false,
            fixed: false,
            miscounted: !self.counts(cond),
        };
        self.judge(number, wrongs, only_truth(typed))
    }

    /// The range of an inner `for`.
    pub fn for_part(
        &self,
        number: u32,
        scope: &Scope,
        name: &Name,
        range: &RangeDecl,
    ) -> Result<TypedRange, Stop<TypeFault>>
        ensures { Answers result
            (spec.stmt_fault (known_view self.now) number (spec.for_part
            (known_view self.now) scope.now name.now range.now)) }
    {
        let typed = self.typed_range(scope, range)?;
        let wrongs = Wrongs {
            unknown: !self.knows_range(scope, range),
            twice: self.is_taken(scope, name),
            fixed: false,
            miscounted: !self.counts_range(range),
        };
        self.judge(number, wrongs, typed)
    }

    pub fn knows_range(&self, scope: &Scope, range: &RangeDecl) -> bool
        ensures { result ≡ spec.knows_range (known_view self.now) scope.now range.now }
    {
        self.knows(scope, &range.lo) && self.knows(scope, &range.hi)
    }

    pub fn counts_range(&self, range: &RangeDecl) -> bool
        ensures { result ≡ spec.counts_range (known_view self.now) range.now }
    {
        self.counts(&range.lo) && self.counts(&range.hi)
    }

    pub fn typed_range(
        &self,
        scope: &Scope,
        range: &RangeDecl,
    ) -> Result<Option<TypedRange>, Memory>
        ensures { IfOk result (λ typed. typed ≡ spec.typed_range (known_view self.now) scope.now range.now) }
    {
        let lo = self.typed_expr(scope, &range.lo)?;
        let hi = self.typed_expr(scope, &range.hi)?;
        Ok(range_of(lo, hi))
    }
}

fn may_not_assign(local: Option<Local>) -> bool
    ensures { result ≡ spec.may_not_assign local }
{
    match local {
        Some(local) => local.is_loop,
        None => true,
    }
}

fn assign_kind(local: Option<Local>, value: Option<TypedExpr>) -> Option<TypedKind>
    ensures { result ≡ spec.assign_kind local value }
{
    let local = local?;
    let value = value?;
    if same_ty(value.ty, local.ty) {
        Some(TypedKind::Assign {
            var: local.var,
            value,
        })
    } else {
        None
    }
}

fn way_of(way: WayDecl) -> Way
    ensures { result ≡ spec.declared_way way }
{
    match way {
        WayDecl::Own => Way::Own,
        WayDecl::Acc(op) => Way::Acc(op),
    }
}

fn write_kind(
    way: WayDecl,
    at: Option<FieldAt>,
    index: Option<Items<TypedExpr>>,
    value: Option<TypedExpr>,
) -> Option<TypedKind>
    ensures { result ≡ spec.write_kind way at index value }
{
    let at = at?;
    let index = index?;
    let value = value?;
    if !all_signed(index.as_slice()) || !same_ty(value.ty, at.ty) {
        return None;
    }
    Some(TypedKind::Write {
        layout: at.layout,
        place: at.place,
        index,
        way: way_of(way),
        value,
    })
}

fn only_truth(typed: Option<TypedExpr>) -> Option<TypedExpr>
    ensures { result ≡ only_where (λ typed. table.is_truth typed.ty) typed }
{
    let typed = typed?;
    if is_truth(typed.ty) {
        Some(typed)
    } else {
        None
    }
}

fn range_of(lo: Option<TypedExpr>, hi: Option<TypedExpr>) -> Option<TypedRange>
    ensures { result ≡ spec.range_of lo hi }
{
    let lo = lo?;
    let hi = hi?;
    if is_signed_expr(&lo) && is_signed_expr(&hi) {
        Some(TypedRange { lo, hi })
    } else {
        None
    }
}
