//! Which layouts a kernel asks by `active`.

ghost use Rattle.std.specs.Prelude.{◌≡◌, ◌&&◌, false};
ghost use Rattle.std.specs.List.{list_all};
ghost use Rattle.sg_admit.specs.Lines.{Around, line_of, Opens, nothing_round, domain_ranges, stmt_lines, block_lines};
ghost use Rattle.sg_admit.specs.Neutral as neutral;
ghost use Rattle.sg_admit.specs.Rules.{has_good_asks, is_unwritten, writes_layout as spec_writes_layout};
ghost use Rattle.sg_admit.specs.steps.Marked.{marked_facts};
ghost use Rattle.sg_admit.specs.steps.Reading.{may_ask as spec_may_ask, is_askable_range};

use crate::marks::Marks;
use crate::ways::FieldWay;
use sg_types::{Form, TypedDomain, TypedExpr, TypedKernel, TypedKind, TypedRange, TypedStmt};

/// Whether some field of a layout is written in one of these ways.
fn writes_layout(ways: &[FieldWay], layout: u32) -> bool
    ensures { result ≡ spec_writes_layout ways.now layout }
{
    ways.iter().any(|it| it.layout == layout)
}

fn may_ask(any: bool, ways: &[FieldWay], layout: u32) -> bool
    ensures { result ≡ spec_may_ask any ways.now layout }
{
    any && !writes_layout(ways, layout)
}

/// Whether each `active` in an expression asks a layout that may be asked: any but those that are written in these ways, or none.
#[cycle(asks)]
fn good_asks(any: bool, ways: &[FieldWay], expr: &TypedExpr) -> bool
    ensures { result ≡ has_good_asks (spec_may_ask any ways.now) expr.now }
{
    match &expr.form {
        Form::Literal(_word) => true,
        Form::Constant(_word) => true,
        Form::Var(_var) => true,
        Form::Read {
            layout: _layout,
            place: _place,
            index,
        } => all_good_asks(any, ways, index.as_slice()),
        Form::Paren(inner) => good_asks(any, ways, inner.get()),
        Form::Un { op: _op, of } => good_asks(any, ways, of.get()),
        Form::Bin {
            op: _op,
            left,
            right,
        } => good_asks(any, ways, left.get()) && good_asks(any, ways, right.get()),
        Form::Mulq { a, b, s } => {
            good_asks(any, ways, a.get())
                && (good_asks(any, ways, b.get()) && good_asks(any, ways, s.get()))
        }
        Form::Convert(inner) => good_asks(any, ways, inner.get()),
        Form::Active { layout, index } => {
            may_ask(any, ways, *layout) && all_good_asks(any, ways, index.as_slice())
        }
    }
}

#[cycle(asks)]
fn all_good_asks(any: bool, ways: &[FieldWay], exprs: &[TypedExpr]) -> bool
    ensures { result ≡ list_all (has_good_asks (spec_may_ask any ways.now)) exprs.now }
{
    for expr in exprs {
        if !good_asks(any, ways, expr) {
            return false;
        }
    }
    true
}

fn is_good_range(any: bool, ways: &[FieldWay], range: &TypedRange) -> bool
    ensures { result ≡ is_askable_range (spec_may_ask any ways.now) range.now }
{
    good_asks(any, ways, &range.lo) && good_asks(any, ways, &range.hi)
}

fn are_good_ranges(any: bool, ways: &[FieldWay], ranges: &[TypedRange]) -> bool
    ensures { result ≡ list_all (is_askable_range (spec_may_ask any ways.now)) ranges.now }
{
    for range in ranges {
        if !is_good_range(any, ways, range) {
            return false;
        }
    }
    true
}

impl Marks {
    /// Whether an expression asks no layout into which the kernel writes.
    pub fn asks_unwritten(&self, expr: &TypedExpr) -> bool
        ensures { result ≡ has_good_asks (is_unwritten (marked_facts self.now)) expr.now }
    {
        good_asks(true, self.ways.as_slice(), expr)
    }

    fn all_ask_unwritten(&self, exprs: &[TypedExpr]) -> bool
        ensures { result ≡ list_all (has_good_asks (is_unwritten (marked_facts self.now))) exprs.now }
    {
        all_good_asks(true, self.ways.as_slice(), exprs)
    }

    /// Whether neither the indices of a write nor its value ask a layout into which the kernel writes.
    pub fn is_askable_write(&self, index: &[TypedExpr], value: &TypedExpr) -> bool
        ensures { result ≡ (list_all (has_good_asks (is_unwritten (marked_facts self.now))) index.now
            && has_good_asks (is_unwritten (marked_facts self.now)) value.now) }
    {
        self.all_ask_unwritten(index) && self.asks_unwritten(value)
    }

    /// The same of the bounds of a range.
    pub fn is_askable_range(&self, range: &TypedRange) -> bool
        ensures { result ≡ is_askable_range (is_unwritten (marked_facts self.now)) range.now }
    {
        is_good_range(true, self.ways.as_slice(), range)
    }

    /// The same of the bounds of several ranges.
    pub fn are_askable_ranges(&self, ranges: &[TypedRange]) -> bool
        ensures { result ≡ list_all (is_askable_range (is_unwritten (marked_facts self.now))) ranges.now }
    {
        are_good_ranges(true, self.ways.as_slice(), ranges)
    }
}

#[cycle(silent)]
fn block_asks_nothing(block: &[TypedStmt]) -> bool
    ensures { (around : Around) → result ≡ list_all neutral.asks_nothing_in (block_lines block.now around) }
{
    for stmt in block {
        if !stmt_asks_nothing(stmt) {
            return false;
        }
    }
    true
}

#[cycle(silent)]
fn stmt_asks_nothing(stmt: &TypedStmt) -> bool
    ensures { (around : Around) → result ≡ list_all neutral.asks_nothing_in (stmt_lines stmt.now around) }
{
    match &stmt.kind {
        TypedKind::Let { var: _var, value } => good_asks(false, &[], value),
        TypedKind::Assign { var: _var, value } => good_asks(false, &[], value),
        TypedKind::Write {
            layout: _layout,
            place: _place,
            index,
            way: _way,
            value,
        } => all_good_asks(false, &[], index.as_slice()) && good_asks(false, &[], value),
        TypedKind::If {
            cond,
            yes,
            no,
            has_else: _has_else,
        } => {
            good_asks(false, &[], cond)
                && (block_asks_nothing(yes.as_slice()) && block_asks_nothing(no.as_slice()))
        }
        TypedKind::For {
            var: _var,
            range,
            body,
        } => is_good_range(false, &[], range) && block_asks_nothing(body.as_slice()),
    }
}

fn domain_asks_nothing(domain: &TypedDomain) -> bool
    ensures { result ≡ neutral.asks_nothing_in (line_of 0 nothing_round (Opens (domain_ranges domain.now))) }
{
    match domain {
        TypedDomain::Walk(_layout) => true,
        TypedDomain::Ranges(ranges) => are_good_ranges(false, &[], ranges.as_slice()),
    }
}

/// Whether no `active` stands in a kernel, neither in its statements nor in its bounds.
pub(crate) fn asks_nothing(kernel: &TypedKernel) -> bool
    ensures { result ≡ neutral.asks_nothing kernel.now }
{
    domain_asks_nothing(&kernel.domain) && block_asks_nothing(kernel.body.as_slice())
}
