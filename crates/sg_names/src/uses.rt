//! Whether an item uses a name that no item before it declares as what the use needs.

ghost use Rattle.std.specs.Prelude.{◌≡◌, ◌||◌};
ghost use Rattle.std.specs.List.{list_any};
ghost use Rattle.sg_ast.specs.declared.program.Item.TheVariants as item;
ghost use Rattle.sg_names.specs.Uses.{reads_of, range_reads, stmt_fields, domain_layouts, domain_fields};
ghost use Rattle.sg_names.specs.Names.{is_no_layout, is_no_field, uses_unknown};

use crate::commands::needs_unknown;
use crate::names::Names;
use crate::sizes::sizes_unknown;
use sg_ast::{DomainDecl, Expr, Item, KernelDecl, RangeDecl, Stmt};

/// Whether one of the names is not in the tables.
pub fn uses_unknown(names: &Names, item: &Item) -> bool
    ensures { result ≡ uses_unknown names.now item.now }
{
    match item {
        Item::Const(_) => false,
        Item::Layout(decl) => sizes_unknown(names, decl.nodes.as_slice()),
        Item::Kernel(decl) => kernel_unknown(names, decl),
        Item::Command(command) => needs_unknown(names, command),
    }
}

fn kernel_unknown(names: &Names, kernel: &KernelDecl) -> bool
    ensures { result ≡ uses_unknown names.now (item.Kernel kernel.now) }
{
    domain_unknown(names, &kernel.domain) || block_unknown(names, kernel.body.as_slice())
}

fn domain_unknown(names: &Names, domain: &DomainDecl) -> bool
    ensures { result ≡ (list_any (is_no_layout names.now) (domain_layouts domain.now) || list_any (is_no_field names.now) (domain_fields domain.now)) }
{
    match domain {
        DomainDecl::Layout(name) => names.lacks_layout(name),
        DomainDecl::Ranges(ranges) => ranges_unknown(names, ranges.as_slice()),
    }
}

fn ranges_unknown(names: &Names, ranges: &[RangeDecl]) -> bool
    ensures { result ≡ list_any (λ range. list_any (is_no_field names.now) (range_reads range)) ranges.now }
{
    ranges.iter().any(|range| range_unknown(names, range))
}

fn range_unknown(names: &Names, range: &RangeDecl) -> bool
    ensures { result ≡ list_any (is_no_field names.now) (range_reads range.now) }
{
    reads_unknown(names, &range.lo) || reads_unknown(names, &range.hi)
}

#[cycle(statements)]
fn block_unknown(names: &Names, block: &[Stmt]) -> bool
    ensures { result ≡ list_any (λ statement. list_any (is_no_field names.now) (stmt_fields statement)) block.now }
{
    for statement in block {
        if stmt_unknown(names, statement) {
            return true;
        }
    }
    false
}

#[cycle(statements)]
fn stmt_unknown(names: &Names, statement: &Stmt) -> bool
    ensures { result ≡ list_any (is_no_field names.now) (stmt_fields statement.now) }
{
    match statement {
        Stmt::Let { value, .. } | Stmt::Assign { value, .. } => reads_unknown(names, value),
        Stmt::Write {
            field,
            index,
            value,
            ..
        } => {
            names.lacks_field(field)
                || (any_reads_unknown(names, index.as_slice()) || reads_unknown(names, value))
        }
        Stmt::If { cond, yes, no } => {
            reads_unknown(names, cond)
                || (block_unknown(names, yes.as_slice())
                    || match no {
                        None => false,
                        Some(block) => block_unknown(names, block.as_slice()),
                    })
        }
        Stmt::For { range, body, .. } => {
            range_unknown(names, range) || block_unknown(names, body.as_slice())
        }
    }
}

#[cycle(reads)]
fn any_reads_unknown(names: &Names, parts: &[Expr]) -> bool
    ensures { result ≡ list_any (λ part. list_any (is_no_field names.now) (reads_of part)) parts.now }
{
    for part in parts {
        if reads_unknown(names, part) {
            return true;
        }
    }
    false
}

#[cycle(reads)]
fn reads_unknown(names: &Names, expression: &Expr) -> bool
    ensures { result ≡ list_any (is_no_field names.now) (reads_of expression.now) }
{
    match expression {
        Expr::Number { .. } | Expr::Truth(_) | Expr::Name(_) => false,
        Expr::Read { field, index } => {
            names.lacks_field(field) || any_reads_unknown(names, index.as_slice())
        }
        Expr::Paren(inner) => reads_unknown(names, inner.get()),
        Expr::Un { of, .. } => reads_unknown(names, of.get()),
        Expr::Bin { left, right, .. } => {
            reads_unknown(names, left.get()) || reads_unknown(names, right.get())
        }
        Expr::Call { args, .. } => any_reads_unknown(names, args.as_slice()),
        Expr::Active { field, index } => {
            names.lacks_field(field) || any_reads_unknown(names, index.as_slice())
        }
    }
}
