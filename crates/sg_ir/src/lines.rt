//! The text of access code.
ghost use Rattle.std.specs.Prelude.{◌≡◌, ◌++◌, IfOk, OnOk, string_bytes};
ghost use Rattle.sg_ir.specs.Texts as spec;

use crate::code::{Code, Inst};
use crate::operators::{acc_name, bin_name, ty_name, un_name};
use sg_words::{AccOp, BinOp, Items, Memory, Text, Ty, UnOp};
use std::alloc::{AllocError, Global};

/// The text of code: a line for each instruction, indented by two spaces more inside `if` and `for`.
pub fn text(alloc: Global, code: &Code) -> Result<Text, Memory>
    ensures { IfOk result (λ text. text.bytes ≡ spec.code_text code.now) }
{
    let mut text = String::new(alloc);
    push_block(alloc, code.body.as_slice(), "", &mut text)?;
    Ok(Text {
        bytes: Items::from_vec(text.into_bytes()),
    })
}

/// Adds the lines of a block, with these spaces before each.
#[cycle(lines)]
fn push_block(
    alloc: Global,
    block: &[Inst],
    indent: &str,
    text: &mut String,
) -> Result<(), AllocError>
    ensures { OnOk result (string_bytes text.new ≡ string_bytes text.old ++ spec.block_text block.now indent.now) }
{
    for inst in block {
        push_inst(alloc, inst, indent, text)?;
    }
    Ok(())
}

/// Adds the lines of an instruction, with these spaces before each.
#[cycle(lines)]
fn push_inst(alloc: Global, inst: &Inst, indent: &str, text: &mut String) -> Result<(), AllocError>
    ensures { OnOk result (string_bytes text.new ≡ string_bytes text.old ++ spec.inst_text inst.now indent.now) }
{
    match inst {
        Inst::Const { to, word } => write!(text, "{indent}r{to} = const {word}\n"),
        Inst::Var { to, var } => write!(text, "{indent}r{to} = var {var}\n"),
        Inst::Set { var, from } => write!(text, "{indent}set {var} r{from}\n"),
        Inst::Bin { to, op, ty, a, b } => push_binary(*to, *op, *ty, *a, *b, indent, text),
        Inst::Un { to, op, ty, a } => push_unary(*to, *op, *ty, *a, indent, text),
        Inst::Mulq { to, a, b, s } => write!(text, "{indent}r{to} = mulq r{a} r{b} r{s}\n"),
        Inst::Root { to, layout } => write!(text, "{indent}p{to} = root {layout}\n"),
        Inst::Check {
            to,
            place,
            axis,
            extent,
            index,
        } => {
            write!(
                text,
                "{indent}p{to} = check p{place} {axis} {extent} r{index}\n"
            )
        }
        Inst::Extract {
            to,
            div,
            size,
            from,
        } => push_extract("extract", *to, *div, *size, *from, indent, text),
        Inst::Offset {
            to,
            high,
            size,
            low,
        } => push_offset("offset", *to, *high, *size, *low, indent, text),
        Inst::Child {
            to,
            place,
            node,
            offset,
        } => { push_step("child", *to, *place, *node, *offset, indent, text) }
        Inst::HashChild {
            to,
            place,
            node,
            offset,
        } => { push_step("hashchild", *to, *place, *node, *offset, indent, text) }
        Inst::MaskBit {
            to,
            place,
            node,
            offset,
        } => { push_step("maskbit", *to, *place, *node, *offset, indent, text) }
        Inst::DynCell {
            to,
            place,
            node,
            offset,
        } => { push_step("dyncell", *to, *place, *node, *offset, indent, text) }
        Inst::ReadCell {
            to,
            place,
            layout,
            field,
            index,
        } => { push_read(*to, *place, *layout, *field, index.as_slice(), indent, text) }
        Inst::IsActive { to, place, index } => {
            push_active(*to, *place, index.as_slice(), indent, text)
        }
        Inst::OwnRead { to, layout, field } => push_own_read(
            "ownread", *to, *layout, *field, indent, text,
        ),
        Inst::OwnWrite {
            layout,
            field,
            from,
            stmt: _stmt,
        } => { push_own_write(*layout, *field, *from, indent, text) }
        Inst::Acc {
            op,
            layout,
            field,
            place,
            from,
            index,
            stmt: _stmt,
        } => {
            push_contribution(
                *op,
                *layout,
                *field,
                *place,
                *from,
                index.as_slice(),
                indent,
                text,
            )
        }
        Inst::Want {
            layout,
            index,
            stmt: _stmt,
        } => push_want(*layout, index.as_slice(), indent, text),
        Inst::If { cond, yes, no } => {
            let deeper = format!(in alloc; "{indent}  ")?;
            write!(text, "{indent}if r{cond}\n")?;
            push_block(alloc, yes.as_slice(), deeper.as_str(), text)?;
            write!(text, "{indent}else\n")?;
            push_block(alloc, no.as_slice(), deeper.as_str(), text)?;
            write!(text, "{indent}end\n")
        }
        Inst::For { var, lo, hi, body } => push_for(
            alloc,
            *var,
            *lo,
            *hi,
            body.as_slice(),
            indent,
            text,
        ),
    }
}

/// Adds the lines of a `for`.
#[cycle(lines)]
fn push_for(
    alloc: Global,
    var: u32,
    lo: i32,
    hi: i32,
    body: &[Inst],
    indent: &str,
    text: &mut String,
) -> Result<(), AllocError>
    ensures { OnOk result (string_bytes text.new ≡ string_bytes text.old ++ spec.for_text var lo hi body.now indent.now) }
{
    let deeper = format!(in alloc; "{indent}  ")?;
    write!(text, "{indent}for {var} {lo} {hi}\n")?;
    push_block(alloc, body, deeper.as_str(), text)?;
    write!(text, "{indent}end\n")
}

fn push_binary(
    to: u32,
    op: BinOp,
    ty: Ty,
    a: u32,
    b: u32,
    indent: &str,
    text: &mut String,
) -> Result<(), AllocError>
    ensures { OnOk result (string_bytes text.new ≡ string_bytes text.old ++ spec.line indent.now (spec.bin_line to op ty a b)) }
{
    let op = bin_name(op);
    let ty = ty_name(ty);
    write!(text, "{indent}r{to} = {op} {ty} r{a} r{b}\n")
}

fn push_extract(
    name: &str,
    to: u32,
    div: u32,
    size: u32,
    from: u32,
    indent: &str,
    text: &mut String,
) -> Result<(), AllocError>
    ensures { OnOk result (string_bytes text.new ≡ string_bytes text.old ++ spec.line indent.now (spec.extract_line name.now to div size from)) }
{
    write!(text, "{indent}r{to} = {name} {div} {size} r{from}\n")
}

fn push_offset(
    name: &str,
    to: u32,
    high: u32,
    size: u32,
    low: u32,
    indent: &str,
    text: &mut String,
) -> Result<(), AllocError>
    ensures { OnOk result (string_bytes text.new ≡ string_bytes text.old ++ spec.line indent.now (spec.offset_line name.now to high size low)) }
{
    write!(text, "{indent}r{to} = {name} r{high} {size} r{low}\n")
}

fn push_step(
    name: &str,
    to: u32,
    place: u32,
    node: u32,
    offset: u32,
    indent: &str,
    text: &mut String,
) -> Result<(), AllocError>
    ensures { OnOk result (string_bytes text.new ≡ string_bytes text.old ++ spec.line indent.now (spec.step_line name.now to place node offset)) }
{
    write!(text, "{indent}p{to} = {name} p{place} {node} r{offset}\n")
}

fn push_own_read(
    name: &str,
    to: u32,
    layout: u32,
    field: u32,
    indent: &str,
    text: &mut String,
) -> Result<(), AllocError>
    ensures { OnOk result (string_bytes text.new ≡ string_bytes text.old ++ spec.line indent.now (spec.own_read_line name.now to layout field)) }
{
    write!(text, "{indent}r{to} = {name} {layout} {field}\n")
}

fn push_own_write(
    layout: u32,
    field: u32,
    from: u32,
    indent: &str,
    text: &mut String,
) -> Result<(), AllocError>
    ensures { OnOk result (string_bytes text.new ≡ string_bytes text.old ++ spec.line indent.now (spec.own_write_line layout field from)) }
{
    write!(text, "{indent}ownwrite {layout} {field} r{from}\n")
}

fn push_unary(
    to: u32,
    op: UnOp,
    ty: Ty,
    a: u32,
    indent: &str,
    text: &mut String,
) -> Result<(), AllocError>
    ensures { OnOk result (string_bytes text.new ≡ string_bytes text.old ++ spec.line indent.now (spec.un_line to op ty a)) }
{
    let op = un_name(op);
    let ty = ty_name(ty);
    write!(text, "{indent}r{to} = {op} {ty} r{a}\n")
}

fn push_read(
    to: u32,
    place: u32,
    layout: u32,
    field: u32,
    index: &[u32],
    indent: &str,
    text: &mut String,
) -> Result<(), AllocError>
    ensures { OnOk result (string_bytes text.new ≡ string_bytes text.old ++ spec.line indent.now (spec.read_line to place layout field index.now)) }
{
    write!(text, "{indent}r{to} = read p{place} {layout} {field}")?;
    push_index(index, text)?;
    text.push_str("\n")
}

fn push_active(
    to: u32,
    place: u32,
    index: &[u32],
    indent: &str,
    text: &mut String,
) -> Result<(), AllocError>
    ensures { OnOk result (string_bytes text.new ≡ string_bytes text.old ++ spec.line indent.now (spec.active_line to place index.now)) }
{
    write!(text, "{indent}r{to} = active p{place}")?;
    push_index(index, text)?;
    text.push_str("\n")
}

fn push_contribution(
    op: AccOp,
    layout: u32,
    field: u32,
    place: u32,
    from: u32,
    index: &[u32],
    indent: &str,
    text: &mut String,
) -> Result<(), AllocError>
    ensures { OnOk result (string_bytes text.new ≡ string_bytes text.old ++ spec.line indent.now (spec.acc_line op layout field place from index.now)) }
{
    let op = acc_name(op);
    write!(text, "{indent}acc {op} {layout} {field} p{place} r{from}")?;
    push_index(index, text)?;
    text.push_str("\n")
}

fn push_want(layout: u32, index: &[u32], indent: &str, text: &mut String) -> Result<(), AllocError>
    ensures { OnOk result (string_bytes text.new ≡ string_bytes text.old ++ spec.line indent.now (spec.want_line layout index.now)) }
{
    write!(text, "{indent}want {layout}")?;
    push_index(index, text)?;
    text.push_str("\n")
}

/// Adds index registers, each after a space.
fn push_index(index: &[u32], text: &mut String) -> Result<(), AllocError>
    ensures { OnOk result (string_bytes text.new ≡ string_bytes text.old ++ spec.index_text index.now) }
{
    for reg in index {
        write!(text, " r{reg}")?;
    }
    Ok(())
}
