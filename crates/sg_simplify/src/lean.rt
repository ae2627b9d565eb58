//! Code without what nothing needs.
ghost use Rattle.std.specs.Prelude.{◌≡◌, IfOk, OnOk, List, map, reverse};
ghost use Rattle.sg_words.specs.declared.operators.Ty.{Ty};
ghost use Rattle.sg_ir.specs.Blocks.{Block, chained, link, block_of};
ghost use Rattle.sg_simplify.specs.Kept.{kept_part};
ghost use Rattle.sg_words.specs.Spread.{bears_mark};
ghost use Rattle.sg_simplify.specs.steps.Needed.{kept_by};
ghost use Rattle.sg_simplify.specs.steps.Left.{IsLeft, stays};

use crate::needs::{Needs, OUTERMOST, place_node, reg_node, var_node};
use sg_ir::{Code, Inst};
use sg_words::spreads::{is_marked, spread};
use sg_words::{Items, Memory};
use std::alloc::Global;

/// The code without what no write, want, contribution or test needs. Registers and places keep their numbers.
pub(crate) fn lean(alloc: Global, code: Code) -> Result<Code, Memory>
    ensures { IfOk result (IsLeft code) }
{
    let needs = Needs::of(alloc, code.body.as_slice())?;
    let marks = spread(alloc, needs.links.as_slice(), &[OUTERMOST])?;
    let Code {
        regs,
        places,
        vars,
        body,
    } = code;
    let body = kept(alloc, &marks, body)?;
    Ok(Code {
        regs,
        places,
        vars,
        body,
    })
}

/// What is left of a block.
#[cycle(kept)]
fn kept(alloc: Global, marks: &Items<bool>, insts: Items<Inst>) -> Result<Items<Inst>, Memory>
    ensures { IfOk result (λ it. (types : List Ty) → block_of types it ≡ kept_part (kept_by (bears_mark marks.now)) (block_of types insts)) }
{
    let mut last_first = turned(alloc, insts)?;
    let mut out = Items::new(alloc);
    while let Some(inst) = last_first.pop() {
        keep(alloc, marks, inst, &mut out)?;
    }
    Ok(out)
}

/// An instruction, if it is kept.
#[cycle(kept)]
fn keep(alloc: Global, marks: &Items<bool>, inst: Inst, out: &mut Items<Inst>) -> Result<(), Memory>
    ensures { OnOk result ((types : List Ty) (rest : Block) → chained (map (link types) out.old) (kept_part (kept_by (bears_mark marks.now)) (link types inst rest))
        ≡ chained (map (link types) out.new) (kept_part (kept_by (bears_mark marks.now)) rest)) }
{
    match inst {
        Inst::If { cond, yes, no } => {
            let yes = kept(alloc, marks, yes)?;
            let no = kept(alloc, marks, no)?;
            if !yes.is_empty() || !no.is_empty() {
                out.push(Inst::If { cond, yes, no })?;
            }
        }
        Inst::For { var, lo, hi, body } => {
            let body = kept(alloc, marks, body)?;
            if is_marked(marks, var_node(var)) || !body.is_empty() {
                out.push(Inst::For { var, lo, hi, body })?;
            }
        }
        plain => {
            if is_kept(marks, &plain) {
                out.push(plain)?;
            }
        }
    }
    Ok(())
}

/// Instructions from the last to the first.
fn turned(alloc: Global, insts: Items<Inst>) -> Result<Items<Inst>, Memory>
    ensures { IfOk result (λ it. it ≡ reverse insts) }
{
    let mut insts = insts;
    let mut last_first = Items::new(alloc);
    while let Some(inst) = insts.pop() {
        last_first.push(inst)?;
    }
    Ok(last_first)
}

fn has_reg(marks: &Items<bool>, reg: u32) -> bool
    ensures { result ≡ (kept_by (bears_mark marks.now)).regs reg }
{
    is_marked(marks, reg_node(reg))
}

fn has_place(marks: &Items<bool>, place: u32) -> bool
    ensures { result ≡ (kept_by (bears_mark marks.now)).places place }
{
    is_marked(marks, place_node(place))
}

/// Whether an instruction without blocks is kept: one that sets what is marked, and each that writes, contributes or wants.
fn is_kept(marks: &Items<bool>, inst: &Inst) -> bool
    ensures { result ≡ stays (kept_by (bears_mark marks.now)) inst.now }
{
    match inst {
        Inst::Const { to, word: _word } => has_reg(marks, *to),
        Inst::Var { to, var: _var } => has_reg(marks, *to),
        Inst::Set { var, from: _from } => is_marked(marks, var_node(*var)),
        Inst::Bin {
            to,
            op: _op,
            ty: _ty,
            a: _a,
            b: _b,
        } => has_reg(marks, *to),
        Inst::Un {
            to,
            op: _op,
            ty: _ty,
            a: _a,
        } => has_reg(marks, *to),
        Inst::Mulq {
            to,
            a: _a,
            b: _b,
            s: _s,
        } => has_reg(marks, *to),
        Inst::Root {
            to,
            layout: _layout,
        } => has_place(marks, *to),
        Inst::Check {
            to,
            place: _place,
            axis: _axis,
            extent: _extent,
            index: _index,
        } => has_place(marks, *to),
        Inst::Extract {
            to,
            div: _div,
            size: _size,
            from: _from,
        } => has_reg(marks, *to),
        Inst::Offset {
            to,
            high: _high,
            size: _size,
            low: _low,
        } => has_reg(marks, *to),
        Inst::Child {
            to,
            place: _place,
            node: _node,
            offset: _offset,
        } => has_place(marks, *to),
        Inst::HashChild {
            to,
            place: _place,
            node: _node,
            offset: _offset,
        } => has_place(marks, *to),
        Inst::MaskBit {
            to,
            place: _place,
            node: _node,
            offset: _offset,
        } => has_place(marks, *to),
        Inst::DynCell {
            to,
            place: _place,
            node: _node,
            offset: _offset,
        } => has_place(marks, *to),
        Inst::ReadCell {
            to,
            place: _place,
            layout: _layout,
            field: _field,
            index: _index,
        } => has_reg(marks, *to),
        Inst::IsActive {
            to,
            place: _place,
            index: _index,
        } => has_reg(marks, *to),
        Inst::OwnRead {
            to,
            layout: _layout,
            field: _field,
        } => has_reg(marks, *to),
        Inst::OwnWrite {
            layout: _layout,
            field: _field,
            from: _from,
            stmt: _stmt,
        } => true,
        Inst::Acc {
            op: _op,
            layout: _layout,
            field: _field,
            place: _place,
            from: _from,
            index: _index,
            stmt: _stmt,
        } => true,
        Inst::Want {
            layout: _layout,
            index: _index,
            stmt: _stmt,
        } => true,
        Inst::If {
            cond: _cond,
            yes: _yes,
            no: _no,
        } => true,
        Inst::For {
            var: _var,
            lo: _lo,
            hi: _hi,
            body: _body,
        } => true,
    }
}
