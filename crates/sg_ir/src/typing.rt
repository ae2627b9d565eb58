//! Whether code is well typed.
ghost use Rattle.std.specs.Prelude.{◌≡◌, ℕ, ◌&&◌, ◌==◌, min, IsTrue};
ghost use Rattle.sg_ir.specs.WellTyped.{is_well_typed, has_no_twice, set_regs, set_places, setters_in, frame_of, first_scope};
ghost use Rattle.sg_ir.specs.steps.Frames.{frame_in, free_in, is_good, are_good, is_without_blocks};

use crate::before::{Before, passed_by};
use crate::code::{Code, Inst};
use crate::kinds::{StepKind, both, joins};
use crate::settings::{Next, Target, are_once, ascend, setters};
use sg_layout::{Layout, Layouts};
use sg_words::Ty;

/// Whether code is well typed for these layouts: what is used was set before, in the same block or one round it, registers and
/// places are set once, numbers are in range, truth values join only with truth values, and places go down node by node.
pub fn well_typed(code: &Code, layouts: &Layouts) -> bool
    ensures { result ≡ is_well_typed layouts.now.list code.now }
{
    let body = code.body.as_slice();
    let typing = typing_of(code, layouts);
    if typing.block_fits(body, &Before::Start) {
        sets_once(body)
    } else {
        false
    }
}

/// What the instructions of code are judged by.
fn typing_of<'x>(code: &'x Code, layouts: &'x Layouts) -> Typing<'x>
    ensures frame { frame_in result ≡ frame_of layouts.now.list code.now }
    ensures free { (v : ℕ) → free_in result v ≡ (first_scope code.now.body).vars v }
{
    let body = code.body.as_slice();
    let a = is_unset(body, 0);
    let b = is_unset(body, 1);
    let c = is_unset(body, 2);
    Typing {
        layouts: layouts.list.as_slice(),
        regs: code.regs.as_slice(),
        places: code.places,
        vars: code.vars.as_slice(),
        body,
        a,
        b,
        c,
    }
}

/// Whether no instruction sets a variable.
fn is_unset(body: &[Inst], var: u64) -> bool
    ensures { result ≡ (setters_in body.now var == 0) }
{
    var_setters(body, var) == 0
}

/// Whether one instruction alone sets a variable.
pub(crate) fn is_set_once(body: &[Inst], var: u64) -> bool
    ensures { result ≡ (setters_in body.now var == 1) }
{
    var_setters(body, var) == 1
}

/// How many instructions set a variable: 2 stands for more too.
fn var_setters(body: &[Inst], var: u64) -> u8
    ensures { result ≡ min 2 (setters_in body.now var) }
{
    setters(body, Target::Var(var))
}

/// Whether no register and no place is set twice.
fn sets_once(body: &[Inst]) -> bool
    ensures { result ≡ (has_no_twice (set_regs body.now) && has_no_twice (set_places body.now)) }
{
    match ascend(body, Next { reg: 0, place: 0 }) {
        Some(_end) => true,
        None => are_once(body, body),
    }
}

/// What instructions are judged by: the layouts, what the code declares, all of it, and which of the first three variables no
/// instruction sets.
#[derive(Drop)]
pub(crate) struct Typing<'a> {
    pub(crate) layouts: &'a [Layout],
    pub(crate) regs: &'a [Ty],
    pub(crate) places: u32,
    pub(crate) vars: &'a [Ty],
    pub(crate) body: &'a [Inst],
    pub(crate) a: bool,
    pub(crate) b: bool,
    pub(crate) c: bool,
}

impl Typing<'_> {
    /// Whether all instructions of a block are good, after what stands before it.
    #[cycle(judge)]
    fn block_fits<'x>(&self, block: &'x [Inst], before: &'x Before<'x>) -> bool
        ensures { result ≡ are_good self.now before.now block.now }
    {
        for (done, inst) in block.iter().enumerate() {
            let here = Before::Block {
                done: &block[..done],
                outer: before,
            };
            if !self.inst_fits(inst, &here) {
                return false;
            }
        }
        true
    }

    /// Whether an instruction is good, after what stands before it.
    #[cycle(judge)]
    fn inst_fits<'x>(&self, inst: &'x Inst, before: &'x Before<'x>) -> bool
        ensures { result ≡ is_good self.now before.now inst.now }
    {
        match inst {
            Inst::If { cond, yes, no } => {
                let blocks = both(
                    self.block_fits(yes.as_slice(), before),
                    self.block_fits(no.as_slice(), before),
                );
                both(self.reads(before, true, *cond), blocks)
            }
            Inst::For {
                var,
                lo: _lo,
                hi: _hi,
                body,
            } => {
                let here = Before::Loop {
                    var: *var,
                    outer: before,
                };
                both(
                    self.is_loop_var(*var),
                    self.block_fits(body.as_slice(), &here),
                )
            }
            _ => self.plain_fits(inst, before),
        }
    }

    /// Whether an instruction without blocks is good.
    fn plain_fits(&self, inst: &Inst, before: &Before) -> bool
        requires { IsTrue (is_without_blocks inst.now) }
        ensures { result ≡ is_good self.now before.now inst.now }
    {
        match inst {
            Inst::Const { to, word: _word } => (*to as usize) < self.regs.len(),
            Inst::Var { to, var } => self.var_fits(before, *to, *var),
            Inst::Set { var, from } => self.set_fits(before, *var, *from),
            Inst::Bin {
                to,
                op,
                ty: _ty,
                a,
                b,
            } => self.bin_fits(before, *to, *op, *a, *b),
            Inst::Un { to, op, ty: _ty, a } => self.un_fits(before, *to, *op, *a),
            Inst::Mulq { to, a, b, s } => self.mulq_fits(before, *to, *a, *b, *s),
            Inst::Root { to, layout } => both(
                *to < self.places,
                (*layout as usize) < self.layouts.len(),
            ),
            Inst::Check {
                to,
                place,
                axis,
                extent,
                index,
            } => self.check_fits(before, *to, *place, *axis, *extent, *index),
            Inst::Extract {
                to,
                div,
                size,
                from,
            } => self.extract_fits(before, *to, *div, *size, *from),
            Inst::Offset {
                to,
                high,
                size,
                low,
            } => self.offset_fits(before, *to, *high, *size, *low),
            Inst::Child {
                to,
                place,
                node,
                offset,
            } => self.step_fits(before, StepKind::Child, *to, *place, *node, *offset),
            Inst::HashChild {
                to,
                place,
                node,
                offset,
            } => self.step_fits(before, StepKind::Key, *to, *place, *node, *offset),
            Inst::MaskBit {
                to,
                place,
                node,
                offset,
            } => self.step_fits(before, StepKind::Bit, *to, *place, *node, *offset),
            Inst::DynCell {
                to,
                place,
                node,
                offset,
            } => self.step_fits(before, StepKind::Length, *to, *place, *node, *offset),
            Inst::ReadCell {
                to,
                place,
                layout,
                field,
                index,
            } => {
                let joined = joins(self.field(*layout, *field), self.reg(*to));
                let last = both(joined, self.indexes(before, *layout, index.as_slice()));
                both(self.is_cell(passed_by(before, *place), *layout), last)
            }
            Inst::IsActive { to, place, index } => {
                self.active_fits(before, *to, *place, index.as_slice())
            }
            Inst::OwnRead { to, layout, field } => joins(
                self.field(*layout, *field),
                self.reg(*to),
            ),
            Inst::OwnWrite {
                layout,
                field,
                from,
                stmt: _stmt,
            } => self.own_write_fits(before, *layout, *field, *from),
            Inst::Acc {
                op: _op,
                layout,
                field,
                place,
                from,
                index,
                stmt: _stmt,
            } => self.acc_fits(before, *layout, *field, *place, *from, index.as_slice()),
            Inst::Want {
                layout,
                index,
                stmt: _stmt,
            } => self.indexes(before, *layout, index.as_slice()),
            Inst::If {
                cond: _cond,
                yes: _yes,
                no: _no,
            } => unreachable!(),
            Inst::For {
                var: _var,
                lo: _lo,
                hi: _hi,
                body: _body,
            } => unreachable!(),
        }
    }
}
