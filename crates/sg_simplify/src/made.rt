//! What the pass has made so far, and what of it is known in scope.
ghost use Rattle.std.specs.Prelude.{◌≡◌, IfOk, OnOk, ℕ, map, reverse};
ghost use Rattle.sg_simplify.specs.steps.Pass.{Making, made_name, span_in, vars_of, span_of, fresh, looked_up, taken, stepped, first_pass, first_next};
ghost use Rattle.sg_ir.specs.Span.{held, var_span};
ghost use Rattle.sg_simplify.specs.steps.Made.{given_in, span_in_loop, pass_of, next_of, AddsMadeReg, Goes, HasTruth};

use crate::given::Given;
use crate::identities::plainest;
use crate::insts::{step_inst, word_inst};
use indexmap::IndexMap;
use sg_ir::{Inst, Op, Span, Step};
use sg_words::{BinOp, Items, Memory, Ty};
use std::alloc::Global;

/// A register that was put out: its type, and the span of its word.
#[derive(Clone, Copy, Debug, PartialEq, Eq)]
pub(crate) struct Reg {
    pub ty: Ty,
    pub span: Span,
}

/// The variable of an inner loop, with its span there.
#[derive(Clone, Copy, Debug, PartialEq, Eq)]
pub(crate) struct Looped {
    pub var: u32,
    pub span: Span,
}

/// The registers put out, and how many places; the new register of each given one; the registers of pure operations and the places of
/// steps that are known in scope; and the variables of the inner loops round here.
#[derive(Drop)]
pub(crate) struct Made {
    pub regs: Items<Reg>,
    pub places: u32,
    pub names: IndexMap<u32, u32>,
    pub ops: IndexMap<Op, u32>,
    pub steps: IndexMap<Step, u32>,
    pub loops: Items<Looped>,
}

impl Made {
    pub fn new(alloc: Global) -> Made
        ensures known { pass_of result ≡ first_pass }
        ensures next { next_of result ≡ first_next }
    {
        Made {
            regs: Items::new(alloc),
            places: 0,
            names: IndexMap::new(alloc),
            ops: IndexMap::new(alloc),
            steps: IndexMap::new(alloc),
            loops: Items::new(alloc),
        }
    }

    /// The new register of a given one; the same number if it has none.
    pub fn name(&self, reg: u32) -> u32
        ensures { result ≡ made_name (next_of self.now) reg }
    {
        match self.names.get(&reg) {
            Some(to) => *to,
            None => reg,
        }
    }

    /// The span of a new register.
    pub fn span(&self, reg: u32) -> Span
        ensures { result ≡ span_in (next_of self.now) reg }
    {
        match self.regs.get(reg as usize) {
            Some(reg) => reg.span,
            None => Span::whole(),
        }
    }

    /// The span of a variable.
    fn var_span(&self, given: &Given, var: u32) -> Span
        ensures { result ≡ var_span (vars_of (given_in given.now) (pass_of self.now)) var }
    {
        span_among(self.loops.as_slice(), var, given.var_span(var))
    }

    /// The span of the word that an operation gives: a constant has its word read as an i32, and sums, differences and products of
    /// i32 have those of their operands.
    fn op_span(&self, given: &Given, op: Op) -> Span
        ensures { result ≡ span_of (given_in given.now) (pass_of self.now) (next_of self.now) op }
    {
        match op {
            Op::Const {
                word,
                truth: _truth,
            } => Span::only(word.cast_signed()),
            Op::Var { var } => self.var_span(given, var),
            Op::Bin {
                op,
                ty: Ty::I32,
                a,
                b,
            } => match op {
                BinOp::Add => self.span(a).sum(self.span(b)),
                BinOp::Sub => self.span(a).difference(self.span(b)),
                BinOp::Mul => self.span(a).product(self.span(b)),
                _ => Span::whole(),
            },
            _ => Span::whole(),
        }
    }

    /// A new register of a type, with the span of the operation that sets it.
    fn reg(&mut self, given: &Given, ty: Ty, op: Op) -> Result<u32, Memory>
        ensures { IfOk result (λ to. AddsMadeReg (given_in given.now) ty op to self.old self.new) }
    {
        let Ok(to) = u32::try_from(self.regs.len()) else {
            return Err(Memory);
        };
        let span = self.op_span(given, op);
        self.regs.push(Reg { ty, span })?;
        Ok(to)
    }

    /// A new register that an operation sets; a read of a cell has its index registers besides.
    pub fn fresh(
        &mut self,
        given: &Given,
        ty: Ty,
        op: Op,
        index: Items<u32>,
        out: &mut Items<Inst>,
    ) -> Result<u32, Memory>
        requires truth { HasTruth ty op }
        ensures known { OnOk result (pass_of self.new ≡ pass_of self.old) }
        ensures puts { IfOk result (λ to. (go : ℕ → Making) → Goes self.old self.new out.old out.new (fresh (given_in given.now) ty op index go) (go to)) }
    {
        let to = self.reg(given, ty, op)?;
        out.push(word_inst(to, op, index))?;
        Ok(to)
    }

    /// A register that holds the word of a pure operation: an operand, a known one, else a new one.
    pub fn taken(
        &mut self,
        given: &Given,
        ty: Ty,
        op: Op,
        index: Items<u32>,
        out: &mut Items<Inst>,
    ) -> Result<u32, Memory>
        requires truth { HasTruth ty op }
        ensures { IfOk result (λ to. (go : ℕ → Making) → Goes self.old self.new out.old out.new (taken (given_in given.now) ty op index go) (go to)) }
    {
        if let Some(again) = self.operand_again(op) {
            return Ok(again);
        }
        self.looked_up(given, ty, plainest(ty, op), index, out)
    }

    /// A register that holds a pure operation: a known one, else a new one.
    fn looked_up(
        &mut self,
        given: &Given,
        ty: Ty,
        op: Op,
        index: Items<u32>,
        out: &mut Items<Inst>,
    ) -> Result<u32, Memory>
        requires truth { HasTruth ty op }
        ensures { IfOk result (λ to. (go : ℕ → Making) → Goes self.old self.new out.old out.new (looked_up (given_in given.now) ty op index go) (go to)) }
    {
        if let Some(known) = self.ops.get(&op).copied() {
            return Ok(known);
        }
        let to = self.fresh(given, ty, op, index, out)?;
        self.ops.insert(op, to)?;
        Ok(to)
    }

    /// A place that a step gives: a known one, else a new one.
    pub fn stepped(&mut self, step: Step, out: &mut Items<Inst>) -> Result<u32, Memory>
        ensures { IfOk result (λ to. (go : ℕ → Making) → Goes self.old self.new out.old out.new (stepped step go) (go to)) }
    {
        if let Some(known) = self.steps.get(&step).copied() {
            return Ok(known);
        }
        let to = self.places;
        let Some(next) = to.checked_add(1) else {
            return Err(Memory);
        };
        self.places = next;
        out.push(step_inst(to, step))?;
        self.steps.insert(step, to)?;
        Ok(to)
    }
}

/// The span of a variable in these loops, of which the last is the innermost; another one if it is of none of them.
fn span_among(loops: &[Looped], var: u32, other: Span) -> Span
    ensures { result ≡ held other (reverse (map span_in_loop loops.now)) var }
{
    let [outer @ .., inner] = loops else {
        return other;
    };
    if inner.var == var {
        return inner.span;
    }
    span_among(outer, var, other)
}
