//! The pass over code, block by block.
ghost use Rattle.std.specs.Prelude.{◌≡◌, ◌++◌, true, IfOk, OnOk, List, ℕ, map};
ghost use Rattle.std.specs.List.{list_all};
ghost use Rattle.sg_words.specs.declared.operators.Ty.{Ty};
ghost use Rattle.sg_ir.specs.Blocks.{Block, Loop, link, block_of, block_in};
ghost use Rattle.sg_simplify.specs.steps.Pass.{simplified};
ghost use Rattle.sg_simplify.specs.steps.Counted.{has_words};
ghost use Rattle.sg_simplify.specs.steps.Made.{given_in, put_out, pass_of, next_of, types_of, Longer, Goes};

use crate::given::Given;
use crate::made::{Looped, Made, Reg};
use crate::roots::Roots;
use crate::setters::Setters;
use sg_flat::Domain;
use sg_ir::{Code, Inst, Span};
use sg_layout::Layouts;
use sg_words::{Items, Memory, Ty};
use std::alloc::Global;

/// What the pass puts out of a whole code.
pub(crate) fn pass(
    alloc: Global,
    code: &Code,
    domain: &Domain,
    layouts: &Layouts,
) -> Result<Code, Memory>
    ensures block { IfOk result (λ it. block_in it ≡ (put_out layouts.now.list domain.now code.now).0) }
    ensures regs { IfOk result (λ it. it.regs ≡ (put_out layouts.now.list domain.now code.now).1.types) }
    ensures places { IfOk result (λ it. it.places ≡ (put_out layouts.now.list domain.now code.now).1.places) }
    ensures vars { IfOk result (λ it. it.vars ≡ code.now.vars) }
    ensures words { OnOk result (list_all (λ b. b) (map has_words code.now.body) ≡ true) }
{
    let setters = Setters::of(alloc, code.body.as_slice())?;
    let roots = Roots::of(alloc, code.body.as_slice())?;
    let given = Given {
        alloc,
        code,
        domain: *domain,
        layouts,
        setters,
        roots,
    };
    let mut made = Made::new(alloc);
    let body = made.block(&given, code.body.as_slice())?;
    let regs = types(alloc, made.regs.as_slice())?;
    let vars = Items::from_slice(alloc, code.vars.as_slice())?;
    Ok(Code {
        regs,
        places: made.places,
        vars,
        body,
    })
}

/// The types of registers.
fn types(alloc: Global, regs: &[Reg]) -> Result<Items<Ty>, Memory>
    ensures { IfOk result (λ it. it ≡ map (λ reg. reg.ty) regs.now) }
{
    let mut types = Items::new(alloc);
    for reg in regs {
        types.push(reg.ty)?;
    }
    Ok(types)
}

impl Made {
    /// The block that does what the given one does. What it made known is not known after it.
    #[cycle(blocks)]
    fn block(&mut self, given: &Given, insts: &[Inst]) -> Result<Items<Inst>, Memory>
        ensures longer { OnOk result (Longer self.old self.new) }
        ensures known { OnOk result (pass_of self.new ≡ pass_of self.old) }
        ensures puts { IfOk result (λ out. (more : List Ty) → (block_of (types_of self.new ++ more) out, next_of self.new)
            ≡ simplified (given_in given.now) (block_of given.now.code.now.regs insts.now) (pass_of self.old) (next_of self.old)) }
    {
        let ops = self.ops.len();
        let steps = self.steps.len();
        let mut out = Items::new(given.alloc);
        for inst in insts {
            self.inst(given, inst, &mut out)?;
        }
        self.ops.truncate(ops);
        self.steps.truncate(steps);
        Ok(out)
    }

    /// One instruction. Places of the given code are left out: each access builds its own.
    #[cycle(blocks)]
    fn inst(&mut self, given: &Given, inst: &Inst, out: &mut Items<Inst>) -> Result<(), Memory>
        ensures { OnOk result ((rest : Block) → Goes self.old self.new out.old out.new
            (simplified (given_in given.now) (link given.now.code.now.regs inst.now rest)) (simplified (given_in given.now) rest)) }
    {
        if let Some((to, op)) = self.operation(given, inst) {
            return self.word(given, to, op, out);
        }
        match inst {
            Inst::ReadCell {
                to,
                place: _place,
                layout,
                field,
                index,
            } => self.read(given, *to, *layout, *field, index.as_slice(), out),
            Inst::IsActive { to, place, index } => {
                self.active(given, *to, *place, index.as_slice(), out)
            }
            Inst::Set { var, from } => self.set(given, *var, *from, out),
            Inst::OwnWrite {
                layout,
                field,
                from,
                stmt,
            } => self.own_write(given, *layout, *field, *from, *stmt, out),
            Inst::Acc {
                op,
                layout,
                field,
                place: _place,
                from,
                index,
                stmt,
            } => self.contribute(
                given,
                *op,
                *layout,
                *field,
                *from,
                index.as_slice(),
                *stmt,
                out,
            ),
            Inst::Want {
                layout,
                index,
                stmt,
            } => self.want(given, *layout, index.as_slice(), *stmt, out),
            Inst::If { cond, yes, no } => {
                let cond = self.name(*cond);
                let yes = self.block(given, yes.as_slice())?;
                let no = self.block(given, no.as_slice())?;
                out.push(Inst::If { cond, yes, no })?;
                Ok(())
            }
            Inst::For { var, lo, hi, body } => self.turn(
                given,
                *var,
                *lo,
                *hi,
                body.as_slice(),
                out,
            ),
            _ => Ok(()),
        }
    }

    /// The body of a loop over a range.
    #[cycle(blocks)]
    fn turn(
        &mut self,
        given: &Given,
        var: u32,
        lo: i32,
        hi: i32,
        body: &[Inst],
        out: &mut Items<Inst>,
    ) -> Result<(), Memory>
        ensures { OnOk result ((rest : Block) → Goes self.old self.new out.old out.new
            (simplified (given_in given.now) (Loop var lo hi (block_of given.now.code.now.regs body.now) rest)) (simplified (given_in given.now) rest)) }
    {
        self.loops.push(Looped {
            var,
            span: Span::range(lo, hi),
        })?;
        let body = self.block(given, body)?;
        self.loops.pop();
        out.push(Inst::For { var, lo, hi, body })?;
        Ok(())
    }
}
