//! Registers of the given code that operations set, and what sees something at a place.
ghost use Rattle.std.specs.Prelude.{◌≡◌, false, ℕ, List, map, IfOk, OnOk, IfSome, IfNone};
ghost use Rattle.sg_ir.specs.Blocks.{Block, link, Cell, Value, Activity};
ghost use Rattle.sg_ir.specs.Shared.{is_pure};
ghost use Rattle.sg_simplify.specs.steps.Pass.{Making, made_name, given_type, numbered, simplified};
ghost use Rattle.sg_simplify.specs.steps.Made.{given_in, pass_of, next_of, onward, is_word, HasTruth, Goes};

use crate::given::Given;
use crate::made::Made;
use sg_ir::{Inst, Op};
use sg_words::{Items, Memory, Ty};

impl Made {
    /// The register that an instruction sets to an operation, and this operation on new registers. None of any other instruction.
    pub fn operation(&self, given: &Given, inst: &Inst) -> Option<(u32, Op)>
        ensures truth { IfSome result (λ it. HasTruth (given_type (given_in given.now) it.0) it.1) }
        ensures operation { IfSome result (λ it. (rest : Block) → numbered (is_pure (given_in given.now).single it.1) (given_in given.now) (given_type (given_in given.now) it.0) it.1 (onward (given_in given.now) it.0 rest) (pass_of self.now) (next_of self.now)
            ≡ simplified (given_in given.now) (link given.now.code.now.regs inst.now rest) (pass_of self.now) (next_of self.now)) }
        ensures none { IfNone result (is_word inst.now ≡ false) }
    {
        match inst {
            Inst::Const { to, word } => {
                let truth = given.ty(*to) == Ty::Bool;
                Some((*to, Op::Const { word: *word, truth }))
            }
            Inst::Var { to, var } => Some((*to, Op::Var { var: *var })),
            Inst::Bin { to, op, ty, a, b } => {
                let (a, b) = (self.name(*a), self.name(*b));
                Some((
                    *to,
                    Op::Bin {
                        op: *op,
                        ty: *ty,
                        a,
                        b,
                    },
                ))
            }
            Inst::Un { to, op, ty, a } => {
                let a = self.name(*a);
                Some((
                    *to,
                    Op::Un {
                        op: *op,
                        ty: *ty,
                        a,
                    },
                ))
            }
            Inst::Mulq { to, a, b, s } => {
                let (a, b, s) = (self.name(*a), self.name(*b), self.name(*s));
                Some((*to, Op::Mulq { a, b, s }))
            }
            Inst::Extract {
                to,
                div,
                size,
                from,
            } => {
                let (div, size, from) = (*div, *size, self.name(*from));
                Some((*to, Op::Extract { div, size, from }))
            }
            Inst::Offset {
                to,
                high,
                size,
                low,
            } => {
                let (high, size, low) = (self.name(*high), *size, self.name(*low));
                Some((*to, Op::Offset { high, size, low }))
            }
            Inst::OwnRead { to, layout, field } => {
                let (layout, field) = (*layout, *field);
                Some((*to, Op::OwnRead { layout, field }))
            }
            _ => None,
        }
    }

    /// A register of the given code that an operation on new registers sets.
    pub fn word(
        &mut self,
        given: &Given,
        from: u32,
        op: Op,
        out: &mut Items<Inst>,
    ) -> Result<(), Memory>
        requires truth { HasTruth (given_type (given_in given.now) from) op }
        ensures { OnOk result ((rest : Block) → Goes self.old self.new out.old out.new
            (numbered (is_pure (given_in given.now).single op) (given_in given.now) (given_type (given_in given.now) from) op (onward (given_in given.now) from rest)) (simplified (given_in given.now) rest)) }
    {
        let to = self.numbered(given, given.ty(from), op, out)?;
        self.names.insert(from, to)?;
        Ok(())
    }

    /// A register that holds an operation: a known one if it is pure and known, else a new one.
    fn numbered(
        &mut self,
        given: &Given,
        ty: Ty,
        op: Op,
        out: &mut Items<Inst>,
    ) -> Result<u32, Memory>
        requires truth { HasTruth ty op }
        ensures { IfOk result (λ to. (go : ℕ → Making) → Goes self.old self.new out.old out.new (numbered (is_pure (given_in given.now).single op) (given_in given.now) ty op go) (go to)) }
    {
        if given.is_pure(op) {
            self.taken(given, ty, op, Items::new(given.alloc), out)
        } else {
            self.fresh(given, ty, op, Items::new(given.alloc), out)
        }
    }

    /// A register of the given code that a read of a cell sets.
    pub fn read(
        &mut self,
        given: &Given,
        from: u32,
        layout: u32,
        field: u32,
        index: &[u32],
        out: &mut Items<Inst>,
    ) -> Result<(), Memory>
        ensures { OnOk result ((place : ℕ) (rest : Block) → Goes self.old self.new out.old out.new
            (simplified (given_in given.now) (Cell from place (Value layout field) index.now rest)) (simplified (given_in given.now) rest)) }
    {
        let index = self.index(given, index)?;
        let place = self.place(given, layout, index.as_slice(), out)?;
        let op = Op::Read {
            place,
            layout,
            field,
        };
        let to = self.taken(given, given.ty(from), op, index, out)?;
        self.names.insert(from, to)?;
        Ok(())
    }

    /// A register of the given code that tells whether a place is active.
    pub fn active(
        &mut self,
        given: &Given,
        from: u32,
        place: u32,
        index: &[u32],
        out: &mut Items<Inst>,
    ) -> Result<(), Memory>
        ensures { OnOk result ((rest : Block) → Goes self.old self.new out.old out.new
            (simplified (given_in given.now) (Cell from place Activity index.now rest)) (simplified (given_in given.now) rest)) }
    {
        let layout = given.root_of(place);
        let index = self.index(given, index)?;
        let place = self.place(given, layout, index.as_slice(), out)?;
        let op = Op::Active { place };
        let to = self.taken(given, given.ty(from), op, index, out)?;
        self.names.insert(from, to)?;
        Ok(())
    }

    /// The new index registers.
    pub fn index(&self, given: &Given, index: &[u32]) -> Result<Items<u32>, Memory>
        ensures { IfOk result (λ it. it ≡ map (made_name (next_of self.now)) index.now) }
    {
        let mut names = Items::new(given.alloc);
        for reg in index {
            names.push(self.name(*reg))?;
        }
        Ok(names)
    }
}
