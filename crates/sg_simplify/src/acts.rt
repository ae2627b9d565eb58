//! Instructions that set no register and no place.
ghost use Rattle.std.specs.Prelude.{◌≡◌, ℕ, List, OnOk};
ghost use Rattle.sg_ir.specs.Blocks.{Block, Do, SetVar, WriteOwn, Contribute, Wish};
ghost use Rattle.sg_simplify.specs.steps.Pass.{simplified};
ghost use Rattle.sg_simplify.specs.steps.Made.{given_in, Goes};

use crate::given::Given;
use crate::made::Made;
use sg_ir::Inst;
use sg_words::{AccOp, Items, Memory};

impl Made {
    /// A variable that becomes the word of a given register.
    pub fn set(
        &mut self,
        given: &Given,
        var: u32,
        from: u32,
        out: &mut Items<Inst>,
    ) -> Result<(), Memory>
        ensures { OnOk result ((rest : Block) → Goes self.old self.new out.old out.new
            (simplified (given_in given.now) (Do (SetVar var from) rest)) (simplified (given_in given.now) rest)) }
    {
        let from = self.name(from);
        out.push(Inst::Set { var, from })?;
        Ok(())
    }

    /// A write of a given register in the iteration's own cell.
    pub fn own_write(
        &mut self,
        given: &Given,
        layout: u32,
        field: u32,
        from: u32,
        stmt: u32,
        out: &mut Items<Inst>,
    ) -> Result<(), Memory>
        ensures { OnOk result ((rest : Block) → Goes self.old self.new out.old out.new
            (simplified (given_in given.now) (Do (WriteOwn layout field from stmt) rest)) (simplified (given_in given.now) rest)) }
    {
        let from = self.name(from);
        out.push(Inst::OwnWrite {
            layout,
            field,
            from,
            stmt,
        })?;
        Ok(())
    }

    /// A contribution of a given register.
    pub fn contribute(
        &mut self,
        given: &Given,
        op: AccOp,
        layout: u32,
        field: u32,
        from: u32,
        index: &[u32],
        stmt: u32,
        out: &mut Items<Inst>,
    ) -> Result<(), Memory>
        ensures { OnOk result ((place : ℕ) (rest : Block) → Goes self.old self.new out.old out.new
            (simplified (given_in given.now) (Do (Contribute op layout field place from index.now stmt) rest)) (simplified (given_in given.now) rest)) }
    {
        let from = self.name(from);
        let index = self.index(given, index)?;
        let place = self.place(given, layout, index.as_slice(), out)?;
        out.push(Inst::Acc {
            op,
            layout,
            field,
            place,
            from,
            index,
            stmt,
        })?;
        Ok(())
    }

    /// A coordinate by given registers that a statement wants to be active.
    pub fn want(
        &mut self,
        given: &Given,
        layout: u32,
        index: &[u32],
        stmt: u32,
        out: &mut Items<Inst>,
    ) -> Result<(), Memory>
        ensures { OnOk result ((rest : Block) → Goes self.old self.new out.old out.new
            (simplified (given_in given.now) (Do (Wish layout index.now stmt) rest)) (simplified (given_in given.now) rest)) }
    {
        let index = self.index(given, index)?;
        out.push(Inst::Want {
            layout,
            index,
            stmt,
        })?;
        Ok(())
    }
}
