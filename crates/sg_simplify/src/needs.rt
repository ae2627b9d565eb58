//! What instructions need, as links between registers, places, variables and blocks.
ghost use Rattle.std.specs.Prelude.{◌≡◌, ◌+◌, ◌*◌, ◌++◌, ◌∷◌, [], ℕ, List, map, IfOk, OnOk};
ghost use Rattle.sg_words.specs.declared.operators.Ty.{Ty};
ghost use Rattle.sg_ir.specs.Blocks.{Block, chained, link, block_of};
ghost use Rattle.sg_simplify.specs.steps.Needed.{reg_node, place_node, var_node, block_node, link_all, blocks_in, needs_of};

use sg_ir::Inst;
use sg_words::spreads::Link;
use sg_words::{Items, Memory};
use std::alloc::Global;

/// The node of the outermost block, which is needed anyway.
pub(crate) const OUTERMOST: usize = 3;

pub(crate) fn reg_node(reg: u32) -> usize
    ensures { result ≡ reg_node reg }
{
    4 * reg as usize
}

pub(crate) fn place_node(place: u32) -> usize
    ensures { result ≡ place_node place }
{
    4 * place as usize + 1
}

pub(crate) fn var_node(var: u32) -> usize
    ensures { result ≡ var_node var }
{
    4 * var as usize + 2
}

fn block_node(block: u32) -> usize
    ensures { result ≡ block_node block }
{
    4 * block as usize + 3
}

/// Links from what is needed to what it needs; and how many blocks there are so far.
#[derive(Drop)]
pub(crate) struct Needs {
    pub links: Items<Link>,
    pub blocks: u32,
}

impl Needs {
    /// What the instructions of an outermost block need.
    pub fn of(alloc: Global, block: &[Inst]) -> Result<Needs, Memory>
        ensures { IfOk result (λ needs. (types : List Ty) → needs.links ≡ needs_of 3 1 (block_of types block.now)) }
    {
        let mut needs = Needs {
            links: Items::new(alloc),
            blocks: 1,
        };
        needs.block(block, OUTERMOST)?;
        Ok(needs)
    }

    #[cycle(needs)]
    fn block(&mut self, block: &[Inst], inside: usize) -> Result<(), Memory>
        ensures links { OnOk result ((types : List Ty) (rest : Block) → self.old.links ++ needs_of inside self.old.blocks (chained (map (link types) block.now) rest) ≡ self.new.links ++ needs_of inside self.new.blocks rest) }
        ensures count { OnOk result ((types : List Ty) (rest : Block) → self.new.blocks + blocks_in rest ≡ self.old.blocks + blocks_in (chained (map (link types) block.now) rest)) }
    {
        for inst in block {
            self.inst(inst, inside)?;
        }
        Ok(())
    }

    #[cycle(needs)]
    fn inst(&mut self, inst: &Inst, inside: usize) -> Result<(), Memory>
        ensures links { OnOk result ((types : List Ty) (rest : Block) → self.old.links ++ needs_of inside self.old.blocks (link types inst.now rest) ≡ self.new.links ++ needs_of inside self.new.blocks rest) }
        ensures count { OnOk result ((types : List Ty) (rest : Block) → self.new.blocks + blocks_in rest ≡ self.old.blocks + blocks_in (link types inst.now rest)) }
    {
        match inst {
            Inst::Const { to, word: _word } => self.all(reg_node(*to), &[inside]),
            Inst::Var { to, var } => self.all(reg_node(*to), &[var_node(*var), inside]),
            Inst::Set { var, from } => self.all(var_node(*var), &[reg_node(*from), inside]),
            Inst::Bin {
                to,
                op: _op,
                ty: _ty,
                a,
                b,
            } => self.all(reg_node(*to), &[reg_node(*a), reg_node(*b), inside]),
            Inst::Un {
                to,
                op: _op,
                ty: _ty,
                a,
            } => self.all(reg_node(*to), &[reg_node(*a), inside]),
            Inst::Mulq { to, a, b, s } => self.all(
                reg_node(*to),
                &[reg_node(*a), reg_node(*b), reg_node(*s), inside],
            ),
            Inst::Root {
                to,
                layout: _layout,
            } => self.all(place_node(*to), &[inside]),
            Inst::Check {
                to,
                place,
                axis: _axis,
                extent: _extent,
                index,
            } => self.down(*to, *place, *index, inside),
            Inst::Extract {
                to,
                div: _div,
                size: _size,
                from,
            } => self.all(reg_node(*to), &[reg_node(*from), inside]),
            Inst::Offset {
                to,
                high,
                size: _size,
                low,
            } => self.all(reg_node(*to), &[reg_node(*high), reg_node(*low), inside]),
            Inst::Child {
                to,
                place,
                node: _node,
                offset,
            } => self.down(*to, *place, *offset, inside),
            Inst::HashChild {
                to,
                place,
                node: _node,
                offset,
            } => self.down(*to, *place, *offset, inside),
            Inst::MaskBit {
                to,
                place,
                node: _node,
                offset,
            } => self.down(*to, *place, *offset, inside),
            Inst::DynCell {
                to,
                place,
                node: _node,
                offset,
            } => self.down(*to, *place, *offset, inside),
            Inst::ReadCell {
                to,
                place,
                layout: _layout,
                field: _field,
                index,
            } => {
                self.all(reg_node(*to), &[place_node(*place), inside])?;
                self.index(reg_node(*to), index.as_slice())
            }
            Inst::IsActive { to, place, index } => {
                self.all(reg_node(*to), &[place_node(*place), inside])?;
                self.index(reg_node(*to), index.as_slice())
            }
            Inst::OwnRead {
                to,
                layout: _layout,
                field: _field,
            } => self.all(reg_node(*to), &[inside]),
            Inst::OwnWrite {
                layout: _layout,
                field: _field,
                from,
                stmt: _stmt,
            } => self.all(OUTERMOST, &[reg_node(*from), inside]),
            Inst::Acc {
                op: _op,
                layout: _layout,
                field: _field,
                place,
                from,
                index,
                stmt: _stmt,
            } => {
                self.all(OUTERMOST, &[reg_node(*from), place_node(*place), inside])?;
                self.index(OUTERMOST, index.as_slice())
            }
            Inst::Want {
                layout: _layout,
                index,
                stmt: _stmt,
            } => {
                self.all(OUTERMOST, &[inside])?;
                self.index(OUTERMOST, index.as_slice())
            }
            Inst::If { cond, yes, no } => {
                let here = self.inner()?;
                self.all(here, &[reg_node(*cond), inside])?;
                self.block(yes.as_slice(), here)?;
                self.block(no.as_slice(), here)?;
                Ok(())
            }
            Inst::For {
                var,
                lo: _lo,
                hi: _hi,
                body,
            } => {
                let here = self.inner()?;
                let var = var_node(*var);
                self.all(here, &[var, inside])?;
                self.all(var, &[inside])?;
                self.block(body.as_slice(), here)?;
                Ok(())
            }
        }
    }

    /// The node of a block inside.
    fn inner(&mut self) -> Result<usize, Memory>
        ensures node { IfOk result (λ it. it ≡ block_node self.old.blocks) }
        ensures links { self.new.links ≡ self.old.links }
        ensures count { OnOk result (self.new.blocks ≡ self.old.blocks + 1) }
    {
        let number = self.blocks;
        let Some(next) = number.checked_add(1) else {
            return Err(Memory);
        };
        self.blocks = next;
        Ok(block_node(number))
    }

    /// A check of a place, or a step down from it.
    fn down(&mut self, to: u32, place: u32, offset: u32, inside: usize) -> Result<(), Memory>
        ensures links { OnOk result (self.new.links ≡ self.old.links ++ link_all (place_node to) (reg_node offset ∷ place_node place ∷ inside ∷ [])) }
        ensures count { self.new.blocks ≡ self.old.blocks }
    {
        self.all(
            place_node(to),
            &[reg_node(offset), place_node(place), inside],
        )
    }

    /// Links from one node to each of these.
    fn all(&mut self, from: usize, to: &[usize]) -> Result<(), Memory>
        ensures links { OnOk result (self.new.links ≡ self.old.links ++ link_all from to.now) }
        ensures count { self.new.blocks ≡ self.old.blocks }
    {
        for node in to {
            self.links.push(Link { from, to: *node })?;
        }
        Ok(())
    }

    /// Links from one node to each of these registers.
    fn index(&mut self, from: usize, regs: &[u32]) -> Result<(), Memory>
        ensures links { OnOk result (self.new.links ≡ self.old.links ++ link_all from (map reg_node regs.now)) }
        ensures count { self.new.blocks ≡ self.old.blocks }
    {
        for reg in regs {
            self.links.push(Link {
                from,
                to: reg_node(*reg),
            })?;
        }
        Ok(())
    }
}
