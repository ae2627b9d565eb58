//! From which roots the places of code come.
ghost use Rattle.std.specs.Prelude.{◌≡◌, [], List, map, IfOk, OnOk, nat_eq};
ghost use Rattle.indexmap.specs.IndexMap.{insert_entry};
ghost use Rattle.sg_words.specs.declared.operators.Ty.{Ty};
ghost use Rattle.sg_ir.specs.Blocks.{Block, chained, link, block_of};
ghost use Rattle.sg_simplify.specs.steps.Pass.{root_known, roots_in};

use indexmap::IndexMap;
use sg_ir::Inst;
use sg_words::Memory;
use std::alloc::Global;

/// For each place that instructions set, the layout from whose root it comes.
#[derive(Drop)]
pub(crate) struct Roots {
    pub layouts: IndexMap<u32, u32>,
}

impl Roots {
    /// Those of the places that a block sets.
    pub fn of(alloc: Global, block: &[Inst]) -> Result<Roots, Memory>
        ensures { IfOk result (λ roots. (types : List Ty) → roots.layouts.entries ≡ roots_in [] (block_of types block.now)) }
    {
        let mut roots = Roots {
            layouts: IndexMap::new(alloc),
        };
        roots.block(block)?;
        Ok(roots)
    }

    /// The layout of a place; 0 if nothing is known of it.
    pub fn layout_of(&self, place: u32) -> u32
        ensures { result ≡ root_known self.now.layouts.entries place }
    {
        match self.layouts.get(&place) {
            Some(layout) => *layout,
            None => 0,
        }
    }

    #[cycle(roots)]
    fn block(&mut self, block: &[Inst]) -> Result<(), Memory>
        ensures { OnOk result ((types : List Ty) (rest : Block) → roots_in self.old.layouts.entries (chained (map (link types) block.now) rest) ≡ roots_in self.new.layouts.entries rest) }
    {
        for inst in block {
            self.inst(inst)?;
        }
        Ok(())
    }

    #[cycle(roots)]
    fn inst(&mut self, inst: &Inst) -> Result<(), Memory>
        ensures { OnOk result ((types : List Ty) (rest : Block) → roots_in self.old.layouts.entries (link types inst.now rest) ≡ roots_in self.new.layouts.entries rest) }
    {
        match inst {
            Inst::Root { to, layout } => self.note(*to, *layout),
            Inst::Check {
                to,
                place,
                axis: _axis,
                extent: _extent,
                index: _index,
            } => self.follow(*to, *place),
            Inst::Child {
                to,
                place,
                node: _node,
                offset: _offset,
            } => self.follow(*to, *place),
            Inst::HashChild {
                to,
                place,
                node: _node,
                offset: _offset,
            } => self.follow(*to, *place),
            Inst::MaskBit {
                to,
                place,
                node: _node,
                offset: _offset,
            } => self.follow(*to, *place),
            Inst::DynCell {
                to,
                place,
                node: _node,
                offset: _offset,
            } => self.follow(*to, *place),
            Inst::If {
                cond: _cond,
                yes,
                no,
            } => {
                self.block(yes.as_slice())?;
                self.block(no.as_slice())
            }
            Inst::For {
                var: _var,
                lo: _lo,
                hi: _hi,
                body,
            } => self.block(body.as_slice()),
            _ => Ok(()),
        }
    }

    /// A place comes from the root of a layout.
    fn note(&mut self, to: u32, layout: u32) -> Result<(), Memory>
        ensures { OnOk result (self.new.layouts.entries ≡ insert_entry nat_eq self.old.layouts.entries to layout) }
    {
        self.layouts.insert(to, layout)?;
        Ok(())
    }

    /// A place comes from the root from which another does.
    fn follow(&mut self, to: u32, place: u32) -> Result<(), Memory>
        ensures { OnOk result (self.new.layouts.entries ≡ insert_entry nat_eq self.old.layouts.entries to (root_known self.old.layouts.entries place)) }
    {
        let layout = self.layout_of(place);
        self.note(to, layout)
    }
}
