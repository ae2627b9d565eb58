//! Which variables code sets.
ghost use Rattle.std.specs.Prelude.{◌≡◌, ◌+◌, ℕ, true, OnOk, IfOk, ◌==◌, nat_le, map, List};
ghost use Rattle.std.specs.List.{list_all};
ghost use Rattle.sg_words.specs.declared.operators.Ty.{Ty};
ghost use Rattle.sg_ir.specs.Blocks.{End, link, block_of};
ghost use Rattle.sg_ir.specs.Span.{sets};
ghost use Rattle.sg_simplify.specs.steps.Counted.{one_where, has_words};
ghost use Rattle.sg_simplify.specs.steps.Tally.{TellsCounts, TellsSets};

use indexmap::IndexMap;
use sg_ir::Inst;
use sg_words::Memory;
use std::alloc::Global;

/// The variables that instructions set, each with whether more than one instruction does.
#[derive(Drop)]
pub(crate) struct Setters {
    pub again: IndexMap<u32, bool>,
}

impl Setters {
    /// The variables that a block sets.
    pub fn of(alloc: Global, block: &[Inst]) -> Result<Setters, Memory>
        ensures counts { IfOk result (λ setters. (types : List Ty) → TellsSets (block_of types block.now) setters.again.entries) }
        ensures words { OnOk result (list_all (λ b. b) (map has_words block.now) ≡ true) }
    {
        let mut setters = Setters {
            again: IndexMap::new(alloc),
        };
        setters.block(block)?;
        Ok(setters)
    }

    /// Whether no instruction sets the variable.
    pub fn has_none(&self, var: u32) -> bool
        ensures { (count : ℕ → ℕ) → TellsCounts count self.now.again.entries → result ≡ (count var == 0) }
    {
        self.again.get(&var).is_none()
    }

    /// Whether at most one instruction sets the variable.
    pub fn has_few(&self, var: u32) -> bool
        ensures { (count : ℕ → ℕ) → TellsCounts count self.now.again.entries → result ≡ nat_le (count var) 1 }
    {
        match self.again.get(&var) {
            Some(again) => !*again,
            None => true,
        }
    }

    fn note(&mut self, var: u32) -> Result<(), Memory>
        ensures { OnOk result ((count : ℕ → ℕ) → TellsCounts count self.old.again.entries → TellsCounts (λ v. count v + one_where (var == v)) self.new.again.entries) }
    {
        let again = self.again.get(&var).is_some();
        self.again.insert(var, again)?;
        Ok(())
    }

    #[cycle(setters)]
    fn block(&mut self, block: &[Inst]) -> Result<(), Memory>
        ensures counts { OnOk result ((types : List Ty) (count : ℕ → ℕ) → TellsCounts count self.old.again.entries → TellsCounts (λ v. count v + sets v (block_of types block.now)) self.new.again.entries) }
        ensures words { OnOk result (list_all (λ b. b) (map has_words block.now) ≡ true) }
    {
        for inst in block {
            self.inst(inst)?;
        }
        Ok(())
    }

    #[cycle(setters)]
    fn inst(&mut self, inst: &Inst) -> Result<(), Memory>
        ensures counts { OnOk result ((types : List Ty) (count : ℕ → ℕ) → TellsCounts count self.old.again.entries → TellsCounts (λ v. count v + sets v (link types inst.now End)) self.new.again.entries) }
        ensures words { OnOk result (has_words inst.now ≡ true) }
    {
        match inst {
            Inst::Const { to: _to, word } => {
                let _word = *word;
                Ok(())
            }
            Inst::Set { var, from: _from } => self.note(*var),
            Inst::If {
                cond: _cond,
                yes,
                no,
            } => {
                self.block(yes.as_slice())?;
                self.block(no.as_slice())
            }
            Inst::For {
                var,
                lo: _lo,
                hi: _hi,
                body,
            } => {
                self.note(*var)?;
                self.block(body.as_slice())
            }
            _ => Ok(()),
        }
    }
}
