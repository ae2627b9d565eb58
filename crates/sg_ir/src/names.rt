ghost use Rattle.std.specs.Prelude.{◌≡◌, ◌+◌, ◌++◌, ◌∷◌, [], length, IfOk, OnErr};

use sg_words::{Items, Memory, Ty};
use std::alloc::Global;

/// The registers with their types, and how many places there are, so far: what is new gets the next number.
#[derive(Debug, Drop)]
pub struct Names {
    pub regs: Items<Ty>,
    pub places: u32,
}

impl Names {
    ghost use Rattle.sg_ir.specs.Emits.{AddsReg, AddsPlace};

    /// No registers and no places.
    pub fn new(alloc: Global) -> Names
        ensures { result ≡ record { regs = []; places = 0 } }
    {
        Names {
            regs: Items::new(alloc),
            places: 0,
        }
    }

    /// A new register of a type. Running out of memory where the numbers of a u32 are used up.
    pub fn reg(&mut self, ty: Ty) -> Result<u32, Memory>
        ensures adds { IfOk result (λ to. AddsReg ty to self.old self.new) }
        ensures kept { OnErr result (self.new ≡ self.old) }
    {
        let Ok(to) = u32::try_from(self.regs.len()) else {
            return Err(Memory);
        };
        self.regs.push(ty)?;
        Ok(to)
    }

    /// A new place. Running out of memory where the numbers of a u32 are used up.
    pub fn place(&mut self) -> Result<u32, Memory>
        ensures adds { IfOk result (λ to. AddsPlace to self.old self.new) }
        ensures kept { OnErr result (self.new ≡ self.old) }
    {
        let to = self.places;
        let Some(next) = to.checked_add(1) else {
            return Err(Memory);
        };
        self.places = next;
        Ok(to)
    }
}
