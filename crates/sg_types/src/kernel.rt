//! Kernels: the loop, and the statements of its body.

ghost use Rattle.std.specs.Prelude.{◌≡◌, ◌<◌, ◌^◌, length, false, IfOk};
ghost use Rattle.sg_words.specs.Answers.{Answers};
ghost use Rattle.sg_names.specs.Names.{has_repeat};
ghost use Rattle.sg_types.specs.Programs as spec;
ghost use Rattle.sg_types.specs.steps.Sizes.{kernel_size};
ghost use Rattle.sg_types.specs.steps.Views.{known_view, reached_of};

use crate::fault::TypeFault;
use crate::known::Known;
use crate::reached::Reached;
use crate::scope::Scope;
use crate::typed::TypedKernel;
use sg_ast::{KernelDecl, Name};
use sg_words::{Items, Memory, Stop, Ty};

impl<'a> Known<'a> {
    /// The typed kernel, or its first fault.
    pub fn kernel(&self, decl: &'a KernelDecl) -> Result<TypedKernel, Stop<TypeFault>>
        requires { kernel_size decl.now < 2 ^ 32 }
        ensures { Answers result (spec.typed_kernel (known_view self.now) decl.now) }
    {
        let domain = self.loop_part(decl)?;
        let mut at = self.first_reached(decl.vars.as_slice())?;
        let body = self.block(&mut at, decl.body.as_slice())?;
        let Reached { types, .. } = at;
        Ok(TypedKernel {
            vars: decl.vars.len() as u32,
            domain,
            types,
            body,
        })
    }

    /// The start of a body, where the loop's variables are declared.
    fn first_reached(&self, vars: &'a [Name]) -> Result<Reached<'a>, Memory>
        requires once { has_repeat vars.now ≡ false }
        requires room { length vars.now < 2 ^ 32 }
        ensures { IfOk result (λ at. reached_of at ≡ spec.first_reached vars.now) }
    {
        let mut at = Reached {
            number: 1,
            types: Items::new(self.alloc),
            scope: Scope::new(self.alloc),
        };
        for name in vars {
            at.declare(name, Ty::I32, true)?;
        }
        Ok(at)
    }
}
