ghost use Rattle.std.specs.Prelude.{◌≡◌, ◌+◌, ◌<◌, ◌^◌, length, None, IfOk, OnOk};
ghost use Rattle.sg_types.specs.Scopes.{local_named};
ghost use Rattle.sg_types.specs.Statements.{with_variable};
ghost use Rattle.sg_types.specs.steps.Views.{reached_of};

use crate::scope::{Local, Scope};
use sg_ast::Name;
use sg_words::{Items, Memory, Ty};

/// How far typing has come: the number of the next statement, the types of the variables so far, and the names in scope.
#[derive(Drop)]
pub(crate) struct Reached<'a> {
    pub number: u32,
    pub types: Items<Ty>,
    pub scope: Scope<'a>,
}

impl<'a> Reached<'a> {
    /// Declares a variable of a name that isn't in scope, and answers its number.
    pub fn declare(&mut self, name: &'a Name, ty: Ty, is_loop: bool) -> Result<u32, Memory>
        requires fresh { local_named self.old.scope name.now ≡ None }
        requires room { length self.old.types < 2 ^ 32 }
        ensures var { IfOk result (λ var. var ≡ length self.old.types) }
        ensures declared { OnOk result (reached_of self.new ≡ with_variable name.now ty is_loop (reached_of self.old)) }
    {
        let var = self.types.len() as u32;
        self.types.push(ty)?;
        self.scope.declare(name, Local { var, ty, is_loop })?;
        Ok(var)
    }
}
