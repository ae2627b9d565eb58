ghost use Rattle.std.specs.Prelude.{◌≡◌, ◌++◌, ◌∷◌, [], None, take, length, OnOk};
ghost use Rattle.sg_types.specs.Scopes.{local_named};

use indexmap::IndexMap;
use sg_ast::Name;
use sg_words::{Memory, Ty};
use std::alloc::Global;
use std::marker::Model;

/// What a name in scope stands for: a variable, its type, and whether it is a loop's.
#[derive(Clone, Copy, Debug, PartialEq, Eq)]
pub(crate) struct Local {
    pub var: u32,
    pub ty: Ty,
    pub is_loop: bool,
}

/// The names in scope, in the order in which they came in.
#[derive(Drop)]
pub(crate) struct Scope<'a> {
    locals: IndexMap<&'a [u8], Local>,
}

impl<'a> Model for Scope<'a> {
    ghost use Rattle.std.specs.Prelude.{List, map};
    ghost use Rattle.sg_types.specs.Scopes.{NamedLocal};

    ghost Value = { List NamedLocal };

    ghost view = { λ scope. map (λ entry. record { name = record { text = entry.0.now }; local = entry.1 }) scope.locals.entries };
}

impl<'a> Scope<'a> {
    pub fn new(alloc: Global) -> Scope<'a>
        ensures { result ≡ [] }
    {
        Scope {
            locals: IndexMap::new(alloc),
        }
    }

    /// What a name stands for.
    pub fn get(&self, name: &Name) -> Option<Local>
        ensures { result ≡ local_named self.now name.now }
    {
        self.locals.get(name.text.as_slice()).copied()
    }

    /// Brings a name into scope, which isn't.
    pub fn declare(&mut self, name: &'a Name, local: Local) -> Result<(), Memory>
        requires { local_named self.old name.now ≡ None }
        ensures { OnOk result (self.new ≡ self.old ++ record { name = name.now; local = local } ∷ []) }
    {
        self.locals.insert(name.text.as_slice(), local)?;
        Ok(())
    }

    pub fn len(&self) -> usize
        ensures { result ≡ length self.now }
    {
        self.locals.len()
    }

    /// Takes out of scope what came in after the first `len` names.
    pub fn leave(&mut self, len: usize)
        ensures { self.new ≡ take len self.old }
    {
        self.locals.truncate(len);
    }
}
