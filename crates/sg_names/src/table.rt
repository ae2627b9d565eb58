ghost use Rattle.std.specs.Prelude.{◌≡◌, ◌+◌, ◌<◌, ◌++◌, ◌∷◌, [], ◌^◌, length, None, Some, find, position, slice_get, IfSome, OnOk};
ghost use Rattle.std.specs.Option.{option_copied};
ghost use Rattle.sg_ast.specs.declared.token.Name.{Name};
ghost use Rattle.sg_ast.specs.Token.{same_name};

use indexmap::IndexMap;
use sg_ast::Name;
use sg_words::Memory;
use std::alloc::Global;
use std::marker::Model;

/// What has a name.
pub(crate) trait Named {
    ghost name_of: { Self → Name };

    fn name(&self) -> &Name
        ensures { result.now ≡ name_of self.now };
}

/// Things with names, in the order in which they were put in, and found by their names. Contracts see the list of them.
#[derive(Drop)]
pub(crate) struct Table<T: Named> {
    entries: IndexMap<Vec<u8>, T>,
}

impl<T: Named> Model for Table<T> {
    ghost use Rattle.std.specs.Prelude.{List, ◌≡◌, ◌<◌, ◌^◌, length};
    ghost use Rattle.std.specs.List.{AllByRecursion};
    ghost use Rattle.std.specs.Coded.{coded_list};
    ghost use Rattle.std.specs.Map.{values_of};

    ghost Value = { List T };

    ghost coded = { coded_list T.code };

    ghost view = { λ table. values_of table.entries.entries };

    ghost invariant = { λ table. (length table.entries.entries < 2 ^ 32) × AllByRecursion (λ entry. entry.0.items ≡ (T.name_of entry.1).text) table.entries.entries };
}

impl<T: Named> Table<T> {
    /// A table without things.
    pub fn new(alloc: Global) -> Table<T>
        ensures { result ≡ [] }
    {
        Table {
            entries: IndexMap::new(alloc),
        }
    }

    /// How many things there are.
    pub fn len(&self) -> usize
        ensures value { result ≡ length self.now }
        ensures small { length self.now < 2 ^ 32 }
    {
        self.entries.len()
    }

    /// The number of the first thing of this name, from 0.
    pub fn number(&self, name: &Name) -> Option<u32>
        ensures { result ≡ position (λ named. same_name name.now (T.name_of named)) self.now }
    {
        match self.place(name) {
            Some(place) => Some(place as u32),
            None => None,
        }
    }

    fn place(&self, name: &Name) -> Option<usize>
        ensures value { result ≡ position (λ named. same_name name.now (T.name_of named)) self.now }
        ensures small { IfSome result (λ place. place < 2 ^ 32) }
    {
        self.entries.get_index_of(name.text.as_slice())
    }

    /// The first thing of this name.
    pub fn get(&self, name: &Name) -> Option<&T>
        ensures { option_copied result ≡ find (λ named. same_name name.now (T.name_of named)) self.now }
    {
        self.entries.get(name.text.as_slice())
    }

    /// The thing with a number.
    pub fn at(&self, number: u32) -> &T
        requires { number < length self.now }
        ensures { slice_get self.now number ≡ Some result.now }
    {
        &self.entries[number as usize]
    }
}

impl<T: Named + Drop> Table<T> {
    /// Puts a thing of a new name at the end.
    pub fn push(&mut self, alloc: Global, thing: T) -> Result<(), Memory>
        requires new { find (λ named. same_name (T.name_of thing) (T.name_of named)) self.old ≡ None }
        requires room { length self.old + 1 < 2 ^ 32 }
        ensures { OnOk result (self.new ≡ self.old ++ thing ∷ []) }
    {
        let key = Vec::from_slice(alloc, thing.name().text.as_slice())?;
        self.entries.insert(key, thing)?;
        Ok(())
    }
}
