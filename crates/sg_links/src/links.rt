ghost use Rattle.std.specs.Prelude.{◌≡◌, ◌≢◌, ℕ, ◌+◌, ◌<◌, ◌≤◌, [], ◌∷◌, ◌++◌, length, drop, slice_get, IfOk};
ghost use Rattle.sg_links.specs.Lists.{Lists, empty_lists, list_of, with_list, times_in_lists, AreDisjoint};

use crate::LinkMemory;
use crate::head::Head;
use crate::order::{heads_used, lay_all, walk_to};
use crate::row::Row;
use std::alloc::Global;
use std::marker::Model;

/// Lists over the numbers from 0 to below a bound, each number in one list at most. Contracts see the lists. Where they are arranged, `order`
/// has them one after the other, each from its place in `starts` on.
#[derive(Debug, Drop)]
pub struct Links {
    next: Row<u32>,
    heads: Row<Head>,
    starts: Row<u32>,
    order: Row<u32>,
    pub(crate) arranged: bool,
}

impl Model for Links {
    ghost use Rattle.std.specs.Prelude.{length};
    ghost use Rattle.sg_links.specs.Lists.{Lists};
    ghost use Rattle.sg_links.specs.Heads.{lists_of};
    ghost use Rattle.sg_links.specs.steps.Rows.{AreInOrder};

    ghost Value = { Lists };

    ghost view = { λ links. record { numbers = length links.next; lists = lists_of links.next links.heads } };

    ghost invariant = { λ links. AreInOrder links.next links.heads links.starts links.order links.arranged };
}

impl Links {
    /// Empty lists, as many as `heads`, over the numbers from 0 to below `numbers`.
    pub fn make(alloc: Global, numbers: u32, heads: u32) -> Result<Links, LinkMemory>
        ensures { IfOk result (λ links. links ≡ empty_lists numbers heads) }
    {
        let empty = Head {
            first: numbers,
            last: numbers,
            len: 0,
        };
        Ok(Links {
            next: Row::make(alloc, numbers as usize, numbers)?,
            heads: Row::make(alloc, heads as usize, empty)?,
            starts: Row::make(alloc, heads as usize, 0)?,
            order: Row::make(alloc, numbers as usize, 0)?,
            arranged: false,
        })
    }

    /// Equal lists. In time by the numbers and lists up to the last that was used.
    pub fn copy(&self, alloc: Global) -> Result<Links, LinkMemory>
        ensures { IfOk result (λ copy. copy ≡ self.now) }
    {
        Ok(Links {
            next: self.next.copy(alloc)?,
            heads: self.heads.copy(alloc)?,
            starts: self.starts.copy(alloc)?,
            order: self.order.copy(alloc)?,
            arranged: self.arranged,
        })
    }

    /// Puts a number that is in no list before the first of a list.
    pub fn push_front(&mut self, head: u32, number: u32)
        requires there { head < length self.old.lists }
        requires below { number < self.old.numbers }
        requires free { times_in_lists number self.old.lists ≡ 0 }
        ensures { self.new ≡ with_list self.old head (number ∷ list_of self.old head) }
    {
        let old = self.heads.get(head as usize);
        self.arranged = false;
        self.next.set(number as usize, old.first);
        if old.len == 0 {
            self.heads.set(head as usize, single(number));
        } else {
            let longer = Head {
                first: number,
                last: old.last,
                len: old.len + 1,
            };
            self.heads.set(head as usize, longer);
        }
    }

    /// Puts a number that is in no list after the last of a list.
    pub fn push_back(&mut self, head: u32, number: u32)
        requires there { head < length self.old.lists }
        requires below { number < self.old.numbers }
        requires free { times_in_lists number self.old.lists ≡ 0 }
        ensures { self.new ≡ with_list self.old head (list_of self.old head ++ number ∷ []) }
    {
        let old = self.heads.get(head as usize);
        self.arranged = false;
        self.next.set(number as usize, self.next.len() as u32);
        if old.len == 0 {
            self.heads.set(head as usize, single(number));
        } else {
            self.next.set(old.last as usize, number);
            let longer = Head {
                first: old.first,
                last: number,
                len: old.len + 1,
            };
            self.heads.set(head as usize, longer);
        }
    }

    /// Takes the first number out of a list. None if the list is empty.
    pub fn pop_front(&mut self, head: u32) -> Option<u32>
        requires { head < length self.old.lists }
        ensures value { result ≡ slice_get (list_of self.old head) 0 }
        ensures left { self.new ≡ with_list self.old head (drop 1 (list_of self.old head)) }
    {
        let old = self.heads.get(head as usize);
        if old.len == 0 {
            return None;
        }
        let shorter = Head {
            first: self.next.get(old.first as usize),
            last: old.last,
            len: old.len - 1,
        };
        self.arranged = false;
        self.heads.set(head as usize, shorter);
        Some(old.first)
    }

    /// Moves all numbers of the list `from` to the end of another.
    pub fn splice(&mut self, head: u32, from: u32)
        requires there { head < length self.old.lists }
        requires from_there { from < length self.old.lists }
        requires apart { head ≢ from }
        ensures { self.new ≡ with_list (with_list self.old from []) head (list_of self.old head ++ list_of self.old from) }
    {
        let old = self.heads.get(head as usize);
        let more = self.heads.get(from as usize);
        let end = self.next.len() as u32;
        let empty = Head {
            first: end,
            last: end,
            len: 0,
        };
        if more.len == 0 {
            return;
        }
        self.arranged = false;
        self.heads.set(from as usize, empty);
        if old.len == 0 {
            self.heads.set(head as usize, more);
        } else {
            self.next.set(old.last as usize, more.first);
            let both = Head {
                first: old.first,
                last: more.last,
                len: old.len + more.len,
            };
            self.heads.set(head as usize, both);
        }
    }

    /// Arranges the lists, so that `nth` takes constant time until a list is changed. Takes no memory, and time in proportion to the numbers
    /// in lists and the lists up to the last that was used.
    pub fn arrange(&mut self)
        ensures { self.new ≡ self.old }
    {
        lay_all(&self.next, &self.heads, &mut self.starts, &mut self.order);
        self.arranged = true;
    }

    /// The number at a place of a list, the first at 0. None if the list is not as long. In constant time where the lists are arranged, else
    /// by a walk along the list.
    pub fn nth(&self, head: u32, place: u32) -> Option<u32>
        requires { head < length self.now.lists }
        ensures { result ≡ slice_get (list_of self.now head) place }
    {
        let list = self.heads.get(head as usize);
        if place >= list.len {
            return None;
        }
        if self.arranged {
            let start = self.starts.get(head as usize);
            return Some(self.order.get(start as usize + place as usize));
        }
        Some(walk_to(&self.next, &self.heads, head as usize, place))
    }

    /// How many numbers a list has.
    pub fn len(&self, head: u32) -> u32
        requires { head < length self.now.lists }
        ensures length { result ≡ length (list_of self.now head) }
        ensures disjoint { AreDisjoint self.now }
    {
        self.heads.get(head as usize).len
    }

    /// The first number of a list. None if the list is empty.
    pub fn first(&self, head: u32) -> Option<u32>
        requires { head < length self.now.lists }
        ensures { result ≡ slice_get (list_of self.now head) 0 }
    {
        let list = self.heads.get(head as usize);
        if list.len == 0 {
            None
        } else {
            Some(list.first)
        }
    }

    /// The number after a number of some list. None if that is the last one.
    pub fn next(&self, number: u32) -> Option<u32>
        requires { 0 < times_in_lists number self.now.lists }
        ensures { (head place : ℕ) → slice_get (list_of self.now head) place ≡ Some number → result ≡ slice_get (list_of self.now head) (place + 1) }
    {
        let following = self.next.get(number as usize);
        if following as usize == self.next.len() {
            None
        } else {
            Some(following)
        }
    }

    /// How many numbers there are, in lists or not.
    pub fn numbers(&self) -> u32
        ensures numbers { result ≡ self.now.numbers }
        ensures disjoint { AreDisjoint self.now }
    {
        self.next.len() as u32
    }

    /// How many lists there are.
    pub fn heads(&self) -> u32
        ensures { result ≡ length self.now.lists }
    {
        self.heads.len() as u32
    }

    /// How many lists there are up to the last that was ever used: those from there on are empty. In constant time.
    pub fn used(&self) -> u32
        ensures few { result ≤ length self.now.lists }
        ensures rest { (head : ℕ) → result ≤ head → list_of self.now head ≡ [] }
    {
        heads_used(&self.heads) as u32
    }
}

fn single(number: u32) -> Head
    ensures { result ≡ record { first = number; last = number; len = 1 } }
{
    Head {
        first: number,
        last: number,
        len: 1,
    }
}
