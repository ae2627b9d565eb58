//! What a run made lands in its stores. Nothing is copied, and nothing refused.

ghost use Rattle.std.specs.Prelude.{◌≡◌, ◌+◌, ◌<◌, ◌≤◌, ◌++◌, ◌∷◌, [], ℕ, All, List, length, map, IfSome, slice_get, unwrap_or, vec_capacity};
ghost use Rattle.std.specs.List.{AllZip};
ghost use Rattle.sg_flat.specs.declared.effects.Write.{Write};
ghost use Rattle.sg_store.specs.StoreWords.{StoreWords};
ghost use Rattle.sg_store.specs.Links.{GrowsLinks};
ghost use Rattle.sg_ir.specs.declared.code.KernelCode.{KernelCode};
ghost use Rattle.sg_exec.specs.Preparing.{CanLandIn, HasLandedIn, IsMadeFor, KeepsUnwritten};
ghost use Rattle.sg_exec.specs.steps.Machines.{IsCellOf, AreCells};
ghost use Rattle.sg_exec.specs.steps.Landing.{current, landing, Lands};
ghost use Rattle.sg_exec.specs.steps.Passes.{IsSumOf, into_field};
ghost use Rattle.sg_exec.specs.steps.Puts.{in_lists, kept_writes};
ghost use Rattle.sg_exec.specs.steps.Made.{AreSums, HasRow, HaveTrees, KeepsField, NoSumOf, NoWriteInto, summed, words_of};

use crate::lanes::cell_write::CellWrite;
use crate::results::landing::put_cell;
use crate::results::made::Made;
use crate::results::own_writes::Puts;
use crate::results::sums::{Sum, put_sum};
use sg_store::{Store, Stores};
use sg_words::Items;
use std::alloc::Global;

/// The second half of a run: lands what was prepared in the stores, in which the layouts that its kernel touches are as they were then. The
/// copies take the places of their stores first.
pub fn land(alloc: Global, stores: &mut Stores, made: Made)
    requires { CanLandIn stores.old.list made }
    ensures landed { HasLandedIn stores.old.list made stores.new.list }
    ensures kept { (kernel : KernelCode) → IsMadeFor kernel stores.old.list made → KeepsUnwritten kernel stores.old.list stores.new.list }
    ensures links { AllZip GrowsLinks stores.old.list stores.new.list }
{
    let Made {
        copies,
        ended,
        room,
    } = made;
    let mut owned = room;
    let list = std::mem::replace(&mut stores.list, Items::new(alloc));
    move_all(list, copies, &mut owned);
    land_sums(&mut owned, ended.sums.as_slice());
    land_puts(&mut owned, &ended.puts);
    stores.list = Items::from_vec(owned);
}

/// Moves the stores, each with its copy in its place if there is one, after others, if there is room for all.
fn move_all(list: Items<Store>, copies: Vec<Option<Store>>, owned: &mut Vec<Store>)
    requires same { length copies.items ≡ length list }
    requires space { length owned.old.items + length list ≤ vec_capacity owned.old }
    ensures items { owned.new.items ≡ owned.old.items ++ current copies.items list }
    ensures space { vec_capacity owned.old ≤ vec_capacity owned.new }
{
    let (mut list, mut copies) = (list, copies);
    let Some(store) = list.pop() else {
        return;
    };
    let Some(copy) = copies.pop() else {
        return;
    };
    move_all(list, copies, owned);
    move_one(store, copy, owned);
}

/// Moves a store, or its copy if there is one, after others, if there is room for it.
fn move_one(store: Store, copy: Option<Store>, owned: &mut Vec<Store>)
    requires space { length owned.old.items < vec_capacity owned.old }
    ensures items { owned.new.items ≡ owned.old.items ++ unwrap_or copy store ∷ [] }
    ensures space { vec_capacity owned.old ≤ vec_capacity owned.new }
{
    let kept = copy.unwrap_or(store);
    owned.push(kept).unwrap();
}

/// Gives the fields of sums their values, in order.
fn land_sums(stores: &mut Vec<Store>, sums: &[Sum])
    requires rows { All (HasRow stores.old.items) sums.now }
    ensures trees { HaveTrees stores.old.items stores.new.items }
    ensures lands { (writes : List Write) → AreSums stores.old.items sums.now writes →
        Lands stores.old.items stores.new.items (summed sums.now writes) }
    ensures kept { (layout : ℕ) → NoSumOf sums.now layout → slice_get stores.new.items layout ≡ slice_get stores.old.items layout }
{
    for sum in sums {
        land_sum(stores, sum);
    }
}

/// Gives a field of its store its values.
fn land_sum(stores: &mut Vec<Store>, sum: &Sum)
    requires row { HasRow stores.old.items sum.now }
    ensures trees { HaveTrees stores.old.items stores.new.items }
    ensures fresh { (base : List StoreWords) (layout field : ℕ) → (layout ≡ sum.now.layout → field ≡ sum.now.field → ⊥) →
        KeepsField base stores.old.items layout field → KeepsField base stores.new.items layout field }
    ensures lands { (base : List StoreWords) (writes : List Write) → HaveTrees base stores.old.items →
        IsSumOf base sum.now.layout sum.now.field (words_of sum.now) writes → KeepsField base stores.old.items sum.now.layout sum.now.field →
        Lands stores.old.items stores.new.items (into_field sum.now.layout sum.now.field writes) }
    ensures kept { (layout : ℕ) → (sum.now.layout ≡ layout → ⊥) → slice_get stores.new.items layout ≡ slice_get stores.old.items layout }
{
    let number = sum.layout as usize;
    if stores.len() <= number {
        return;
    }
    let store = &mut stores[number];
    put_sum(store, sum);
}

/// Lands kept writes, list after list.
fn land_puts(stores: &mut Vec<Store>, puts: &Puts)
    requires cells { AreCells stores.old.items (kept_writes puts.now) }
    ensures trees { HaveTrees stores.old.items stores.new.items }
    ensures lands { (base : List StoreWords) (made : List Write) → HaveTrees base stores.old.items → kept_writes puts.now ≡ map (landing base) made →
        Lands stores.old.items stores.new.items made }
    ensures kept { (layout : ℕ) → NoWriteInto (kept_writes puts.now) layout → slice_get stores.new.items layout ≡ slice_get stores.old.items layout }
{
    land_lists(stores, puts.before.as_slice());
    land_cells(stores, puts.last.as_slice());
}

/// Lands the writes of lists, one list after the other.
fn land_lists(stores: &mut Vec<Store>, lists: &[Vec<CellWrite>])
    requires cells { AreCells stores.old.items (in_lists lists.now) }
    ensures trees { HaveTrees stores.old.items stores.new.items }
    ensures lands { (base : List StoreWords) (made : List Write) → HaveTrees base stores.old.items → in_lists lists.now ≡ map (landing base) made →
        Lands stores.old.items stores.new.items made }
    ensures kept { (layout : ℕ) → NoWriteInto (in_lists lists.now) layout → slice_get stores.new.items layout ≡ slice_get stores.old.items layout }
{
    let Some((first, rest)) = lists.split_first() else {
        return;
    };
    land_cells(stores, first.as_slice());
    land_lists(stores, rest);
}

/// Lands kept writes, in order.
fn land_cells(stores: &mut Vec<Store>, writes: &[CellWrite])
    requires cells { AreCells stores.old.items writes.now }
    ensures trees { HaveTrees stores.old.items stores.new.items }
    ensures lands { (base : List StoreWords) (made : List Write) → HaveTrees base stores.old.items → writes.now ≡ map (landing base) made →
        Lands stores.old.items stores.new.items made }
    ensures kept { (layout : ℕ) → NoWriteInto writes.now layout → slice_get stores.new.items layout ≡ slice_get stores.old.items layout }
{
    for write in writes {
        land_cell(stores, write);
    }
}

/// Lands a kept write in the store of its layout.
fn land_cell(stores: &mut Vec<Store>, write: &CellWrite)
    requires cell { IfSome write.now.cell (IsCellOf stores.old.items write.now.layout) }
    ensures trees { HaveTrees stores.old.items stores.new.items }
    ensures lands { (base : List StoreWords) (made : Write) → HaveTrees base stores.old.items → write.now ≡ landing base made →
        Lands stores.old.items stores.new.items (made ∷ []) }
    ensures kept { (layout : ℕ) → (write.now.layout ≡ layout → ⊥) → slice_get stores.new.items layout ≡ slice_get stores.old.items layout }
{
    let number = write.layout as usize;
    if stores.len() <= number {
        return;
    }
    let store = &mut stores[number];
    put_cell(store, write);
}
