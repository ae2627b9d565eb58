//! The numbers of a stock when a race for slots has ended: those of the new links, and those that were drawn and are in none.
ghost use Rattle.std.specs.Prelude.{◌≡◌, ℕ, ◌<◌, false, min, length, take, IfOk, slice_index, slice_index_or};
ghost use Rattle.sg_words.specs.Stocks.{AreLinks, taken_of, outside, stands_in};

use crate::memory::Memory;
use crate::spreads::is_marked;
use sqlite_items::Items;
use std::alloc::Global;

/// The numbers of the new links, slot after slot: of the slots that were 0 and aren't any more.
pub fn taken_numbers(alloc: Global, old: &[u64], new: &[u64]) -> Result<Items<u32>, Memory>
    requires long { length new.now ≡ length old.now }
    requires links { AreLinks new.now }
    ensures { IfOk result (λ taken. taken ≡ taken_of old.now new.now) }
{
    let mut taken = Items::new(alloc);
    for i in 0..old.len() {
        if old[i] == 0 && new[i] != 0 {
            taken.push((new[i] - 1) as u32)?;
        }
    }
    Ok(taken)
}

/// The first `count` numbers of the stock without the taken ones, in the stock's order.
pub fn spare_numbers(
    alloc: Global,
    stock: &[u32],
    taken: &[u32],
    count: u64,
) -> Result<Items<u32>, Memory>
    ensures { IfOk result (λ spares. spares ≡ outside (stands_in taken.now) (take (min count (length stock.now)) stock.now)) }
{
    let set = set_of(alloc, taken)?;
    numbers_outside(alloc, stock, &set, count)
}

// For each number up to the greatest of these, whether it is one of them.
fn set_of(alloc: Global, numbers: &[u32]) -> Result<Items<bool>, Memory>
    ensures { IfOk result (λ set. (x : ℕ) → slice_index_or set x false ≡ stands_in numbers.now x) }
{
    let places = places_for(numbers);
    let mut set = Items::from_vec(vec![in alloc; false; places]?);
    for number in numbers {
        set.set(*number as usize, true);
    }
    Ok(set)
}

// One more than the greatest of these numbers, 0 if there is none.
fn places_for(numbers: &[u32]) -> usize
    ensures { (i : ℕ) → i < length numbers.now → slice_index numbers.now i < result }
{
    let mut places = 0;
    for number in numbers {
        places = places.max(*number as usize + 1);
    }
    places
}

// The first numbers of the stock that aren't in the set.
fn numbers_outside(
    alloc: Global,
    stock: &[u32],
    set: &Items<bool>,
    count: u64,
) -> Result<Items<u32>, Memory>
    ensures { IfOk result (λ spares. spares ≡ outside (λ x. slice_index_or set.now x false) (take (min count (length stock.now)) stock.now)) }
{
    let most = count.min(stock.len() as u64) as usize;
    let first = &stock[..most];
    let mut spares = Items::new(alloc);
    for number in first {
        if !is_marked(set, *number as usize) {
            spares.push(*number)?;
        }
    }
    Ok(spares)
}
