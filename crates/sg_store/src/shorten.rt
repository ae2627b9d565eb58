ghost use Rattle.std.specs.Prelude.{◌≡◌, ℕ, ◌<◌, ◌≤◌, ◌^◌, cond, List, [], ◌∷◌, ◌++◌, length, take};
ghost use Rattle.std.specs.List.{All};
ghost use Rattle.sg_links.specs.Lists.{list_of, with_list};
ghost use Rattle.sg_pool.specs.Numbers.{live_count};
ghost use Rattle.sg_dynamic.specs.Chunks.{chunks_of, IsExact};
ghost use Rattle.sg_store.specs.steps.Cuts.{CutSoFar};

use crate::word_row::WordRow;
use sg_links::Links;
use sg_pool::Pool;

/// Shortens each chain to the chunks that its length needs, and gives back the others. In time by the chains up to the last that was used.
pub(crate) fn shorten_all(chains: &mut Links, pool: &mut Pool, lengths: &WordRow, chunk: u32)
    requires some { 1 ≤ chunk }
    requires short { All (λ len. len ≤ 2 ^ 15) lengths.now }
    requires many { length chains.old.lists ≡ length lengths.now }
    requires exact { IsExact chains.old pool.old }
    ensures cut { CutSoFar chains.old chains.new lengths.now chunk (length lengths.now) }
    ensures exact { IsExact chains.new pool.new }
    ensures fewer { live_count pool.new ≤ live_count pool.old }
{
    for head in 0..chains.used() {
        let wanted = chunks(lengths.get(head as usize), chunk);
        shorten(chains, pool, head, wanted);
    }
}

/// How many chunks hold so many elements.
fn chunks(len: u64, chunk: u32) -> u32
    requires some { 1 ≤ chunk }
    requires short { len ≤ 2 ^ 15 }
    ensures { result ≡ chunks_of chunk len }
{
    ((len + (u64::from(chunk) - 1)) / u64::from(chunk)) as u32
}

/// Shortens a chain to so many numbers, and gives back the others.
pub(crate) fn shorten(chains: &mut Links, pool: &mut Pool, head: u32, wanted: u32)
    requires there { head < length chains.old.lists }
    requires exact { IsExact chains.old pool.old }
    ensures cut { chains.new ≡ with_list chains.old head (take wanted (list_of chains.old head)) }
    ensures exact { IsExact chains.new pool.new }
    ensures fewer { live_count pool.new ≤ live_count pool.old }
{
    for place in 0..chains.len(head) {
        turn(chains, pool, head, place < wanted);
    }
}

/// Takes the first number out of a chain, and puts it back at the end or gives it back.
fn turn(chains: &mut Links, pool: &mut Pool, head: u32, keep: bool)
    requires there { head < length chains.old.lists }
    requires exact { IsExact chains.old pool.old }
    ensures turned { (number : ℕ) (rest : List ℕ) → list_of chains.old head ≡ number ∷ rest →
        chains.new ≡ with_list chains.old head (rest ++ cond keep (number ∷ []) []) }
    ensures exact { IsExact chains.new pool.new }
    ensures fewer { live_count pool.new ≤ live_count pool.old }
{
    // for the law that it ensures
    let _numbers = chains.numbers();
    if let Some(number) = chains.pop_front(head) {
        if keep {
            chains.push_back(head, number);
        } else {
            pool.give_back(number);
        }
    }
}
