ghost use Rattle.std.specs.Prelude.{◌≡◌, ℕ, ◌+◌, ◌<◌, ◌≤◌, ◌^◌, length, sum_by, slice_index, OnOk, OnErr};
ghost use Rattle.std.specs.List.{All};
ghost use Rattle.sg_links.specs.Lists.{list_of};
ghost use Rattle.sg_pool.specs.Numbers.{place_count};
ghost use Rattle.sg_dynamic.specs.Chunks.{chunks_of, chunk_need, fit, lengths_from, IsExact, HaveRoom, AreFitted};
ghost use Rattle.sg_dynamic.specs.steps.Growing.{Grew};

use sg_links::Links;
use sg_pool::Pool;

/// More chunks are needed than there are: how many are needed, and how many there are.
#[derive(Clone, Copy, Debug, PartialEq, Eq)]
pub struct ChunkFull {
    pub need: u64,
    pub cap: u32,
}

/// Lets each chain grow at its end, until it has a number of the pool for each chunk of its length. The chains are the
/// lists of the heads from 0 on, one for each length. Refused, with nothing changed, exactly when all lengths together
/// need more chunks than the pool has places. The chains are arranged then, so that their places are found in constant time.
/// Takes time in proportion to the lengths and their chunks.
pub fn fit_chunks(
    chains: &mut Links,
    pool: &mut Pool,
    lengths: &[u64],
    chunk: u32,
) -> Result<(), ChunkFull>
    requires some { 1 ≤ chunk }
    requires short { All (λ len. len ≤ 2 ^ 15) lengths.now }
    requires room { HaveRoom chains.old lengths.now chunk }
    requires exact { IsExact chains.old pool.old }
    ensures answer { result ≡ fit chunk lengths.now (place_count pool.old) }
    ensures chains_stay { OnErr result (chains.new ≡ chains.old) }
    ensures pool_stays { OnErr result (pool.new ≡ pool.old) }
    ensures fitted { OnOk result (AreFitted chains.old chains.new lengths.now chunk) }
    ensures exact { IsExact chains.new pool.new }
{
    fit_front(chains, pool, lengths, chunk)
}

/// Lets each chain grow as `fit_chunks` does, where only the first lengths are here and all others are 0. Takes time in proportion to these
/// lengths, their chunks, and the chains up to the last that was used.
pub fn fit_front(
    chains: &mut Links,
    pool: &mut Pool,
    front: &[u64],
    chunk: u32,
) -> Result<(), ChunkFull>
    requires some { 1 ≤ chunk }
    requires short { All (λ len. len ≤ 2 ^ 15) front.now }
    requires room { HaveRoom chains.old (lengths_from front.now (length chains.old.lists)) chunk }
    requires exact { IsExact chains.old pool.old }
    ensures answer { result ≡ fit chunk (lengths_from front.now (length chains.old.lists)) (place_count pool.old) }
    ensures chains_stay { OnErr result (chains.new ≡ chains.old) }
    ensures pool_stays { OnErr result (pool.new ≡ pool.old) }
    ensures fitted { OnOk result (AreFitted chains.old chains.new (lengths_from front.now (length chains.old.lists)) chunk) }
    ensures exact { IsExact chains.new pool.new }
{
    // for the bound that it ensures
    let _heads = chains.heads();
    let need = front_needs(chains, front, chunk);
    let cap = pool.places();
    if need > u64::from(cap) {
        return Err(ChunkFull { need, cap });
    }
    for head in 0..front.len() {
        lengthen(chains, pool, head as u32, chunks(front[head], chunk));
    }
    chains.arrange();
    Ok(())
}

/// How many chunks hold so many elements.
fn chunks(len: u64, chunk: u32) -> u32
    requires some { 1 ≤ chunk }
    requires short { len ≤ 2 ^ 15 }
    ensures chunks { result ≡ chunks_of chunk len }
    ensures few { result ≤ 2 ^ 15 }
{
    ((len + (u64::from(chunk) - 1)) / u64::from(chunk)) as u32
}

fn chunks_needed(lengths: &[u64], chunk: u32) -> u64
    requires some { 1 ≤ chunk }
    requires short { All (λ len. len ≤ 2 ^ 15) lengths.now }
    requires few { length lengths.now < 2 ^ 32 }
    ensures { result ≡ chunk_need chunk lengths.now }
{
    let mut need = 0;
    for len in lengths {
        need += u64::from(chunks(*len, chunk));
    }
    need
}

/// How many chunks as many lengths as there are chains need, of which these are the first and all others are 0.
fn front_needs(chains: &Links, front: &[u64], chunk: u32) -> u64
    requires some { 1 ≤ chunk }
    requires short { All (λ len. len ≤ 2 ^ 15) front.now }
    requires within { length front.now ≤ length chains.now.lists }
    ensures need { result ≡ chunk_need chunk (lengths_from front.now (length chains.now.lists)) }
    ensures few { length front.now < 2 ^ 32 }
{
    // for the bound that it ensures
    let _heads = chains.heads();
    chunks_needed(front, chunk)
}

/// Draws numbers and puts them at the end of a chain, until it is as long as wanted.
fn lengthen(chains: &mut Links, pool: &mut Pool, head: u32, wanted: u32)
    requires there { head < length chains.old.lists }
    requires shorter { length (list_of chains.old head) ≤ wanted }
    requires room { sum_by length chains.old.lists + wanted ≤ chains.old.numbers + length (list_of chains.old head) }
    requires exact { IsExact chains.old pool.old }
    ensures grew { Grew chains.old chains.new head wanted }
    ensures exact { IsExact chains.new pool.new }
{
    for _long in chains.len(head)..wanted {
        match pool.draw() {
            Some(number) => chains.push_back(head, number),
            None => unreachable!(),
        }
    }
}
