ghost use Rattle.std.specs.Prelude.{◌≡◌, ℕ, ◌+◌, ◌<◌, ◌≤◌, length, slice_index, slice_index_or};
ghost use Rattle.sg_links.specs.Heads.{lists_of};
ghost use Rattle.sg_links.specs.steps.Rows.{no_head, list_at, AreLinked, AreLaid, IsLaid};

use crate::head::Head;
use crate::row::Row;

/// How many heads there are up to the last that may have numbers.
pub fn heads_used(heads: &Row<Head>) -> usize
    ensures few { result ≤ length heads.now }
    ensures rest { (head : ℕ) → result ≤ head → (slice_index_or heads.now head no_head).len ≡ 0 }
{
    let (used, rest) = heads.end();
    if rest.len == 0 { used } else { heads.len() }
}

/// Lays the lists one after the other: each that may have numbers goes into `order` from its place in `starts` on.
pub fn lay_all(next: &Row<u32>, heads: &Row<Head>, starts: &mut Row<u32>, order: &mut Row<u32>)
    requires linked { AreLinked next.now heads.now (lists_of next.now heads.now) }
    requires starts { length starts.old ≡ length heads.now }
    requires order { length order.old ≡ length next.now }
    ensures laid { AreLaid (length heads.now) (lists_of next.now heads.now) starts.new order.new (length next.now) }
    ensures starts { length starts.new ≡ length heads.now }
    ensures order { length order.new ≡ length next.now }
{
    let mut end = 0;
    for head in 0..heads_used(heads) {
        starts.set(head, end);
        lay(next, heads, head, end, order);
        end += heads.get(head).len;
    }
}

/// Lays one list into the order, from a place on.
fn lay(next: &Row<u32>, heads: &Row<Head>, head: usize, start: u32, order: &mut Row<u32>)
    requires linked { AreLinked next.now heads.now (lists_of next.now heads.now) }
    requires there { head < length heads.now }
    requires room { start + length (list_at next.now heads.now head) ≤ length order.old }
    ensures laid { IsLaid (list_at next.now heads.now head) start order.new }
    ensures front { (k : ℕ) → k < start → slice_index order.new k ≡ slice_index order.old k }
    ensures length { length order.new ≡ length order.old }
{
    let list = heads.get(head);
    let mut number = list.first;
    for step in 0..list.len {
        order.set(start as usize + step as usize, number);
        number = next.get(number as usize);
    }
}

/// The number at a place of a list, by a walk along it.
pub fn walk_to(next: &Row<u32>, heads: &Row<Head>, head: usize, place: u32) -> u32
    requires linked { AreLinked next.now heads.now (lists_of next.now heads.now) }
    requires there { head < length heads.now }
    requires within { place < length (list_at next.now heads.now head) }
    ensures { result ≡ slice_index (list_at next.now heads.now head) place }
{
    let mut number = heads.get(head).first;
    for _step in 0..place {
        number = next.get(number as usize);
    }
    number
}
