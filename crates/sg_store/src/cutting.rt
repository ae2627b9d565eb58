ghost use Rattle.std.specs.Prelude.{◌≡◌, ◌≢◌, ◌↔◌, ℕ, suc, ◌-◌, ◌<◌, ◌≤◌, ◌^◌, length, IsTrue, slice_index};
ghost use Rattle.std.specs.List.{All};
ghost use Rattle.sg_pool.specs.Numbers.{place_count, is_live_number, live_count};
ghost use Rattle.sg_store.specs.steps.Cuts.{IsCut, IsCutThrough, HasLinks, IsLinkedOnce};

use sg_hash::PagedRow;
use sg_pool::Pool;

/// Gives back the numbers of links that stand no longer.
pub(crate) fn give_back_cut(pool: &mut Pool, old: &PagedRow, new: &PagedRow)
    requires as_many { length new.now ≡ length old.now }
    requires linked { HasLinks pool.old old.now }
    requires once { IsLinkedOnce old.now }
    requires stays { (slot : ℕ) → slice_index new.now slot ≢ 0 → slice_index new.now slot ≡ slice_index old.now slot }
    requires small { All (λ link. link ≤ 2 ^ 32) old.now }
    ensures linked { HasLinks pool.new new.now }
    ensures places { place_count pool.new ≡ place_count pool.old }
    ensures fewer { live_count pool.new ≤ live_count pool.old }
{
    let mut slot = 0;
    while let Some(next) = old.next(slot) {
        give_back_one(pool, old.get(next), new.get(next));
        slot = next + 1;
    }
}

/// Gives back the number of a link, if none stands in its place.
fn give_back_one(pool: &mut Pool, link: u64, now: u64)
    requires live { link ≢ 0 → now ≡ 0 → IsTrue (is_live_number pool.old (link - 1)) }
    requires small { link ≤ 2 ^ 32 }
    ensures { IsCut link now pool.old pool.new }
{
    if link != 0 && now == 0 {
        pool.give_back((link - 1) as u32);
    }
}
