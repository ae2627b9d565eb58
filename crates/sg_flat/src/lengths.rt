ghost use Rattle.std.specs.Prelude.{◌≡◌, ◌≤◌, ℕ, IfOk, OnOk, All, if◌then◌else◌, ◌==◌, unwrap_or, max};
ghost use Rattle.std.specs.Ordering.{nat_cmp};
ghost use Rattle.std.specs.BTreeMap.{get};
ghost use Rattle.sg_coord.specs.Bounds.{volume};
ghost use Rattle.sg_coord.specs.Coord.{Inside};
ghost use Rattle.sg_flat.specs.steps.Blocks.{longer, all_of, each_of, number_in, reach_in, length_in};

use crate::blocks::Blocks;
use sg_coord::Coord;
use sg_words::Memory;
use std::alloc::Global;
use std::collections::BTreeMap;

/// How many points of each block coordinates make live, by the block's number; blocks with none aren't there.
pub(crate) fn lengths_of(
    alloc: Global,
    blocks: &Blocks,
    coords: &[Coord],
) -> Result<BTreeMap<u32, u32>, Memory>
    requires { All (Inside (all_of blocks.now)) coords.now }
    ensures { IfOk result (λ lengths. (number : ℕ) → get nat_cmp lengths number
        ≡ length_in blocks.now coords.now number) }
{
    let mut lengths = BTreeMap::new(alloc);
    for at in coords {
        blocks.lengthen(&mut lengths, *at)?;
    }
    Ok(lengths)
}

/// The lengths of a block before and after one more coordinate.
#[derive(Clone, Copy)]
pub(crate) struct Grown {
    pub(crate) from: u32,
    pub(crate) to: u32,
}

impl Blocks {
    /// Lengthens the block of a coordinate up to what that coordinate makes live.
    pub(crate) fn lengthen(
        &self,
        lengths: &mut BTreeMap<u32, u32>,
        at: Coord,
    ) -> Result<Grown, Memory>
        requires { Inside (all_of self.now) at }
        ensures lengths { OnOk result ((number : ℕ) → get nat_cmp lengths.new number
            ≡ (if number_in self.now at == number then longer (get nat_cmp lengths.old number) (reach_in self.now at)
            else get nat_cmp lengths.old number)) }
        ensures most { reach_in self.now at ≤ volume (each_of self.now) }
        ensures grown { IfOk result (λ grown.
            (grown.from ≡ unwrap_or (get nat_cmp lengths.old (number_in self.now at)) 0)
            × (grown.to ≡ max grown.from (reach_in self.now at))) }
    {
        let number = self.number(at);
        let from = lengths.get(&number).copied().unwrap_or(0);
        let to = from.max(self.reach(at));
        lengths.insert(number, to)?;
        Ok(Grown { from, to })
    }
}
