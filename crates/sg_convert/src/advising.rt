//! Which layout needs the fewest words for what one keeps.

ghost use Rattle.std.specs.Prelude.{◌≡◌, ◌<◌, ◌≤◌, ◌^◌, ◌++◌, [], ◌∷◌, None, length, map, All, IfOk, OnOk};
ghost use Rattle.sg_coord.specs.Coord.{Inside};
ghost use Rattle.sg_layout.specs.Axes.{bounds_of_shape};
ghost use Rattle.sg_layout.specs.StorageWords.{words_of_shape, most_words};
ghost use Rattle.sg_flat.specs.declared.state.FlatState.{FlatState};
ghost use Rattle.sg_store.specs.Standing.{shapes_of, StandForState};
ghost use Rattle.sg_convert.specs.Alike.{IsAlikeTo};
ghost use Rattle.sg_convert.specs.Advising as spec;
ghost use Rattle.sg_convert.specs.Advising.{counts_from, by_words, words_for};
ghost use Rattle.sg_convert.specs.Advised.{counted, IsAdvice};

use crate::kept::kept_of;
use crate::likeness::alike;
use crate::used::used_of;
use sg_coord::Coord;
use sg_elements::elements;
use sg_layout::{Layout, Layouts, closure_closes, need_absorbs, need_grows};
use sg_store::laws::{live_is_need, stands_has_room};
use sg_store::{Store, Stores};
use sg_words::{Items, Memory, Stop};
use std::alloc::Global;

/// The words that the kept coordinates of a layout use of another; none where they don't fit.
#[derive(Clone, Copy, Debug, PartialEq, Eq)]
pub struct Count {
    pub layout: u32,
    pub words: Option<u64>,
}

/// A count for each layout that is alike, in order of declaration, and the first with the fewest words.
#[derive(Debug, Drop)]
pub struct Advice {
    pub counts: Items<Count>,
    pub best: u32,
    pub words: u64,
}

/// Which of the layouts that are alike to one needs the fewest words for what this one keeps: the coordinates where some
/// field isn't 0. Layouts are numbered from 0.
pub fn advise(alloc: Global, stores: &Stores, layouts: &Layouts, of: u32) -> Result<Advice, Memory>
    requires same { shapes_of stores.now.list ≡ layouts.now.list }
    requires there { of < length layouts.now.list }
    ensures advice { IfOk result (λ advice. (state : FlatState) → StandForState layouts.now.list stores.now.list state →
        IsAdvice layouts.now.list state.layouts of advice) }
    ensures alike { IfOk result (λ advice. IsAlikeTo layouts.now.list of advice.best) }
{
    // for what they ensure
    stores.well_formed();
    stands_has_room();
    need_grows();
    if layouts.list.len() > u32::MAX as usize {
        // memory doesn't have room for so many
        return Err(Memory);
    }
    let list = stores.list.as_slice();
    let store = &list[of as usize];
    let active = elements(alloc, store)?;
    let kept = kept_of(alloc, store, active.as_slice())?;
    let counts = counts_of(
        alloc,
        store.layout(),
        layouts.list.as_slice(),
        kept.as_slice(),
    )?;
    let (best, words) = match best_of(counts.as_slice()) {
        Some(best) => best,
        // never: the layout itself fits
        None => (of, 0),
    };
    Ok(Advice {
        counts,
        best,
        words,
    })
}

/// The counts of those of the layouts that are alike to one, in order.
fn counts_of(
    alloc: Global,
    one: &Layout,
    layouts: &[Layout],
    kept: &[Coord],
) -> Result<Items<Count>, Memory>
    requires few { length layouts.now < 2 ^ 32 }
    requires few_words { All (λ shape. words_of_shape shape ≤ most_words) layouts.now }
    requires inside { All (Inside (bounds_of_shape one.now)) kept.now }
    ensures { IfOk result (λ counts. map counted counts ≡ counts_from one.now kept.now 0 layouts.now) }
{
    let mut counts = Items::new(alloc);
    for (number, other) in layouts.iter().enumerate() {
        count_one(alloc, &mut counts, one, number as u32, other, kept)?;
    }
    Ok(counts)
}

/// Adds the count of a layout with this number, if it is alike.
fn count_one(
    alloc: Global,
    counts: &mut Items<Count>,
    one: &Layout,
    number: u32,
    other: &Layout,
    kept: &[Coord],
) -> Result<(), Memory>
    requires few_words { words_of_shape other.now ≤ most_words }
    requires inside { All (Inside (bounds_of_shape one.now)) kept.now }
    ensures { OnOk result (map counted counts.new
        ≡ map counted counts.old ++ counts_from one.now kept.now number (other.now ∷ [])) }
{
    if alike(one, other) {
        let words = words_for(alloc, other, kept)?;
        counts.push(Count {
            layout: number,
            words,
        })?;
    }
    Ok(())
}

/// The words that coordinates use of a layout; none where they don't fit.
fn words_for(alloc: Global, layout: &Layout, kept: &[Coord]) -> Result<Option<u64>, Memory>
    requires few_words { words_of_shape layout.now ≤ most_words }
    requires inside { All (Inside (bounds_of_shape layout.now)) kept.now }
    ensures { IfOk result (λ words. words ≡ words_for kept.now layout.now) }
{
    // for the laws that they ensure
    closure_closes();
    need_absorbs();
    live_is_need();
    layout.shape();
    let fresh = Store::make(alloc, layout)?;
    match fresh.opened(alloc, kept) {
        Ok(store) => Ok(Some(used_of(&store))),
        Err(Stop::Refused(_full)) => Ok(None),
        Err(Stop::Memory) => Err(Memory),
    }
}

/// The first layout whose count is least, and its words; none if there is no count with words.
fn best_of(counts: &[Count]) -> Option<(u32, u64)>
    ensures { result ≡ spec.best_of None (map counted counts.now) }
{
    let mut best = None;
    for count in counts {
        best = better(best, *count);
    }
    best
}

/// Of a best count so far and another the first, unless the other has fewer words.
fn better(best: Option<(u32, u64)>, count: Count) -> Option<(u32, u64)>
    ensures { result ≡ by_words best count.words count.layout }
{
    let Some(words) = count.words else {
        return best;
    };
    match best {
        Some((layout, least)) => {
            if words < least {
                Some((count.layout, words))
            } else {
                Some((layout, least))
            }
        }
        None => Some((count.layout, words)),
    }
}
