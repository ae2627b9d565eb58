//! Laws of journals. Each function does nothing: what it ensures is the law, for whoever reasons about journals.

ghost use Rattle.sg_journal.specs.LineLaws.{SoundHoldsOnce};
ghost use Rattle.sg_journal.specs.PlacingLaws.{ArePlacedOnce, ChangesAreSound, HeldCounts, NothingIsHeld, NothingIsSound, StoresAreSound, StoresKeepPlaces};
ghost use Rattle.sg_journal.specs.Needs.{OpeningIsPlaced, PlacedAreNeeded, StoresBegin, StoresChange};
ghost use Rattle.sg_journal.specs.steps.Soundness.{LineChangesAreSound};

use sg_layout::laws::need_absorbs;
use sg_store::laws::{links_are_sound, live_is_need};

/// If all lines are sound, after each of them each number stands in one slot, and each slot holds one number.
#[tactic(auto, using(crate::proofs::Once::each_line_holds_once))]
pub fn sound_holds_once()
    ensures { SoundHoldsOnce }
{}

/// The lines of changes between two lists of links, each child before its parent and then each parent before its child.
pub fn line_changes_are_sound()
    ensures { LineChangesAreSound }
{}

/// The links of well-formed stores are one sound placing, and where each live number keeps its link they keep their places.
pub fn stores_are_placed()
    ensures once { ArePlacedOnce }
    ensures sound { StoresAreSound }
    ensures keep { StoresKeepPlaces }
{
    // for the law that it ensures
    links_are_sound();
}

/// Nothing placed is sound, and then nothing is held.
pub fn nothing_is_placed()
    ensures sound { NothingIsSound }
    ensures held { NothingIsHeld }
{}

/// The lines of the changes between sound placings, between which each number keeps its link, are sound, and lead from what stands
/// in the one to what stands in the other; and as many numbers of a node are held as stand.
pub fn changes_are_sound()
    ensures sound { ChangesAreSound }
    ensures counts { HeldCounts }
{}

/// What is held of what stands in well-formed stores is as many numbers of each node with a cap as the state of the stores needs.
pub fn placed_are_needed()
    ensures { PlacedAreNeeded }
{
    // for the laws that they ensure
    links_are_sound();
    live_is_need();
}

/// The lines of the changes from where nothing stands to well-formed stores, and from such stores to others of the same layouts between
/// which each live number keeps its link, are sound, and lead to what stands there: as many numbers of each node with a cap as the state
/// of the stores needs.
pub fn stores_change()
    ensures begin { StoresBegin }
    ensures change { StoresChange }
{
    // for the laws that they ensure
    links_are_sound();
    live_is_need();
}

/// Nothing stands in well-formed stores that stand for the opening state.
pub fn opening_is_placed()
    ensures { OpeningIsPlaced }
{
    // for the laws that they ensure
    links_are_sound();
    live_is_need();
    need_absorbs();
}
