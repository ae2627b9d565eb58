//! The end of a descent: its last seat takes the table apart, and the store gets the links and bits.
ghost use Rattle.std.specs.Prelude.{◌≡◌, List, ◌++◌, length, Err, IfOk, OnOk, OnErr};
ghost use Rattle.sg_words.specs.Answers.{Answers};
ghost use Rattle.sg_words.specs.RaceInvariant.{handed_share};
ghost use Rattle.sg_coord.specs.declared.coord.Coord.{Coord};
ghost use Rattle.sg_layout.specs.Need.{first_full};
ghost use Rattle.sg_store.specs.Reaching.{KeepsCells, IsOpenThrough};
ghost use Rattle.sg_activate.specs.Activating.{unless_full};
ghost use Rattle.sg_activate.specs.Descending.{open_before, last_fused, first_link_full, IsStartOf, FitsSeat, StaysAt};
ghost use Rattle.sg_activate.specs.Descents.{start_of, worker_of, IsSeatOf};
ghost use Rattle.sg_activate.specs.steps.DescentEnds.{HasEnded};
ghost use Rattle.sg_activate.specs.steps.Levels.{IfActRefused};

use crate::descent::ended::{Ended, copy_words};
use crate::descent::rule::Start;
use crate::descent::seat::{DescentPass, DescentSeat};
use crate::fault::ActFault;
use sg_store::Store;
use sg_words::{Items, Memory, Stop};
use std::alloc::Global;

impl DescentPass {
    /// Ends the descent by a seat into which all others were joined, and gives the store all links and bits that were
    /// made. Refused where the need of a pointer node passes its cap: then, and where memory runs out, the store is as
    /// before.
    pub fn finish(
        self,
        alloc: Global,
        seat: DescentSeat,
        store: &mut Store,
    ) -> Result<(), Stop<ActFault>>
        requires own { IsSeatOf self seat }
        requires all { handed_share (worker_of seat) ≡ 16 }
        requires same { IsStartOf (start_of self) store.old }
        ensures answer { (old wanted : List Coord) → FitsSeat (start_of self) (worker_of seat) wanted →
            IsOpenThrough store.old old (old ++ wanted) (open_before store.old.shape) →
            Answers result (unless_full (first_link_full store.old.shape (old ++ wanted))) }
        ensures full { IfActRefused result (λ fault. (old wanted : List Coord) →
            FitsSeat (start_of self) (worker_of seat) wanted →
            IsOpenThrough store.old old (old ++ wanted) (open_before store.old.shape) →
            unless_full (first_full store.old.shape (old ++ wanted)) ≡ Err fault) }
        ensures opened { OnOk result ((old wanted : List Coord) → FitsSeat (start_of self) (worker_of seat) wanted →
            IsOpenThrough store.old old (old ++ wanted) (open_before store.old.shape) →
            IsOpenThrough store.new old (old ++ wanted) (last_fused store.old.shape)) }
        ensures keeps { OnOk result (KeepsCells store.old store.new) }
        ensures stays_at { OnOk result (StaysAt store.old store.new) }
        ensures stays { OnErr result (store.new ≡ store.old) }
    {
        match copies(alloc, &self.start) {
            Ok(Words { links, masks }) => self.gather(seat, links, masks).give(alloc, store),
            Err(Memory) => Err(Stop::Memory),
        }
    }

    // The words at the end, into lists of the right lengths.
    fn gather(self, seat: DescentSeat, mut links: Items<u64>, mut masks: Items<u64>) -> Ended
        requires own { IsSeatOf self seat }
        requires all { handed_share (worker_of seat) ≡ 16 }
        requires links { length links ≡ length self.start.links }
        requires masks { length masks ≡ length self.start.masks }
        ensures start { result.start ≡ self.start }
        ensures base { result.base ≡ self.base }
        ensures levels { result.levels ≡ self.levels }
        ensures ended { HasEnded self.start (worker_of seat) result.links result.masks }
    {
        let DescentPass {
            table,
            start,
            base,
            levels,
        } = self;
        let DescentSeat {
            seat,
            spares: _,
            dry: _,
            last_bits: _,
        } = seat;
        let closed = table.close_with(seat);
        copy_words(&closed, 0, &mut links);
        copy_words(&closed, links.len(), &mut masks);
        closed.free();
        Ended {
            start,
            base,
            levels,
            links,
            masks,
        }
    }
}

// The slots and the masks of a start.
#[derive(Drop)]
struct Words {
    links: Items<u64>,
    masks: Items<u64>,
}

fn copies(alloc: Global, start: &Start) -> Result<Words, Memory>
    ensures { IfOk result (λ words. (words.links ≡ start.now.links) × (words.masks ≡ start.now.masks)) }
{
    let links = Items::from_slice(alloc, start.links.as_slice())?;
    let masks = Items::from_slice(alloc, start.masks.as_slice())?;
    Ok(Words { links, masks })
}
