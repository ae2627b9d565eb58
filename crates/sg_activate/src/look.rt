ghost use Rattle.std.specs.Prelude.{◌≡◌, ℕ, ◌+◌, ◌<◌, ◌≤◌, ◌⊎◌, [], ◌∷◌, List, All, Contains, Some, IsTrue, IfOk, OnOk};
ghost use Rattle.sg_coord.specs.declared.coord.Coord.{Coord};
ghost use Rattle.sg_coord.specs.Slices.{slice_start};
ghost use Rattle.sg_layout.specs.Axes.{bounds_of_shape};
ghost use Rattle.sg_layout.specs.declared.shape.Shape.{Shape};
ghost use Rattle.sg_activate.specs.Activating.{wanted_below};
ghost use Rattle.sg_activate.specs.steps.Finding.{found_in, AreFound};
ghost use Rattle.sg_activate.specs.steps.Looked.{noted, IsNew, IsKnown, AreKnown, LastIsKnown, NotesNew, NotesGrew};

use crate::found::{Finds, found_at};
use crate::notes::Notes;
use crate::race::{Race, Raced, SHARE, race_all};
use crate::wanted::Wanted;
use sg_coord::{Coord, slice_of, slices_partition};
use sg_store::Store;
use sg_words::{Items, Memory};
use std::alloc::Global;
use std::thread::Threads;

/// A look at what is wanted in a store: each worker notes what isn't active.
#[derive(Drop)]
struct Look<'a, W: Wanted> {
    store: &'a Store,
    want: &'a W,
    workers: u32,
    axes: u32,
    ghost some: { 1 ≤ workers },
    ghost few: { workers ≤ 16 },
    ghost axes_are: { axes ≡ (bounds_of_shape store.now.shape).n },
    ghost inside: { W.bounds want.now ≡ bounds_of_shape store.now.shape },
}

/// The workers that a seat may still be split for, and what was found.
#[derive(Drop)]
struct LookSeat {
    alloc: Global,
    share: u32,
    found: Items<Finds>,
}

impl<'a, W: Wanted> Race for Look<'a, W>
where
    W::Hand: Send,
{
    type Seat = LookSeat;

    ghost use Rattle.std.specs.Prelude.{◌+◌};
    ghost use Rattle.sg_coord.specs.Slices.{slice_start};
    ghost use Rattle.sg_activate.specs.steps.Finding.{found_in, AreFound};
    ghost use Rattle.sg_activate.specs.steps.Looked.{IsNew, AreKnown};

    ghost count = { λ look. look.workers };

    ghost IsSeatOf = { λ look seat. AreFound (IsNew look.store.now (W.Means look.want.now)
        (W.count look.want.now)) look.axes look.workers seat.found };

    ghost share = { λ seat. seat.share };

    ghost weight = { λ seat. 0 };

    ghost HasDone = { λ look worker seat. AreKnown look.store.now (W.Means look.want.now) (slice_start
        (W.count look.want.now) look.workers worker)
        (slice_start (W.count look.want.now) look.workers (worker + 1)) (found_in look.axes seat.found) };

    fn workers(&self) -> u32 {
        self.workers
    }

    fn pieces(&self) -> u32 {
        self.want.pieces()
    }

    fn part(&self, alloc: Global, seat: LookSeat, worker: u32) -> Raced<LookSeat> {
        let LookSeat {
            alloc: _,
            share,
            found,
        } = seat;
        match look_slice(self, alloc, found, worker) {
            Ok(found) => Raced {
                seat: LookSeat {
                    alloc,
                    share,
                    found,
                },
                done: Ok(()),
            },
            Err(Memory) => Raced {
                seat: LookSeat {
                    alloc,
                    share,
                    found: Items::new(alloc),
                },
                done: Err(Memory),
            },
        }
    }

    fn split(&self, seat: &mut LookSeat) -> LookSeat {
        let share = seat.share / 2;
        seat.share -= share;
        LookSeat {
            alloc: seat.alloc,
            share,
            found: Items::new(seat.alloc),
        }
    }

    fn join(&self, seat: &mut LookSeat, other: LookSeat) -> Result<(), Memory> {
        let LookSeat {
            alloc: _,
            share: _,
            found: more,
        } = other;
        match seat.found.append(more) {
            Ok(()) => Ok(()),
            Err(_) => {
                seat.found = Items::new(seat.alloc);
                Err(Memory)
            }
        }
    }
}

/// One worker looks at what the pieces of its slice want, in order, and adds what isn't active.
fn look_slice<W: Wanted>(
    look: &Look<W>,
    alloc: Global,
    found: Items<Finds>,
    worker: u32,
) -> Result<Items<Finds>, Memory>
    requires own { AreFound (IsNew look.now.store.now (W.Means look.now.want.now)
        (W.count look.now.want.now)) look.now.axes look.now.workers found }
    requires within { worker < look.now.workers }
    ensures own { IfOk result (AreFound (IsNew look.now.store.now (W.Means look.now.want.now)
        (W.count look.now.want.now)) look.now.axes look.now.workers) }
    ensures known { IfOk result (λ list. AreKnown look.now.store.now (W.Means look.now.want.now)
        (slice_start (W.count look.now.want.now) look.now.workers worker) (slice_start (W.count look.now.want.now) look.now.workers (worker + 1)) (found_in look.now.axes list)) }
{
    let (from, to) = slice_of(look.want.pieces() as usize, look.workers, worker);
    let mut hand = look.want.hand(alloc)?;
    let mut coords = Vec::new(alloc);
    let mut notes = Notes {
        worker,
        axes: look.axes,
        found,
        fresh: Items::new(alloc),
        last: None,
    };
    for piece in from..to {
        look_piece(
            look,
            alloc,
            &mut hand,
            piece as u32,
            &mut coords,
            &mut notes,
        )?;
    }
    notes.close()
}

/// Looks at what one piece wants. The coordinates are collected in the buffer.
fn look_piece<W: Wanted>(
    look: &Look<W>,
    alloc: Global,
    hand: &mut W::Hand,
    piece: u32,
    coords: &mut Vec<Coord>,
    notes: &mut Notes,
) -> Result<(), Memory>
    requires hand { W.IsHand look.now.want.now hand.old }
    requires piece { piece < W.count look.now.want.now }
    requires axes { notes.old.axes ≡ look.now.axes }
    requires last { LastIsKnown look.now.store.now notes.old }
    ensures hand { OnOk result (W.IsHand look.now.want.now hand.new) }
    ensures last { OnOk result (LastIsKnown look.now.store.now notes.new) }
    ensures axes { OnOk result (notes.new.axes ≡ look.now.axes) }
    ensures worker { OnOk result (notes.new.worker ≡ notes.old.worker) }
    ensures stays { OnOk result ((at : Coord) → Contains (noted notes.old) at → Contains (noted notes.new) at) }
    ensures only { OnOk result ((at : Coord) → Contains (noted notes.new) at →
        Contains (noted notes.old) at ⊎ IsNew look.now.store.now (W.Means look.now.want.now)
        (W.count look.now.want.now) at) }
    ensures of_workers { OnOk result (notes.old.worker < look.now.workers →
        All (λ finds. finds.worker < look.now.workers) notes.old.found →
        All (λ finds. finds.worker < look.now.workers) notes.new.found) }
    ensures known { OnOk result ((list : ℕ → List Coord) → W.Means look.now.want.now list → (at : Coord) →
        Contains (list piece) at → IsKnown look.now.store.now (noted notes.new) at) }
{
    coords.clear();
    look.want.wanted(hand, piece, coords)?;
    look_each(look.store, alloc, piece, coords.as_slice(), notes)
}

/// Looks at coordinates that a piece wants, one after the other.
fn look_each(
    store: &Store,
    alloc: Global,
    piece: u32,
    coords: &[Coord],
    notes: &mut Notes,
) -> Result<(), Memory>
    requires axes { (at : Coord) → Contains coords.now at → at.n ≡ notes.old.axes }
    requires last { LastIsKnown store.now notes.old }
    ensures last { OnOk result (LastIsKnown store.now notes.new) }
    ensures grew { OnOk result (NotesGrew coords.now notes.old notes.new) }
    ensures new { OnOk result (NotesNew store.now notes.old notes.new) }
    ensures known { OnOk result ((at : Coord) → Contains coords.now at → IsKnown store.now (noted notes.new) at) }
{
    for at in coords {
        look_at(store, alloc, piece, *at, notes)?;
    }
    Ok(())
}

/// Looks at one coordinate that a piece wants, unless it was the last that was looked at.
fn look_at(
    store: &Store,
    alloc: Global,
    piece: u32,
    at: Coord,
    notes: &mut Notes,
) -> Result<(), Memory>
    requires axes { at.n ≡ notes.old.axes }
    requires last { LastIsKnown store.now notes.old }
    ensures last { OnOk result (LastIsKnown store.now notes.new) }
    ensures grew { OnOk result (NotesGrew (at ∷ []) notes.old notes.new) }
    ensures new { OnOk result (NotesNew store.now notes.old notes.new) }
    ensures known { OnOk result (IsKnown store.now (noted notes.new) at) }
{
    if is_last(&notes.last, at) {
        return Ok(());
    }
    notes.last = Some(at);
    if store.cell_of(at).is_some() {
        return Ok(());
    }
    notes.add(alloc, found_at(piece, at))
}

/// Whether a coordinate is the one that was looked at last.
fn is_last(last: &Option<Coord>, at: Coord) -> bool
    ensures { IsTrue result → last.now ≡ Some at }
{
    match last {
        Some(other) => *other == at,
        None => false,
    }
}

/// What is wanted and isn't active in a store, as so many workers find it. None of them passes the gate.
pub(crate) fn find_new<R: Threads + Sync, W: Wanted + Sync>(
    rt: &R,
    alloc: Global,
    store: &Store,
    want: &W,
    workers: u32,
) -> Result<Items<Finds>, Memory>
where
    W::Hand: Send,
    requires some { 1 ≤ workers }
    requires few { workers ≤ 16 }
    requires inside { W.bounds want.now ≡ bounds_of_shape store.now.shape }
    ensures found { IfOk result (AreFound (IsNew store.now (W.Means want.now) (W.count want.now))
        (bounds_of_shape store.now.shape).n workers) }
    ensures known { IfOk result (λ list. (lists : ℕ → List Coord) → W.Means want.now lists → (at : Coord) →
        Contains (wanted_below lists (W.count want.now)) at → IsKnown store.now (found_in (bounds_of_shape store.now.shape).n list) at) }
{
    // for the law that it ensures
    slices_partition(want.pieces() as usize, workers);
    let look = Look {
        store,
        want,
        workers,
        axes: store.layout().extents().n,
    };
    let seat = LookSeat {
        alloc,
        share: SHARE,
        found: Items::new(alloc),
    };
    let Raced { seat, done } = race_all(rt, alloc, &look, seat);
    done?;
    let LookSeat {
        alloc: _,
        share: _,
        found,
    } = seat;
    Ok(found)
}
