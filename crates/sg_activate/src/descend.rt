//! The descent of all workers over what was found.
ghost use Rattle.std.specs.Prelude.{◌≡◌, ◌≤◌, ◌↔◌, All, length, IsTrue, OnOk};
ghost use Rattle.sg_coord.specs.Coord.{Inside};
ghost use Rattle.sg_layout.specs.Axes.{bounds_of_shape};
ghost use Rattle.sg_layout.specs.Live.{kind_at};
ghost use Rattle.sg_store.specs.Reaching.{KeepsCells};
ghost use Rattle.sg_activate.specs.Descending.{open_before, last_fused};
ghost use Rattle.sg_activate.specs.steps.Finding.{found_in};
ghost use Rattle.sg_activate.specs.steps.Levels.{IfActRefused, IsFirstFull, OpensTo};

use crate::asking::{Work, ask_all};
use crate::descent::start::last_of;
use crate::descent::{DescentPass, DescentSeat};
use crate::fault::ActFault;
use crate::pass::Pass;
use crate::race::Raced;
use sg_coord::Coord;
use sg_layout::{Kind, paths_tell};
use sg_outside::Gate;
use sg_store::Store;
use sg_words::Stop;
use std::alloc::Global;
use std::thread::Threads;

/// A race for the links and bits of all pointer and bitmasked nodes.
#[derive(Drop)]
pub(crate) struct DescentRace {
    pass: DescentPass,
}

impl Pass for DescentRace {
    type Seat = DescentSeat;

    ghost use Rattle.sg_words.specs.RaceInvariant.{handed_share};
    ghost use Rattle.sg_activate.specs.Descents.{worker_of, IsSeatOf};
    ghost use Rattle.sg_activate.specs.steps.Descended.{HasReached, HasMadeFor};

    ghost bounds = { λ race. bounds_of_shape race.pass.start.layout };

    ghost IsSeatOf = { λ race seat. IsSeatOf race.pass seat };

    ghost share = { λ seat. (worker_of seat).share };

    ghost weight = { λ seat. handed_share (worker_of seat) };

    ghost IsMet = { λ race at seat. HasReached race.pass.start at (worker_of seat) };

    ghost IsMadeFor = { λ race wanted seat. HasMadeFor race.pass.start wanted (worker_of seat) };

    fn ask(&self, seat: &mut DescentSeat, at: Coord) {
        self.pass.reach_keyed(seat, at);
    }

    fn split(&self, seat: &mut DescentSeat) -> DescentSeat {
        self.pass.split(seat)
    }

    fn join(&self, seat: &mut DescentSeat, other: DescentSeat) {
        self.pass.join(seat, other);
    }
}

/// Opens the pointer and bitmasked nodes, of which there is at least one, for what was found.
pub(crate) fn descend<R: Threads + Sync, G: Gate + Sync>(
    rt: &R,
    alloc: Global,
    store: &mut Store,
    work: &Work<G>,
) -> Result<(), Stop<ActFault>>
    requires fused { 1 ≤ last_fused store.old.shape }
    requires inside { All (Inside (bounds_of_shape store.old.shape)) (found_in work.now.axes work.now.found.now) }
    ensures opened { OnOk result (OpensTo store.old store.new (open_before store.old.shape)
        (last_fused store.old.shape) (found_in work.now.axes work.now.found.now)) }
    ensures keeps { OnOk result (KeepsCells store.old store.new) }
    ensures full { IfActRefused result (IsFirstFull store.old (open_before store.old.shape)
        (found_in work.now.axes work.now.found.now)) }
{
    // for the laws that they ensure
    paths_tell();
    store.layout();
    let (pass, seat) = DescentPass::start(alloc, &*store)?;
    let race = DescentRace { pass };
    let Raced { seat, done } = ask_all(rt, alloc, work, &race, seat);
    done?;
    let DescentRace { pass } = race;
    pass.finish(alloc, seat, store)
}

/// The number of the last pointer or bitmasked node, counted from 1; 0 if there is none.
pub(crate) fn last_fused(store: &Store) -> usize
    ensures { result ≡ last_fused store.now.shape }
{
    last_of(store.layout().shape().nodes.as_slice())
}

/// Whether a node, numbered from 1, is of a kind.
pub(crate) fn has_kind(store: &Store, number: u32, kind: Kind) -> bool
    requires first { 1 ≤ number }
    requires there { number ≤ length store.now.shape.nodes }
    ensures { IsTrue result ↔ (kind_at store.now.shape.nodes number ≡ kind) }
{
    store.layout().shape().nodes.as_slice()[number as usize - 1].kind == kind
}
