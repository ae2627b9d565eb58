ghost use Rattle.std.specs.Prelude.{◌≡◌, ℕ, ◌+◌, ◌-◌, ◌<◌, ◌≤◌, All, List, length, OnOk};
ghost use Rattle.sg_coord.specs.declared.coord.Coord.{Coord};
ghost use Rattle.sg_coord.specs.Coord.{Inside};
ghost use Rattle.sg_layout.specs.Axes.{bounds_of_shape};
ghost use Rattle.sg_layout.specs.declared.shape.Kind.TheVariants.{Dynamic};
ghost use Rattle.sg_layout.specs.Live.{kind_at};
ghost use Rattle.sg_dynamic.specs.Raising.{old_lengths};
ghost use Rattle.sg_store.specs.Reaching.{KeepsCells};
ghost use Rattle.sg_store.specs.Opening.{lengths_of, OpensNode};
ghost use Rattle.sg_activate.specs.steps.Finding.{found_in};
ghost use Rattle.sg_activate.specs.steps.Levels.{IfActRefused, IsFirstFull};

use crate::asking::{Work, ask_all};
use crate::caps::cap_at;
use crate::fault::ActFault;
use crate::pass::Pass;
use crate::race::Raced;
use sg_coord::Coord;
use sg_dynamic::{LengthPass, RaiseSeat};
use sg_outside::Gate;
use sg_store::{Store, levels};
use sg_words::{Memory, Stop};
use std::alloc::Global;
use std::thread::Threads;

/// A race for the lengths of a dynamic node.
#[derive(Drop)]
pub(crate) struct LengthRace<'a> {
    store: &'a Store,
    node: u32,
    pass: LengthPass,
    ghost first: { 1 ≤ node },
    ghost dynamic: { kind_at store.now.shape.nodes node ≡ Dynamic },
    ghost within: { node ≤ length store.now.shape.nodes },
    ghost words: { length (old_lengths pass) ≡ length (lengths_of store.now node) },
}

impl<'a> Pass for LengthRace<'a> {
    type Seat = RaiseSeat;

    ghost use Rattle.sg_dynamic.specs.Raising.{worker_of, IsSeatOf};
    ghost use Rattle.sg_words.specs.RaceInvariant.{handed_share};
    ghost use Rattle.sg_activate.specs.steps.Lengths.{HasRaised, HasRaisedFor, AreShortInLive};

    ghost bounds = { λ race. bounds_of_shape race.store.now.shape };

    ghost IsSeatOf = { λ race seat. IsSeatOf race.pass seat ×
        AreShortInLive race.store.now race.node (worker_of seat) };

    ghost share = { λ seat. (worker_of seat).share };

    ghost weight = { λ seat. handed_share (worker_of seat) };

    ghost IsMet = { λ race at seat. HasRaised race.store.now race.node at (worker_of seat) };

    ghost IsMadeFor = { λ race wanted seat. HasRaisedFor race.store.now race.node wanted (worker_of seat) };

    fn ask(&self, seat: &mut RaiseSeat, at: Coord) {
        if let Some(parent) = self.store.place_in(self.node, at) {
            let index = self.store.layout().offset(self.node as usize - 1, at);
            self.pass.raise(seat, parent, index);
        }
    }

    fn split(&self, seat: &mut RaiseSeat) -> RaiseSeat {
        self.pass.split(seat)
    }

    fn join(&self, seat: &mut RaiseSeat, other: RaiseSeat) {
        self.pass.join(seat, other);
    }
}

/// Opens a dynamic node, numbered from 1, for what is wanted. It is the last.
pub(crate) fn open_lengths<R: Threads + Sync, G: Gate + Sync>(
    rt: &R,
    alloc: Global,
    store: &mut Store,
    node: u32,
    work: &Work<G>,
) -> Result<(), Stop<ActFault>>
    requires first { 1 ≤ node }
    requires dynamic { kind_at store.old.shape.nodes node ≡ Dynamic }
    requires last { length store.old.shape.nodes ≡ node }
    requires inside { All (Inside (bounds_of_shape store.old.shape)) (found_in work.now.axes work.now.found.now) }
    ensures opened { OnOk result (OpensNode store.old store.new node (found_in work.now.axes work.now.found.now)) }
    ensures keeps { OnOk result (KeepsCells store.old store.new) }
    ensures full { IfActRefused result (IsFirstFull store.old (node - 1) (found_in work.now.axes work.now.found.now)) }
{
    // for the laws that they ensure
    levels::opening_by_nodes();
    store.layout();
    let cap = cap_at(store, node);
    let lengths = store.length_words(alloc)?;
    let (pass, seat) = LengthPass::start(alloc, lengths)?;
    let raced = LengthRace {
        store: &*store,
        node,
        pass,
    };
    let Raced { seat, done } = ask_all(rt, alloc, work, &raced, seat);
    let LengthRace {
        store: _,
        node: _,
        pass,
    } = raced;
    let raised = pass.finish(seat)?;
    done?;
    match store.settle_lengths(raised.as_slice()) {
        Ok(()) => Ok(()),
        Err(_full) => Err(Stop::Refused(ActFault::PoolFull { node, cap })),
    }
}
