ghost use Rattle.std.specs.Prelude.{◌≡◌, ℕ, ◌+◌, ◌-◌, ◌^◌, ◌<◌, ◌≤◌, All, List, length, OnOk, slice_index};
ghost use Rattle.sg_coord.specs.declared.coord.Coord.{Coord};
ghost use Rattle.sg_coord.specs.Coord.{Inside};
ghost use Rattle.sg_layout.specs.Axes.{bounds_of_shape};
ghost use Rattle.sg_layout.specs.declared.shape.Kind.TheVariants.{Hash};
ghost use Rattle.sg_layout.specs.Live.{kind_at};
ghost use Rattle.sg_store.specs.Reaching.{KeepsCells};
ghost use Rattle.sg_store.specs.Opening.{OpensNode};
ghost use Rattle.sg_activate.specs.steps.Finding.{found_in};
ghost use Rattle.sg_activate.specs.steps.Levels.{IfActRefused, IsFirstFull};

use crate::asking::{Work, ask_all};
use crate::caps::{SPARES, cap_at};
use crate::fault::ActFault;
use crate::pass::Pass;
use crate::race::Raced;
use sg_coord::Coord;
use sg_hash::{HashPass, HashSeat};
use sg_outside::Gate;
use sg_store::{Store, levels};
use sg_words::{Memory, Stop};
use std::alloc::Global;
use std::thread::Threads;

/// A race for the keys of a hash node, which is the first, and the links beside them.
#[derive(Drop)]
pub(crate) struct KeyRace<'a> {
    store: &'a Store,
    pass: HashPass,
    ghost hash: { kind_at store.now.shape.nodes 1 ≡ Hash },
}

impl<'a> Pass for KeyRace<'a> {
    type Seat = HashSeat;

    ghost use Rattle.sg_hash.specs.Seats.{worker_of, is_full, IsSeatOf};
    ghost use Rattle.sg_words.specs.RaceInvariant.{handed_share};
    ghost use Rattle.sg_activate.specs.steps.Keys.{HasFound, HasPutFor, AreKeyed};

    ghost bounds = { λ race. bounds_of_shape race.store.now.shape };

    ghost IsSeatOf = { λ race seat. IsSeatOf race.pass seat × AreKeyed race.store.now (worker_of seat) (is_full seat) };

    ghost share = { λ seat. (worker_of seat).share };

    ghost weight = { λ seat. handed_share (worker_of seat) };

    ghost IsMet = { λ race at seat. HasFound race.store.now at (worker_of seat) (is_full seat) };

    ghost IsMadeFor = { λ race wanted seat. HasPutFor race.store.now wanted (worker_of seat) };

    fn ask(&self, seat: &mut HashSeat, at: Coord) {
        if let Some(key) = self.store.place_in(1, at) {
            self.pass.ask(seat, key as u32);
        }
    }

    fn split(&self, seat: &mut HashSeat) -> HashSeat {
        self.pass.split(seat)
    }

    fn join(&self, seat: &mut HashSeat, other: HashSeat) {
        self.pass.join(seat, other);
    }
}

/// Opens a hash node, which is the first, for what is wanted.
pub(crate) fn open_keys<R: Threads + Sync, G: Gate + Sync>(
    rt: &R,
    alloc: Global,
    store: &mut Store,
    work: &Work<G>,
) -> Result<(), Stop<ActFault>>
    requires hash { kind_at store.old.shape.nodes 1 ≡ Hash }
    requires inside { All (Inside (bounds_of_shape store.old.shape)) (found_in work.now.axes work.now.found.now) }
    ensures opened { OnOk result (OpensNode store.old store.new 1 (found_in work.now.axes work.now.found.now)) }
    ensures keeps { OnOk result (KeepsCells store.old store.new) }
    ensures full { IfActRefused result (IsFirstFull store.old 0 (found_in work.now.axes work.now.found.now)) }
{
    // for the laws that they ensure
    levels::opening_by_nodes();
    store.layout();
    let cap = cap_at(store, 1);
    let keys = store.key_words(alloc)?;
    let links = store.slot_words(alloc, 1)?;
    let stock = store.stock(alloc, 1)?;
    let numbers = stock.len();
    // for the fact that it ensures
    are_numbers(stock.as_slice());
    let (pass, seat) = HashPass::start(alloc, keys, links, stock)?;
    let raced = KeyRace {
        store: &*store,
        pass,
    };
    let Raced { seat, done } = ask_all(rt, alloc, work, &raced, seat);
    let KeyRace { store: _, pass } = raced;
    let linked = pass.finish(alloc, seat)?;
    done?;
    if linked.dry || linked.taken.len() + SPARES > numbers {
        return Err(Stop::Refused(ActFault::PoolFull { node: 1, cap }));
    }
    store.settle_hash(
        linked.keys.as_slice(),
        linked.links.as_slice(),
        linked.taken.as_slice(),
    );
    Ok(())
}

// Numbers of 32 bits are below 2^32.
fn are_numbers(stock: &[u32])
    ensures { (t : ℕ) → slice_index stock.now t < 2 ^ 32 }
{
    let _count = stock.len();
}
