//! A pass over what a look has found: each worker asks for what it found itself, and passes the gate before each of its pieces.
ghost use Rattle.std.specs.Prelude.{◌≡◌, ℕ, ◌<◌, ◌≤◌, List, All, Contains, OnOk};
ghost use Rattle.sg_coord.specs.declared.coord.Coord.{Coord};
ghost use Rattle.sg_coord.specs.Coord.{Inside};
ghost use Rattle.sg_activate.specs.steps.Finding.{coords_found, found_in};

use crate::found::{Finds, Found, coord_found};
use crate::pass::Pass;
use crate::race::{Race, Raced, race_all};
use sg_coord::slice_of;
use sg_outside::{Gate, Phase};
use sg_words::Memory;
use std::alloc::Global;
use std::thread::Threads;

/// What workers share in a pass: what was found, with how many axes, how many pieces want it, how many workers they
/// are, and the gate, which they pass if it is said so.
pub(crate) struct Work<'a, G> {
    pub(crate) found: &'a [Finds],
    pub(crate) axes: u32,
    pub(crate) pieces: u32,
    pub(crate) workers: u32,
    pub(crate) gate: &'a G,
    pub(crate) gated: bool,
    ghost some: { 1 ≤ workers },
    ghost few: { workers ≤ 16 },
    ghost of_workers: { All (λ finds. finds.worker < workers) found.now },
}

impl<'a, G> Drop for Work<'a, G> {
    fn drop(self) {
        let Self {
            found: _,
            axes: _,
            pieces: _,
            workers: _,
            gate: _,
            gated: _,
        } = self;
    }
}

/// A pass of theirs.
#[derive(Drop)]
struct Asking<'a, G, P: Pass> {
    work: &'a Work<'a, G>,
    pass: &'a P,
    ghost inside: { All (Inside (P.bounds pass.now)) (found_in work.now.axes work.now.found.now) },
}

impl<'a, G: Gate, P: Pass> Race for Asking<'a, G, P>
where
    P::Seat: Send,
{
    type Seat = P::Seat;

    ghost use Rattle.sg_activate.specs.steps.Finding.{found_in};
    ghost use Rattle.sg_activate.specs.steps.Asked.{HasMetOf};

    ghost count = { λ asking. asking.work.now.workers };

    ghost IsSeatOf = { λ asking seat. P.IsSeatOf asking.pass.now seat ×
        P.IsMadeFor asking.pass.now (found_in asking.work.now.axes asking.work.now.found.now) seat };

    ghost share = { P.share };

    ghost weight = { P.weight };

    ghost HasDone = { λ asking worker seat. HasMetOf
        (P.IsMet asking.pass.now) asking.work.now.axes asking.work.now.found.now worker seat };

    fn workers(&self) -> u32 {
        self.work.workers
    }

    fn pieces(&self) -> u32 {
        self.work.pieces
    }

    fn part(&self, _alloc: Global, seat: P::Seat, worker: u32) -> Raced<P::Seat> {
        let mut seat = seat;
        let (from, to) = slice_of(self.work.pieces as usize, self.work.workers, worker);
        let mut turns = Turns {
            worker,
            from: from as u32,
            count: (to - from) as u32,
            passed: 0,
        };
        for finds in self.work.found {
            ask_own(self.work, self.pass, &mut seat, finds, worker, &mut turns);
        }
        if self.work.gated {
            pass_up_to(self.work.gate, &mut turns, u32::MAX);
        }
        Raced { seat, done: Ok(()) }
    }

    fn split(&self, seat: &mut P::Seat) -> P::Seat {
        self.pass.split(seat)
    }

    fn join(&self, seat: &mut P::Seat, other: P::Seat) -> Result<(), Memory> {
        self.pass.join(seat, other);
        Ok(())
    }
}

/// How far a worker has come at the gate: its number, the first piece of its slice, how many it has, and before how
/// many it has passed.
#[derive(Drop)]
struct Turns {
    worker: u32,
    from: u32,
    count: u32,
    passed: u32,
}

/// Passes the gate before each piece of the slice that comes up to this one, unless it has been passed before it.
fn pass_up_to<G: Gate>(gate: &G, turns: &mut Turns, piece: u32) {
    let end = piece
        .saturating_sub(turns.from)
        .saturating_add(1)
        .min(turns.count);
    for turn in turns.passed..end {
        gate.before(Phase::Activate, turns.worker, turn);
    }
    turns.passed = turns.passed.max(end);
}

/// Asks for what was found, if this worker found it.
fn ask_own<G: Gate, P: Pass>(
    work: &Work<G>,
    pass: &P,
    seat: &mut P::Seat,
    finds: &Finds,
    worker: u32,
    turns: &mut Turns,
)
    requires own { P.IsSeatOf pass.now seat.old }
    requires inside { (at : Coord) → Contains (coords_found work.now.axes finds.now.list) at →
        Inside (P.bounds pass.now) at }
    ensures own { P.IsSeatOf pass.now seat.new }
    ensures weight { P.weight seat.new ≡ P.weight seat.old }
    ensures stays { (at : Coord) → P.IsMet pass.now at seat.old → P.IsMet pass.now at seat.new }
    ensures made { (wanted : List Coord) → ((at : Coord) → Contains (coords_found work.now.axes finds.now.list) at →
        Contains wanted at) →
        P.IsMadeFor pass.now wanted seat.old → P.IsMadeFor pass.now wanted seat.new }
    ensures met { finds.now.worker ≡ worker → (at : Coord) →
        Contains (coords_found work.now.axes finds.now.list) at → P.IsMet pass.now at seat.new }
{
    if finds.worker == worker {
        ask_each(work, pass, seat, finds.list.as_slice(), turns);
    }
}

/// Asks for what was found, one after the other, each after the gate was passed before its piece.
fn ask_each<G: Gate, P: Pass>(
    work: &Work<G>,
    pass: &P,
    seat: &mut P::Seat,
    list: &[Found],
    turns: &mut Turns,
)
    requires own { P.IsSeatOf pass.now seat.old }
    requires inside { (at : Coord) → Contains (coords_found work.now.axes list.now) at → Inside (P.bounds pass.now) at }
    ensures own { P.IsSeatOf pass.now seat.new }
    ensures weight { P.weight seat.new ≡ P.weight seat.old }
    ensures stays { (at : Coord) → P.IsMet pass.now at seat.old → P.IsMet pass.now at seat.new }
    ensures made { (wanted : List Coord) → ((at : Coord) → Contains (coords_found work.now.axes list.now) at →
        Contains wanted at) →
        P.IsMadeFor pass.now wanted seat.old → P.IsMadeFor pass.now wanted seat.new }
    ensures met { (at : Coord) → Contains (coords_found work.now.axes list.now) at → P.IsMet pass.now at seat.new }
{
    for found in list {
        if work.gated {
            pass_up_to(work.gate, turns, found.piece);
        }
        pass.ask(seat, coord_found(work.axes, *found));
    }
}

/// All workers ask for what they found.
pub(crate) fn ask_all<R: Threads + Sync, G: Gate + Sync, P: Pass + Sync>(
    rt: &R,
    alloc: Global,
    work: &Work<G>,
    pass: &P,
    seat: P::Seat,
) -> Raced<P::Seat>
where
    P::Seat: Send,
    requires own { P.IsSeatOf pass.now seat }
    requires share { 16 ≤ P.share seat }
    requires inside { All (Inside (P.bounds pass.now)) (found_in work.now.axes work.now.found.now) }
    requires made { P.IsMadeFor pass.now (found_in work.now.axes work.now.found.now) seat }
    ensures own { P.IsSeatOf pass.now result.seat }
    ensures weight { P.weight result.seat ≡ P.weight seat }
    ensures made { P.IsMadeFor pass.now (found_in work.now.axes work.now.found.now) result.seat }
    ensures met { OnOk result.done ((at : Coord) → Contains (found_in work.now.axes work.now.found.now) at →
        P.IsMet pass.now at result.seat) }
{
    let asking = Asking { work, pass };
    race_all(rt, alloc, &asking, seat)
}
