ghost use Rattle.std.specs.Prelude.{◌≡◌, ℕ, ◌+◌, ◌-◌, ◌*◌, ◌/◌, ◌<◌, ◌≤◌, OnOk};
ghost use Rattle.std.specs.Thread.{IsSync, IsSend};
ghost use Rattle.sg_activate.specs.steps.Racing.{HaveDone};

use sg_words::Memory;
use std::alloc::Global;
use std::thread::{Threads, join};

/// What workers do side by side, each its own part and through a seat of its own. `HasDone` tells that a seat has done
/// the part of a worker, by its number from 0.
pub(crate) trait Race {
    type Seat: Drop + Send;

    ghost count: { Self → ℕ };

    ghost IsSeatOf: { Self → Self.Seat → Type 0 };

    ghost share: { Self.Seat → ℕ };

    ghost weight: { Self.Seat → ℕ };

    ghost HasDone: { Self → ℕ → Self.Seat → Type 0 };

    /// How many workers there are.
    fn workers(&self) -> u32
        ensures { result ≡ count self.now };

    /// How many pieces of work they share.
    fn pieces(&self) -> u32;

    /// Does the part of one worker. Where memory runs out, not all of it may be done.
    fn part(&self, alloc: Global, seat: Self::Seat, worker: u32) -> Raced<Self::Seat>
        requires own { IsSeatOf self.now seat }
        requires within { worker < count self.now }
        ensures own { IsSeatOf self.now result.seat }
        ensures weight { weight result.seat ≡ weight seat }
        ensures done { OnOk result.done (HasDone self.now worker result.seat) };

    /// A new seat with half of the share, rounded down.
    fn split(&self, seat: &mut Self::Seat) -> Self::Seat
        requires own { IsSeatOf self.now seat.old }
        requires share { 2 ≤ share seat.old }
        ensures own { IsSeatOf self.now seat.new }
        ensures other { IsSeatOf self.now result }
        ensures share { share seat.new ≡ share seat.old - share seat.old / 2 }
        ensures other_share { share result ≡ share seat.old / 2 }
        ensures weight { weight seat.new + weight result ≡ weight seat.old };

    /// Joins another seat into this one.
    fn join(&self, seat: &mut Self::Seat, other: Self::Seat) -> Result<(), Memory>
        requires own { IsSeatOf self.now seat.old }
        requires other { IsSeatOf self.now other }
        ensures own { IsSeatOf self.now seat.new }
        ensures weight { weight seat.new ≡ weight seat.old + weight other }
        ensures stays { OnOk result ((worker : ℕ) → HasDone self.now worker seat.old →
            HasDone self.now worker seat.new) }
        ensures others { OnOk result ((worker : ℕ) → HasDone self.now worker other →
            HasDone self.now worker seat.new) };
}

/// A seat that comes back from a race, and whether memory ran out.
#[derive(Drop)]
pub(crate) struct Raced<S> {
    pub(crate) seat: S,
    pub(crate) done: Result<(), Memory>,
}

/// The share of a race's first seat.
pub(crate) const SHARE: u32 = 16;

/// With fewer pieces than these for each worker one more thread takes longer than a wait for the thread that has
/// forked.
const MANY_PIECES: u32 = 32;

/// All workers do their parts.
pub(crate) fn race_all<R: Threads + Sync, P: Race + Sync>(
    rt: &R,
    alloc: Global,
    on: &P,
    seat: P::Seat,
) -> Raced<P::Seat>
    requires some { 1 ≤ P.count on.now }
    requires few { P.count on.now ≤ 16 }
    requires own { P.IsSeatOf on.now seat }
    requires share { 16 ≤ P.share seat }
    ensures own { P.IsSeatOf on.now result.seat }
    ensures weight { P.weight result.seat ≡ P.weight seat }
    ensures done { OnOk result.done (HaveDone (P.HasDone on.now) 0 (P.count on.now) result.seat) }
{
    let team = Team {
        from: 0,
        count: on.workers(),
        share: SHARE,
        waits: false,
    };
    race_from(rt, alloc, on, seat, team)
}

/// Some workers, from one number on, and the share that they are given of a seat. With many pieces a thread that has
/// forked `waits`: it does nothing itself.
#[derive(Clone, Copy)]
struct Team {
    from: u32,
    count: u32,
    share: u32,
    waits: bool,
}

/// The workers of a team do their parts: some in a thread of their own and then the rest.
fn race_from<R: Threads + Sync, P: Race + Sync>(
    rt: &R,
    alloc: Global,
    on: &P,
    mut seat: P::Seat,
    team: Team,
) -> Raced<P::Seat>
    requires own { P.IsSeatOf on.now seat }
    requires some { 1 ≤ team.count }
    requires within { team.from + team.count ≤ P.count on.now }
    requires all { P.count on.now ≤ 16 }
    requires few { team.count ≤ team.share }
    requires share { team.share ≤ P.share seat }
    ensures own { P.IsSeatOf on.now result.seat }
    ensures weight { P.weight result.seat ≡ P.weight seat }
    ensures done { OnOk result.done (HaveDone (P.HasDone on.now) team.from (team.from + team.count) result.seat) }
{
    if team.count < 2 {
        if team.waits {
            return part_apart(rt, alloc, on, seat, team.from);
        }
        return on.part(alloc, seat, team.from);
    }
    let rest = rest_of(team.count, team.share);
    let first = Team {
        from: team.from,
        count: team.count - rest,
        share: team.share - team.share / 2,
        waits: false,
    };
    let second = Team {
        from: team.from + (team.count - rest),
        count: rest,
        share: team.share / 2,
        waits: on.pieces() >= MANY_PIECES.saturating_mul(on.workers()),
    };
    let other = on.split(&mut seat);
    let (mine, theirs) = join(
        rt,
        move || -> Raced<P::Seat>
            requires { IsSync R.row × IsSync P.row × IsSend P.Seat.row × P.IsSeatOf on.now seat × (1 ≤ first.count) ×
                (first.from + first.count ≤ P.count on.now) × (P.count on.now ≤ 16) × (first.count ≤ first.share) ×
                (first.share ≤ P.share seat) }
            ensures { P.IsSeatOf on.entry.now result.seat × (P.weight result.seat ≡ P.weight seat) ×
                OnOk result.done (HaveDone (P.HasDone on.entry.now) first.from (first.from + first.count) result.seat) }
        { race_from(rt, alloc, on, seat, first) },
        move || -> Raced<P::Seat>
            requires { IsSync R.row × IsSync P.row × IsSend P.Seat.row × P.IsSeatOf on.now other ×
                (1 ≤ second.count) × (second.from + second.count ≤ P.count on.now) × (P.count on.now ≤ 16) ×
                (second.count ≤ second.share) × (second.share ≤ P.share other) }
            ensures { P.IsSeatOf on.entry.now result.seat × (P.weight result.seat ≡ P.weight other) ×
                OnOk result.done (HaveDone (P.HasDone on.entry.now) second.from
                (second.from + second.count) result.seat) }
        { race_from(rt, alloc, on, other, second) },
    );
    joined(on, mine, theirs)
}

/// How many of so many workers a thread that forks keeps for itself and for threads that it starts later: all but one,
/// where half of the share is enough for them, and else half of the share.
fn rest_of(count: u32, share: u32) -> u32
    requires two { 2 ≤ count }
    requires few { count ≤ share }
    ensures some { 1 ≤ result }
    ensures less { result < count }
    ensures rest { result ≤ share / 2 }
    ensures first { count - result ≤ share - share / 2 }
{
    (count - 1).min(share / 2)
}

/// The seats of two halves joined. Running out of memory of either is that of both.
fn joined<P: Race>(on: &P, mine: Raced<P::Seat>, theirs: Raced<P::Seat>) -> Raced<P::Seat>
    requires own { P.IsSeatOf on.now mine.seat }
    requires other { P.IsSeatOf on.now theirs.seat }
    ensures own { P.IsSeatOf on.now result.seat }
    ensures weight { P.weight result.seat ≡ P.weight mine.seat + P.weight theirs.seat }
    ensures stays { OnOk result.done ((worker : ℕ) → P.HasDone on.now worker mine.seat →
        P.HasDone on.now worker result.seat) }
    ensures others { OnOk result.done ((worker : ℕ) → P.HasDone on.now worker theirs.seat →
        P.HasDone on.now worker result.seat) }
    ensures mine { OnOk result.done (mine.done ≡ result.done) }
    ensures theirs { OnOk result.done (theirs.done ≡ result.done) }
{
    let Raced { mut seat, done } = mine;
    let Raced {
        seat: other,
        done: others,
    } = theirs;
    let join = on.join(&mut seat, other);
    Raced {
        seat,
        done: done.and(others).and(join),
    }
}

/// The part of one worker, in a thread of its own.
fn part_apart<R: Threads + Sync, P: Race + Sync>(
    rt: &R,
    alloc: Global,
    on: &P,
    seat: P::Seat,
    worker: u32,
) -> Raced<P::Seat>
    requires own { P.IsSeatOf on.now seat }
    requires within { worker < P.count on.now }
    ensures own { P.IsSeatOf on.now result.seat }
    ensures weight { P.weight result.seat ≡ P.weight seat }
    ensures done { OnOk result.done (P.HasDone on.now worker result.seat) }
{
    let (raced, ()) = join(
        rt,
        move || -> Raced<P::Seat>
            requires { IsSync P.row × IsSend P.Seat.row × P.IsSeatOf on.now seat × (worker < P.count on.now) }
            ensures { P.IsSeatOf on.entry.now result.seat × (P.weight result.seat ≡ P.weight seat) ×
                OnOk result.done (P.HasDone on.entry.now worker result.seat) }
        { on.part(alloc, seat, worker) },
        || (),
    );
    raced
}
