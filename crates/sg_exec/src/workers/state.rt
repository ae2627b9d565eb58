ghost use Rattle.std.specs.Prelude.{◌≡◌, ◌++◌, ◌-◌, ◌/◌, ◌≤◌, ◌<◌, IfOk};
ghost use Rattle.sg_exec.specs.steps.Machines.{AreCells};
ghost use Rattle.sg_exec.specs.steps.Landing.{current};
ghost use Rattle.sg_exec.specs.steps.Puts.{kept_writes};
ghost use Rattle.sg_exec.specs.steps.Racing.{AreSeats, HaveShares, AreSplit, AreJoined, IsDivided, IsOfBoth};

use crate::results::own_writes::Puts;
use crate::results::shared::Accumulated;
use sg_accum::AccSeat;
use sg_store::{Store, Stores};
use sg_words::Memory;
use std::alloc::Global;

/// What a worker has: a seat in the pass of each accumulated field, and the own values of its iterations.
#[derive(Drop)]
pub struct Hand {
    pub seats: Vec<AccSeat>,
    pub puts: Puts,
}

/// How many of so many workers a thread that forks keeps for itself and for threads that it starts later: all but one, where half of the
/// share is enough for them, and else half of the share.
pub(crate) fn rest_of(workers: u32, share: u32) -> u32
    requires two { 2 ≤ workers }
    requires few { workers ≤ share }
    ensures some { 1 ≤ result }
    ensures less { result < workers }
    ensures rest { result ≤ share / 2 }
    ensures first { workers - result ≤ share - share / 2 }
{
    (workers - 1).min(share / 2)
}

/// Two hands of which each has half of a share: one with what is there, and one that has nothing yet.
pub(crate) fn divided(
    alloc: Global,
    stores: &Stores,
    reached: &[Option<Store>],
    accumulated: &[Accumulated],
    share: u32,
    hand: Hand,
) -> Result<(Hand, Hand), Memory>
    requires two { 2 ≤ share }
    requires seats { AreSeats accumulated.now hand.seats.items }
    requires shares { HaveShares share hand.seats.items }
    requires cells { AreCells (current reached.now stores.now.list) (kept_writes hand.puts) }
    ensures seats { IfOk result (λ r. AreSeats accumulated.now r.0.seats.items × AreSeats accumulated.now r.1.seats.items) }
    ensures shares { IfOk result (λ r. HaveShares (share - share / 2) r.0.seats.items × HaveShares (share / 2) r.1.seats.items) }
    ensures cells { IfOk result (λ r. AreCells (current reached.now stores.now.list) (kept_writes r.0.puts) × AreCells (current reached.now stores.now.list) (kept_writes r.1.puts)) }
    ensures divided { IfOk result (λ r. IsDivided hand r.0 r.1) }
{
    let (_stores, _reached) = (stores, reached);
    let Hand { mut seats, puts } = hand;
    let others = split_all(alloc, accumulated, &mut seats)?;
    let hand = Hand { seats, puts };
    let other = Hand {
        seats: others,
        puts: Puts::new(alloc),
    };
    Ok((hand, other))
}

/// For each seat another one, with half of its share.
fn split_all(
    alloc: Global,
    accumulated: &[Accumulated],
    seats: &mut Vec<AccSeat>,
) -> Result<Vec<AccSeat>, Memory>
    requires seats { AreSeats accumulated.now seats.old.items }
    requires shares { HaveShares 2 seats.old.items }
    ensures seats { AreSeats accumulated.now seats.new.items }
    ensures others { IfOk result (λ others. AreSeats accumulated.now others.items) }
    ensures split { IfOk result (λ others. AreSplit seats.old.items seats.new.items others.items) }
{
    let mut others = Vec::new(alloc);
    for number in 0..accumulated.len() {
        let seat = &mut seats[number];
        let other = accumulated[number].pass.split(seat);
        others.push(other)?;
    }
    Ok(others)
}

/// What two hands have, the second after the first. The first running out of memory is the answer.
pub(crate) fn both(
    stores: &Stores,
    reached: &[Option<Store>],
    accumulated: &[Accumulated],
    left: Result<Hand, Memory>,
    right: Result<Hand, Memory>,
) -> Result<Hand, Memory>
    requires left { IfOk left (λ hand. AreSeats accumulated.now hand.seats.items × AreCells (current reached.now stores.now.list) (kept_writes hand.puts)) }
    requires right { IfOk right (λ hand. AreSeats accumulated.now hand.seats.items × AreCells (current reached.now stores.now.list) (kept_writes hand.puts)) }
    ensures seats { IfOk result (λ after. AreSeats accumulated.now after.seats.items) }
    ensures cells { IfOk result (λ after. AreCells (current reached.now stores.now.list) (kept_writes after.puts)) }
    ensures joined { IfOk result (IsOfBoth left right) }
{
    let hand = left?;
    let other = right?;
    joined(stores, reached, accumulated, hand, other)
}

/// What two hands that are there have, the second after the first.
fn joined(
    stores: &Stores,
    reached: &[Option<Store>],
    accumulated: &[Accumulated],
    hand: Hand,
    other: Hand,
) -> Result<Hand, Memory>
    requires seats { AreSeats accumulated.now hand.seats.items }
    requires others { AreSeats accumulated.now other.seats.items }
    requires cells { AreCells (current reached.now stores.now.list) (kept_writes hand.puts) × AreCells (current reached.now stores.now.list) (kept_writes other.puts) }
    ensures seats { IfOk result (λ after. AreSeats accumulated.now after.seats.items) }
    ensures cells { IfOk result (λ after. AreCells (current reached.now stores.now.list) (kept_writes after.puts)) }
    ensures joined { IfOk result (λ after. AreJoined hand.seats.items other.seats.items after.seats.items) }
    ensures puts { IfOk result (λ after. (kept_writes after.puts) ≡ (kept_writes hand.puts) ++ (kept_writes other.puts)) }
{
    let (_stores, _reached) = (stores, reached);
    let Hand { mut seats, puts } = hand;
    let Hand {
        seats: mut others,
        puts: later,
    } = other;
    join_all(accumulated, &mut seats, &mut others);
    let puts = puts.with(later)?;
    Ok(Hand { seats, puts })
}

/// Joins each of the others into its seat, the last first.
fn join_all(accumulated: &[Accumulated], seats: &mut Vec<AccSeat>, others: &mut Vec<AccSeat>)
    requires seats { AreSeats accumulated.now seats.old.items }
    requires others { AreSeats accumulated.now others.old.items }
    ensures seats { AreSeats accumulated.now seats.new.items }
    ensures joined { AreJoined seats.old.items others.old.items seats.new.items }
{
    for number in 0..accumulated.len() {
        let last = accumulated.len() - 1 - number;
        let Some(other) = others.pop() else {
            return;
        };
        let seat = &mut seats[last];
        accumulated[last].pass.join(seat, other);
    }
}
