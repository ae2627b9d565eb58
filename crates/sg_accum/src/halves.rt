//! The parts of a pass are begun and ended by fork and join over halves of them.
ghost use Rattle.std.specs.Prelude.{◌≡◌, ◌<◌, ◌≤◌, ◌%◌, ◌++◌, length, IfOk};
ghost use Rattle.std.specs.Thread.{IsSync};
ghost use Rattle.sg_accum.specs.Parts.{part_values, seat_workers};
ghost use Rattle.sg_accum.specs.steps.Teams.{AreBegun, CanEnd, AreEnded};

use crate::part::{Part, PartSeat};
use crate::pass::PART;
use sg_words::{AccOp, Items, Memory, Ty};
use std::alloc::Global;
use std::thread::{Threads, join};

/// Parts, and a seat in each.
#[derive(Drop)]
pub(crate) struct Begun {
    pub(crate) parts: Vec<Part>,
    pub(crate) seats: Vec<PartSeat>,
}

/// Parts with these values, and the first seat of each, made by so many workers. A thread that has forked `waits`: it makes no part
/// itself.
#[cycle(begins)]
pub(crate) fn begin_all<R: Threads + Sync>(
    rt: &R,
    alloc: Global,
    values: &[u32],
    op: AccOp,
    ty: Ty,
    workers: u32,
    waits: bool,
) -> Result<Begun, Memory>
    requires some { 0 < length values.now }
    ensures { IfOk result (λ made. AreBegun op ty values.now made.parts.items made.seats.items) }
{
    if workers < 2 || values.len() <= PART {
        if waits {
            return begun_apart(rt, alloc, values, op, ty);
        }
        return begun_here(alloc, values, op, ty);
    }
    let (first, last) = values.split_at(middle_of(values.len()));
    let half = workers / 2;
    let (front, back) = join(
        rt,
        move || -> Result<Begun, Memory>
            requires { IsSync R.row × (half ≤ workers) × (0 < length first.now) }
            ensures { IfOk result (λ made. AreBegun op ty first.entry.now made.parts.items made.seats.items) }
        { begin_all(rt, alloc, first, op, ty, workers - half, false) },
        move || -> Result<Begun, Memory>
            requires { IsSync R.row × (0 < length last.now) }
            ensures { IfOk result (λ made. AreBegun op ty last.entry.now made.parts.items made.seats.items) }
        { begin_all(rt, alloc, last, op, ty, half, true) },
    );
    both_begun(front?, back?)
}

// Where values of more than one part are cut: after half of the parts.
fn middle_of(values: usize) -> usize
    requires more { 65536 < values }
    ensures whole { result % 65536 ≡ 0 }
    ensures front { 0 < result }
    ensures back { result < values }
{
    let parts = (values - 1) / PART + 1;
    parts / 2 * PART
}

// The same by one worker, in a thread of its own.
fn begun_apart<R: Threads + Sync>(
    rt: &R,
    alloc: Global,
    values: &[u32],
    op: AccOp,
    ty: Ty,
) -> Result<Begun, Memory>
    requires some { 0 < length values.now }
    ensures { IfOk result (λ made. AreBegun op ty values.now made.parts.items made.seats.items) }
{
    let (made, ()) = join(
        rt,
        move || -> Result<Begun, Memory>
            requires { 0 < length values.now }
            ensures { IfOk result (λ made. AreBegun op ty values.entry.now made.parts.items made.seats.items) }
        { begun_here(alloc, values, op, ty) },
        || (),
    );
    made
}

/// The same by one worker, which waits for nobody.
pub(crate) fn begun_here(alloc: Global, values: &[u32], op: AccOp, ty: Ty) -> Result<Begun, Memory>
    requires some { 0 < length values.now }
    ensures { IfOk result (λ made. AreBegun op ty values.now made.parts.items made.seats.items) }
{
    let mut words = Vec::with_capacity(alloc, values.len().min(PART))?;
    begun_through(alloc, values, op, ty, &mut words)
}

// The same, where the words of one part after the other are made in one list.
fn begun_through(
    alloc: Global,
    values: &[u32],
    op: AccOp,
    ty: Ty,
    words: &mut Vec<u64>,
) -> Result<Begun, Memory>
    requires some { 0 < length values.now }
    ensures { IfOk result (λ made. AreBegun op ty values.now made.parts.items made.seats.items) }
{
    if values.len() <= PART {
        return one_begun(alloc, values, op, ty, words);
    }
    let (first, last) = values.split_at(middle_of(values.len()));
    let front = begun_through(alloc, first, op, ty, words)?;
    let back = begun_through(alloc, last, op, ty, words)?;
    both_begun(front, back)
}

// One part with these values, of which it has place for all.
fn one_begun(
    alloc: Global,
    values: &[u32],
    op: AccOp,
    ty: Ty,
    words: &mut Vec<u64>,
) -> Result<Begun, Memory>
    requires some { 0 < length values.now }
    requires few { length values.now ≤ 65536 }
    ensures { IfOk result (λ made. AreBegun op ty values.now made.parts.items made.seats.items) }
{
    let mut parts = Vec::with_capacity(alloc, 1)?;
    let mut seats = Vec::with_capacity(alloc, 1)?;
    let (part, seat) = Part::begin(alloc, values, op, ty, words)?;
    parts.push_reserved(part);
    seats.push_reserved(seat);
    Ok(Begun { parts, seats })
}

fn both_begun(mut front: Begun, mut back: Begun) -> Result<Begun, Memory>
    ensures parts { IfOk result (λ both. both.parts.items ≡ front.parts.items ++ back.parts.items) }
    ensures seats { IfOk result (λ both. both.seats.items ≡ front.seats.items ++ back.seats.items) }
{
    front.parts.append(&mut back.parts)?;
    front.seats.append(&mut back.seats)?;
    Ok(front)
}

/// The cells of parts at their end, by so many workers, each with the seat into which all others of the part were joined. A thread
/// that has forked `waits`: it ends no part itself.
#[cycle(ends)]
pub(crate) fn end_all<R: Threads + Sync>(
    rt: &R,
    alloc: Global,
    op: AccOp,
    ty: Ty,
    mut parts: Vec<Part>,
    mut seats: Vec<PartSeat>,
    workers: u32,
    waits: bool,
) -> Result<Vec<Items<u32>>, Memory>
    requires { CanEnd op ty parts.items seats.items }
    ensures { IfOk result (λ done. AreEnded op ty (part_values parts.items) (seat_workers seats.items) done.items) }
{
    if workers < 2 || parts.len() < 2 {
        if waits {
            return ended_apart(rt, alloc, op, ty, parts, seats);
        }
        return ended_here(alloc, op, ty, parts, seats);
    }
    let middle = parts.len() / 2;
    let last_parts = parts.split_off(middle)?;
    let last_seats = seats.split_off(middle)?;
    let half = workers / 2;
    let (front, back) = join(
        rt,
        move || -> Result<Vec<Items<u32>>, Memory>
            requires { IsSync R.row × (half ≤ workers) × CanEnd op ty parts.items seats.items }
            ensures { IfOk result (λ done. AreEnded op ty (part_values parts.items) (seat_workers seats.items) done.items) }
        { end_all(rt, alloc, op, ty, parts, seats, workers - half, false) },
        move || -> Result<Vec<Items<u32>>, Memory>
            requires { IsSync R.row × CanEnd op ty last_parts.items last_seats.items }
            ensures { IfOk result (λ done. AreEnded op ty (part_values last_parts.items) (seat_workers last_seats.items) done.items) }
        { end_all(rt, alloc, op, ty, last_parts, last_seats, half, true) },
    );
    both_ended(front?, back?)
}

// The same by one worker, in a thread of its own.
fn ended_apart<R: Threads + Sync>(
    rt: &R,
    alloc: Global,
    op: AccOp,
    ty: Ty,
    parts: Vec<Part>,
    seats: Vec<PartSeat>,
) -> Result<Vec<Items<u32>>, Memory>
    requires { CanEnd op ty parts.items seats.items }
    ensures { IfOk result (λ done. AreEnded op ty (part_values parts.items) (seat_workers seats.items) done.items) }
{
    let (done, ()) = join(
        rt,
        move || -> Result<Vec<Items<u32>>, Memory>
            requires { CanEnd op ty parts.items seats.items }
            ensures { IfOk result (λ done. AreEnded op ty (part_values parts.items) (seat_workers seats.items) done.items) }
        { ended_here(alloc, op, ty, parts, seats) },
        || (),
    );
    done
}

/// The same by one worker, which waits for nobody.
pub(crate) fn ended_here(
    alloc: Global,
    op: AccOp,
    ty: Ty,
    mut parts: Vec<Part>,
    mut seats: Vec<PartSeat>,
) -> Result<Vec<Items<u32>>, Memory>
    requires { CanEnd op ty parts.items seats.items }
    ensures { IfOk result (λ done. AreEnded op ty (part_values parts.items) (seat_workers seats.items) done.items) }
{
    if parts.len() < 2 {
        return one_ended(alloc, op, ty, parts, seats);
    }
    let middle = parts.len() / 2;
    let last_parts = parts.split_off(middle)?;
    let last_seats = seats.split_off(middle)?;
    let front = ended_here(alloc, op, ty, parts, seats)?;
    let back = ended_here(alloc, op, ty, last_parts, last_seats)?;
    both_ended(front, back)
}

// One part at its end.
fn one_ended(
    alloc: Global,
    op: AccOp,
    ty: Ty,
    mut parts: Vec<Part>,
    mut seats: Vec<PartSeat>,
) -> Result<Vec<Items<u32>>, Memory>
    requires few { length parts.items < 2 }
    requires can { CanEnd op ty parts.items seats.items }
    ensures { IfOk result (λ done. AreEnded op ty (part_values parts.items) (seat_workers seats.items) done.items) }
{
    let mut done = Vec::with_capacity(alloc, 1)?;
    let part = parts.take_last();
    let seat = seats.take_last();
    done.push_reserved(part.end(seat));
    Ok(done)
}

fn both_ended(
    mut front: Vec<Items<u32>>,
    mut back: Vec<Items<u32>>,
) -> Result<Vec<Items<u32>>, Memory>
    ensures { IfOk result (λ both. both.items ≡ front.items ++ back.items) }
{
    front.append(&mut back)?;
    Ok(front)
}
