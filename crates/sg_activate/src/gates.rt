ghost use Rattle.std.specs.Prelude.{◌≡◌, ◌+◌, ◌-◌, ◌<◌, ◌≤◌};
ghost use Rattle.std.specs.Thread.{IsSync};

use sg_coord::slice_of;
use sg_outside::{Gate, Phase};
use std::thread::{Threads, join};

/// With less to do than so many instructions a worker isn't worth its thread.
const ENOUGH: usize = 131_072;

/// How many of so many workers have enough to do where all has about so many instructions; one at least.
pub fn workers_for(effort: usize, workers: u32) -> u32
    requires some { 1 ≤ workers }
    ensures some { 1 ≤ result }
    ensures few { result ≤ workers }
{
    let busy = u32::try_from(effort / ENOUGH).unwrap_or(workers);
    if busy < 1 {
        return 1;
    }
    if busy < workers { busy } else { workers }
}

/// The same, where they pass the gate: all of them if it may hold one, since it may be for another.
pub fn workers_at<G: Gate>(gate: &G, effort: usize, workers: u32) -> u32
    requires some { 1 ≤ workers }
    ensures some { 1 ≤ result }
    ensures few { result ≤ workers }
{
    if gate.may_hold() {
        return workers;
    }
    workers_for(effort, workers)
}

/// So many workers pass the gate before each of so many pieces, each before those of its slice in order, as in an
/// activation in which nothing is new. Where it can't hold anyone they needn't. It waits for its workers.
pub fn pass_gate<R: Threads + Sync, G: Gate + Sync>(rt: &R, pieces: u32, workers: u32, gate: &G)
    requires some { 1 ≤ workers }
    requires few { workers ≤ 16 }
{
    if gate.may_hold() {
        pass_slices(rt, pieces, workers, gate, 0, workers);
    }
}

/// Workers from one number on pass the gate before each piece of their slices; halves of them in threads, if both have
/// pieces.
fn pass_slices<R: Threads + Sync, G: Gate + Sync>(
    rt: &R,
    pieces: u32,
    workers: u32,
    gate: &G,
    from: u32,
    count: u32,
)
    requires few { workers ≤ 16 }
    requires some { 1 ≤ count }
    requires within { from + count ≤ workers }
{
    if count < 2 {
        pass_slice(pieces, workers, gate, from);
        return;
    }
    let half = count / 2;
    if pieces <= from + (count - half) {
        pass_slices(rt, pieces, workers, gate, from, count - half);
        return;
    }
    join(
        rt,
        move || -> ()
            requires { IsSync R.row × IsSync G.row × (workers ≤ 16) × (1 ≤ count - half) × (half ≤ count) ×
                (from + count ≤ workers) }
        { pass_slices(rt, pieces, workers, gate, from, count - half) },
        move || -> ()
            requires { IsSync R.row × IsSync G.row × (workers ≤ 16) × (1 ≤ half) × (half ≤ count) ×
                (from + count ≤ workers) }
        { pass_slices(rt, pieces, workers, gate, from + (count - half), half) },
    );
}

/// One worker passes the gate before each piece of its slice.
fn pass_slice<G: Gate>(pieces: u32, workers: u32, gate: &G, worker: u32)
    requires few { workers ≤ 16 }
    requires within { worker < workers }
{
    let (from, to) = slice_of(pieces as usize, workers, worker);
    for turn in 0..to - from {
        gate.before(Phase::Activate, worker, turn as u32);
    }
}
