//! Workers that race for what is wanted, past a gate that counts.

ghost use Rattle.std.specs.Prelude.{◌≡◌, ◌<◌, ◌^◌, length, All, IfOk, IfSome};
ghost use Rattle.sg_coord.specs.Bounds.{bounds_of};
ghost use Rattle.sg_coord.specs.Coord.{Inside};

use crate::fixtures::{Node, are_inside, on_line, store_of};
use sg_activate::{ActFault, Wanted, activate, activated};
use sg_coord::{Coord, Extents};
use sg_elements::elements;
use sg_layout::Kind::{Bitmasked, Dense, Dynamic, Hash, Pointer};
use sg_outside::{Gate, Phase};
use sg_store::Store;
use sg_words::{Items, Memory, Stop};
use std::alloc::{AllocError, Global};
use std::sync::atomic::{AtomicU64, Ordering};
use std::test::Fail;
use std::thread::Threads;

/// Each piece wants one coordinate, within these extents.
#[derive(Drop)]
struct Points {
    coords: Items<Coord>,
    extents: Extents,
    ghost few: { length coords < 2 ^ 32 },
    ghost inside: { All (Inside (bounds_of extents)) coords },
}

impl Wanted for Points {
    type Hand = ();

    ghost use Rattle.std.specs.Prelude.{◌≡◌, ℕ, length, slice_get};
    ghost use Rattle.sg_coord.specs.Bounds.{bounds_of};
    ghost use Rattle.trials_stores.specs.steps.Listed.{listed};

    ghost count = { λ points. length points.coords };

    ghost bounds = { λ points. bounds_of points.extents };

    ghost Means = { λ points list. (piece : ℕ) → list piece ≡ listed (slice_get points.coords piece) };

    ghost IsHand = { λ points hand. Unit {0} };

    fn pieces(&self) -> u32 {
        self.coords.len() as u32
    }

    fn hand(&self, _alloc: Global) -> Result<(), Memory> {
        Ok(())
    }

    fn wanted(&self, _hand: &mut (), piece: u32, into: &mut Vec<Coord>) -> Result<(), Memory> {
        into.push(self.coords.as_slice()[piece as usize])?;
        Ok(())
    }
}

/// The points at a multiple of a step, so many, from 0 on again past the end.
fn points_of(
    alloc: Global,
    extents: Extents,
    count: u32,
    step: u32,
) -> Result<Option<Points>, AllocError>
    ensures { IfOk result (λ points. IfSome points (λ it. it.extents ≡ extents)) }
{
    let mut coords = Items::new(alloc);
    for number in 0..count {
        coords.push(on_line((number.wrapping_mul(step) % 256) as i32))?;
    }
    if coords.len() >= 1 << 20 || !are_inside(&extents, coords.as_slice()) {
        return Ok(None);
    }
    Ok(Some(Points { coords, extents }))
}

/// A gate that counts how often it is passed.
#[derive(Drop)]
struct Counter {
    count: AtomicU64,
}

impl Gate for Counter {
    fn before(&self, _phase: Phase, _worker: u32, _turn: u32) {
        self.count.fetch_add(1, Ordering::SeqCst);
    }
}

/// What is seen of a round: the node that is too full, 0 if none is; how many coordinates are active; how often the gate was passed.
type Seen = (u32, usize, u64);

/// So many points at a multiple of a step are wanted.
#[derive(Clone, Copy)]
struct Round {
    points: u32,
    step: u32,
    answer: Seen,
}

/// Rounds over a store of these nodes.
#[derive(Clone, Copy)]
struct Race {
    nodes: &'static [Node],
    rounds: &'static [Round],
}

/// Up to the cap all is active, and past it nothing changes; the gate is passed once before each piece.
static RACES: [Race; 4] = [
    Race {
        nodes: &[
            (Pointer, [16, 0, 0], 4),
            (Bitmasked, [4, 0, 0], 0),
            (Dense, [4, 0, 0], 0),
        ],
        rounds: &[
            Round {
                points: 64,
                step: 1,
                answer: (0, 64, 64),
            },
            Round {
                points: 64,
                step: 1,
                answer: (0, 64, 64),
            },
            Round {
                points: 40,
                step: 16,
                answer: (1, 64, 40),
            },
        ],
    },
    Race {
        nodes: &[(Hash, [64, 0, 0], 16), (Dynamic, [4, 0, 0], 16)],
        rounds: &[
            Round {
                points: 64,
                step: 4,
                answer: (1, 0, 64),
            },
            Round {
                points: 16,
                step: 17,
                answer: (0, 40, 16),
            },
            Round {
                points: 64,
                step: 4,
                answer: (1, 40, 64),
            },
        ],
    },
    // the first pool is just enough for the second round, in which the second is too small, and for the first, in which both are
    Race {
        nodes: &[
            (Pointer, [8, 0, 0], 4),
            (Pointer, [8, 0, 0], 8),
            (Dense, [4, 0, 0], 0),
        ],
        rounds: &[
            Round {
                points: 16,
                step: 8,
                answer: (2, 0, 16),
            },
            Round {
                points: 8,
                step: 16,
                answer: (0, 32, 8),
            },
            Round {
                points: 9,
                step: 16,
                answer: (1, 32, 9),
            },
        ],
    },
    Race {
        nodes: &[
            (Hash, [4, 0, 0], 4),
            (Pointer, [4, 0, 0], 8),
            (Bitmasked, [4, 0, 0], 0),
            (Dynamic, [4, 0, 0], 16),
        ],
        rounds: &[
            Round {
                points: 16,
                step: 3,
                answer: (0, 36, 16),
            },
            Round {
                points: 16,
                step: 16,
                answer: (2, 36, 16),
            },
        ],
    },
];

/// All workers want the same slot at every level.
static SAME_SLOT: Race = Race {
    nodes: &[
        (Pointer, [4, 0, 0], 1),
        (Bitmasked, [4, 0, 0], 0),
        (Pointer, [4, 0, 0], 1),
        (Bitmasked, [4, 0, 0], 0),
    ],
    rounds: &[Round {
        points: 4,
        step: 0,
        answer: (0, 1, 4),
    }],
};

static WORKERS: [u32; 4] = [1, 2, 3, 16];

fn new_gate() -> Counter {
    Counter {
        count: AtomicU64::new(0),
    }
}

fn seen(alloc: Global, store: &Store, node: u32, gate: &Counter) -> Result<Seen, Fail> {
    let count = elements(alloc, store)?.len();
    Ok((node, count, gate.count.load(Ordering::SeqCst)))
}

/// What a round would make of a store, which is only read.
fn foreseen<R: Threads + Sync>(
    rt: &R,
    alloc: Global,
    store: &Store,
    round: &Round,
    workers: u32,
) -> Result<Seen, Fail> {
    let gate = new_gate();
    let extents = store.layout().extents();
    let Some(want) = points_of(alloc, extents, round.points, round.step)? else {
        return Err(Fail::from("outside"));
    };
    if workers < 1 || workers > 16 {
        return Err(Fail::from("workers"));
    }
    let answer = activated(rt, alloc, store, &want, workers, &gate);
    match answer {
        Ok(Some(next)) => seen(alloc, &next, 0, &gate),
        Ok(None) => seen(alloc, store, 0, &gate),
        Err(Stop::Refused(ActFault::PoolFull { node, .. })) => seen(alloc, store, node, &gate),
        Err(Stop::Memory) => Err(Fail::from(Memory)),
    }
}

/// What a round makes of a store.
fn raced<R: Threads + Sync>(
    rt: &R,
    alloc: Global,
    store: &mut Store,
    round: &Round,
    workers: u32,
) -> Result<Seen, Fail> {
    let gate = new_gate();
    let extents = store.layout().extents();
    let Some(want) = points_of(alloc, extents, round.points, round.step)? else {
        return Err(Fail::from("outside"));
    };
    if workers < 1 || workers > 16 {
        return Err(Fail::from("workers"));
    }
    let answer = activate(rt, alloc, store, &want, workers, &gate);
    match answer {
        Ok(()) => seen(alloc, store, 0, &gate),
        Err(Stop::Refused(ActFault::PoolFull { node, .. })) => seen(alloc, store, node, &gate),
        Err(Stop::Memory) => Err(Fail::from(Memory)),
    }
}

/// The first round with another answer than its own, by so many workers, and that answer.
fn first_wrong<R: Threads + Sync>(
    rt: &R,
    alloc: Global,
    store: &mut Store,
    race: &Race,
    workers: u32,
) -> Result<Option<(usize, Seen)>, Fail> {
    for (number, round) in race.rounds.iter().enumerate() {
        let before = foreseen(rt, alloc, store, round, workers)?;
        if before != round.answer {
            return Ok(Some((number, before)));
        }
        let after = raced(rt, alloc, store, round, workers)?;
        if after != round.answer {
            return Ok(Some((number, after)));
        }
    }
    Ok(None)
}

fn told<R: Threads + Sync>(
    rt: &R,
    alloc: Global,
    race: &Race,
    workers: u32,
) -> Result<Option<(usize, Seen)>, Fail> {
    match store_of(alloc, 1, race.nodes) {
        Ok(mut store) => first_wrong(rt, alloc, &mut store, race, workers),
        Err(fail) => Err(fail),
    }
}

#[test]
fn workers_race_for_what_is_wanted(rt: HostRuntime) -> Result<(), Fail> {
    for race in &RACES {
        for workers in &WORKERS {
            let wrong = told(&rt, rt.alloc(), race, *workers)?;
            assert_eq!(rt; wrong, None);
        }
    }
    Ok(())
}

#[test]
fn workers_want_the_same_slot(rt: HostRuntime) -> Result<(), Fail> {
    for _turn in 0..1000 {
        let wrong = told(&rt, rt.alloc(), &SAME_SLOT, 4)?;
        assert_eq!(rt; wrong, None);
    }
    Ok(())
}

/// Points that count how often they are asked for, and by which pieces: the sum of their numbers from 1.
#[derive(Drop)]
struct CountedPoints {
    points: Points,
    count: AtomicU64,
    pieces: AtomicU64,
}

impl Wanted for CountedPoints {
    type Hand = ();

    ghost use Rattle.std.specs.Prelude.{◌≡◌, ℕ, length, slice_get};
    ghost use Rattle.sg_coord.specs.Bounds.{bounds_of};
    ghost use Rattle.trials_stores.specs.steps.Listed.{listed};

    ghost count = { λ asked. length asked.points.coords };

    ghost bounds = { λ asked. bounds_of asked.points.extents };

    ghost Means = { λ asked list. (piece : ℕ) → list piece ≡ listed (slice_get asked.points.coords piece) };

    ghost IsHand = { λ asked hand. Unit {0} };

    fn pieces(&self) -> u32 {
        self.points.pieces()
    }

    fn hand(&self, _alloc: Global) -> Result<(), Memory> {
        Ok(())
    }

    fn wanted(&self, _hand: &mut (), piece: u32, into: &mut Vec<Coord>) -> Result<(), Memory> {
        self.count.fetch_add(1, Ordering::SeqCst);
        self.pieces.fetch_add(piece as u64 + 1, Ordering::SeqCst);
        into.push(self.points.coords.as_slice()[piece as usize])?;
        Ok(())
    }
}

/// How often the pieces were asked for in an activation of 64 points, and the sum of the numbers of these pieces, from 1.
fn asked_in<R: Threads + Sync>(
    rt: &R,
    alloc: Global,
    store: &Store,
    workers: u32,
) -> Result<(u64, u64), Fail> {
    let gate = new_gate();
    let Some(points) = points_of(alloc, store.layout().extents(), 64, 4)? else {
        return Err(Fail::from("outside"));
    };
    if workers < 1 || workers > 16 {
        return Err(Fail::from("workers"));
    }
    let want = CountedPoints {
        points,
        count: AtomicU64::new(0),
        pieces: AtomicU64::new(0),
    };
    let answer = activated(rt, alloc, store, &want, workers, &gate);
    match answer {
        Ok(Some(_)) => Ok((
            want.count.load(Ordering::SeqCst),
            want.pieces.load(Ordering::SeqCst),
        )),
        _ => Err(Fail::from("active")),
    }
}

/// Whatever the number of levels, each piece is asked once what it wants.
#[test]
fn pieces_are_asked_once(rt: HostRuntime) -> Result<(), Fail> {
    let nodes = [
        (Pointer, [4, 0, 0], 4),
        (Bitmasked, [4, 0, 0], 0),
        (Pointer, [4, 0, 0], 64),
        (Bitmasked, [4, 0, 0], 0),
    ];
    let store = store_of(rt.alloc(), 1, &nodes)?;
    for workers in &WORKERS {
        let seen = asked_in(&rt, rt.alloc(), &store, *workers)?;
        assert_eq!(rt; seen, (64, 2080));
    }
    Ok(())
}
