//! What iterations take, so that no more workers start than have enough to do. It depends on numbers alone, and promises nothing.

ghost use Rattle.std.specs.Prelude.{◌<◌, length};
ghost use Rattle.sg_layout.specs.Limits.{most_nodes};

use sg_coord::Coord;
use sg_flat::Domain;
use sg_ir::{Inst, KernelCode};
use sg_layout::Kind;
use sg_store::{Store, Stores};

/// What an iteration takes besides its instructions, in instructions.
const BESIDES: usize = 16;

/// How many bits a word of a mask has.
const WORD: usize = 64;

/// About how many instructions a run has to do: as many turns as its loop has points, of a walk as may be active. No iteration runs.
pub fn effort(stores: &Stores, kernel: &KernelCode) -> usize {
    let slice = effort_of(kernel.slice.body.as_slice());
    let code = effort_of(kernel.code.body.as_slice());
    points_about(stores, kernel.domain).saturating_mul(slice.saturating_add(code))
}

/// About how many points a loop has.
fn points_about(stores: &Stores, domain: Domain) -> usize {
    match domain {
        Domain::Walk { layout } => match stores.list.as_slice().get(layout as usize) {
            Some(store) => active_about(store),
            None => 0,
        },
        Domain::Range { lo, hi } => points_of(lo, hi),
    }
}

/// About how many coordinates of a store are active: all places below what is live, where there are bits one for each word of them.
fn active_about(store: &Store) -> usize {
    let mut places = 1;
    for index in 0..store.layout().nodes() {
        places = places_about(store, index, places);
    }
    places
}

/// About how many places there are below the node with this index, from 0, under so many places of the node before it.
fn places_about(store: &Store, index: usize, before: usize) -> usize
    requires there { index < length store.now.shape.nodes }
    requires few { index < most_nodes }
{
    let layout = store.layout();
    let node = &layout.shape().nodes.as_slice()[index];
    let number = index as u32 + 1;
    match node.kind {
        Kind::Dense => before.saturating_mul(layout.size(index) as usize),
        Kind::Bitmasked => before
            .saturating_mul(layout.size(index) as usize)
            .div_ceil(WORD),
        Kind::Pointer => store.live(number) as usize,
        Kind::Hash => store.live(number) as usize,
        Kind::Dynamic => {
            let chunks = store.live(number) as usize;
            chunks.saturating_mul(places_in(node.chunk))
        }
    }
}

/// How many places a chunk has.
fn places_in(chunk: i32) -> usize {
    usize::try_from(i64::from(chunk)).unwrap_or(0)
}

/// How many points a box has.
fn points_of(lo: Coord, hi: Coord) -> usize {
    let first = turns_of(lo.a, hi.a);
    let second = if 2 <= lo.n { turns_of(lo.b, hi.b) } else { 1 };
    let third = if 3 <= lo.n { turns_of(lo.c, hi.c) } else { 1 };
    first.saturating_mul(second).saturating_mul(third)
}

/// About how many instructions an iteration of a block takes.
pub(crate) fn effort_of(block: &[Inst]) -> usize {
    steps_of(block).saturating_add(BESIDES)
}

/// How many instructions of a block run at most, both blocks of an `If` counted.
#[cycle(counting)]
fn steps_of(block: &[Inst]) -> usize {
    let mut steps = 0_usize;
    for inst in block {
        steps = steps.saturating_add(steps_in(inst));
    }
    steps
}

/// The same of one instruction.
#[cycle(counting)]
fn steps_in(inst: &Inst) -> usize {
    match inst {
        Inst::If {
            cond: _cond,
            yes,
            no,
        } => {
            let yes = steps_of(yes.as_slice());
            let no = steps_of(no.as_slice());
            yes.saturating_add(no).saturating_add(1)
        }
        Inst::For {
            var: _var,
            lo,
            hi,
            body,
        } => {
            let steps = steps_of(body.as_slice());
            steps.saturating_mul(turns_of(*lo, *hi)).saturating_add(1)
        }
        _ => 1,
    }
}

/// How many numbers there are from one up to below another.
fn turns_of(lo: i32, hi: i32) -> usize {
    usize::try_from(i64::from(hi) - i64::from(lo)).unwrap_or(0)
}
