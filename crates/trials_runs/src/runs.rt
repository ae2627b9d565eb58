//! Sessions, what their stores hold after each run of a kernel, and what they keep where a run is refused.

ghost use Rattle.std.specs.Prelude.{◌≤◌};

use sg_coord::Coord;
use sg_flat::RunFault;
use sg_grid::dump;
use sg_outside::{Gate, MemFiles, Phase};
use sg_session::{Binds, RunRefusal, Session, Task, compile};
use sg_store::Store;
use sg_words::{Items, Memory, Stop};
use std::alloc::Global;
use std::test::Fail;
use std::thread::Threads;

/// A gate that is open and doesn't say so: all workers start, however little there is to do.
#[derive(Clone, Copy)]
struct EveryWorker;

impl Gate for EveryWorker {
    fn before(&self, _phase: Phase, _worker: u32, _turn: u32) {}
}

/// How a run ends: done; refused since the first node of a layout has no room for more than so many; or refused for the write of a
/// statement that is outside at a place.
#[derive(Clone, Copy)]
enum End {
    Done,
    Full(u32, u32),
    Outside(u32, i32),
}

/// A run of a kernel, how it ends, and the grid texts of all fields of the layouts from one on after it.
#[derive(Clone, Copy)]
struct Step(u32, End, usize, &'static str);

/// Files, and runs of their kernels one after the other.
static STORIES: &[(&str, &[Step])] = &[
    // the bits of what is written, and sums that add up
    (
        "layout A(i) { pointer(i: 4) cap 2; bitmasked(i: 4); field x: i32; } kernel k { for i in 5..7 { if i > 5 { x[i] += i; } else { x[2 * i] += 3; } } }",
        &[
            Step(0, End::Done, 0, "grid 1 2\n6 6\n10 3\n"),
            Step(0, End::Done, 0, "grid 1 2\n6 12\n10 6\n"),
        ],
    ),
    // sums over neighbours, both faults, and a walk that reads the cell before
    (
        "layout A(i) { pointer(i: 4) cap 2; dense(i: 4); field x: i32; field y: i32; } kernel a { for i in 2..7 { for k in -1..2 { if i > 2 { x[i + k] += 10; } } } } kernel b { for i in 14..16 { for k in -1..2 { x[i + k] += 10; } } } kernel c { for i in 9..10 { x[i] += 10; } } kernel d { for i in A { y[i] = i; y[i] = y[i] + x[i - 1]; } }",
        &[
            Step(
                0,
                End::Done,
                0,
                "grid 1 8\n0 0\n1 0\n2 10\n3 20\n4 30\n5 30\n6 20\n7 10\ngrid 1 8\n0 0\n1 0\n2 0\n3 0\n4 0\n5 0\n6 0\n7 0\n",
            ),
            Step(
                1,
                End::Outside(2, 15),
                0,
                "grid 1 8\n0 0\n1 0\n2 10\n3 20\n4 30\n5 30\n6 20\n7 10\ngrid 1 8\n0 0\n1 0\n2 0\n3 0\n4 0\n5 0\n6 0\n7 0\n",
            ),
            Step(
                2,
                End::Full(0, 2),
                0,
                "grid 1 8\n0 0\n1 0\n2 10\n3 20\n4 30\n5 30\n6 20\n7 10\ngrid 1 8\n0 0\n1 0\n2 0\n3 0\n4 0\n5 0\n6 0\n7 0\n",
            ),
            Step(
                3,
                End::Done,
                0,
                "grid 1 8\n0 0\n1 0\n2 10\n3 20\n4 30\n5 30\n6 20\n7 10\ngrid 1 8\n0 0\n1 1\n2 2\n3 13\n4 24\n5 35\n6 36\n7 27\n",
            ),
        ],
    ),
    // cells in the first 65,536 of a layout and after them, as a second layout copies them
    (
        "layout A(i, j) { dense(i: 512, j: 256); field x: i32; } layout B(i) { dense(i: 8); field y: i32; } kernel a { for i, j in 255..257, 254..256 { x[i, j] += 10; } } kernel b { for i, j in 256..257, 255..256 { x[i, j] += 10; } } kernel c { for i in 0..6 { y[i] = x[255 + i / 2, 254 + i % 2]; } }",
        &[
            Step(
                0,
                End::Done,
                1,
                "grid 1 8\n0 0\n1 0\n2 0\n3 0\n4 0\n5 0\n6 0\n7 0\n",
            ),
            Step(
                1,
                End::Done,
                1,
                "grid 1 8\n0 0\n1 0\n2 0\n3 0\n4 0\n5 0\n6 0\n7 0\n",
            ),
            Step(
                2,
                End::Done,
                1,
                "grid 1 8\n0 10\n1 10\n2 10\n3 20\n4 0\n5 0\n6 0\n7 0\n",
            ),
        ],
    ),
    // only block 0 is there, and no second one fits
    (
        "layout A(i) { pointer(i: 4) cap 1; dense(i: 4); field x: i32; } kernel one { for i in 0..1 { x[i] = 1; } } kernel two { for i in 4..5 { x[i] = 2; } }",
        &[
            Step(0, End::Done, 0, "grid 1 4\n0 1\n1 0\n2 0\n3 0\n"),
            Step(1, End::Full(0, 1), 0, "grid 1 4\n0 1\n1 0\n2 0\n3 0\n"),
        ],
    ),
    // nothing is active, and only the last write is outside
    (
        "layout A(i) { pointer(i: 4) cap 4; field x: i32; } kernel none { for i in 0..0 { x[i] = 1; } } kernel k { for i in 0..4 { x[i + 1] += 1; } }",
        &[
            Step(0, End::Done, 0, "grid 1 0\n"),
            Step(1, End::Outside(1, 3), 0, "grid 1 0\n"),
        ],
    ),
    // the first layout has room, the second none
    (
        "layout A(i) { pointer(i: 4) cap 4; bitmasked(i: 4); field x: i32; field y: u32; } layout B(i) { pointer(i: 4) cap 1; dense(i: 2); field z: i32; } kernel one { for i in 2..4 { x[i] = i; z[i] += 5; } } kernel two { for i in 0..8 { x[i] = 9; y[i] = 8u; z[i] += 1; } }",
        &[
            Step(
                0,
                End::Done,
                0,
                "grid 1 2\n2 2\n3 3\ngrid 1 2\n2 0\n3 0\ngrid 1 2\n2 5\n3 5\n",
            ),
            Step(
                1,
                End::Full(1, 1),
                0,
                "grid 1 2\n2 2\n3 3\ngrid 1 2\n2 0\n3 0\ngrid 1 2\n2 5\n3 5\n",
            ),
        ],
    ),
    // outside and full at once: outside is said, and what both layouts hold stays
    (
        "layout A(i) { pointer(i: 4) cap 1; dense(i: 2); field x: i32; } layout B(i) { dense(i: 2); field z: i32; } kernel one { for i in 0..2 { x[i] = i; z[i] = 7; } } kernel two { for i in 0..4 { x[i] = 9; z[i - 1] += 1; } }",
        &[
            Step(0, End::Done, 0, "grid 1 2\n0 0\n1 1\ngrid 1 2\n0 7\n1 7\n"),
            Step(
                1,
                End::Outside(2, 0),
                0,
                "grid 1 2\n0 0\n1 1\ngrid 1 2\n0 7\n1 7\n",
            ),
        ],
    ),
];

/// The refusal by which a run of a kernel ends.
fn refusal_of(kernel: u32, end: End) -> Option<RunRefusal> {
    let fault = match end {
        End::Done => {
            return None;
        }
        End::Full(layout, cap) => RunFault::PoolFull {
            layout,
            node: 1,
            cap,
        },
        End::Outside(stmt, a) => RunFault::WriteOutside {
            stmt,
            at: Coord {
                n: 1,
                a,
                b: 0,
                c: 0,
            },
        },
    };
    Some(RunRefusal::Run {
        kernel: Some(kernel),
        fault,
    })
}

/// Whether a kernel of this number is there, and its run on so many workers ends with this refusal, or with none.
fn ends<R: Threads + Sync>(
    rt: &R,
    alloc: Global,
    session: &mut Session,
    kernel: u32,
    refusal: Option<RunRefusal>,
    workers: u32,
) -> Result<bool, Memory>
    requires some { 1 ≤ workers }
    requires few { workers ≤ 16 }
{
    if session.compiled.kernels.len() <= kernel as usize {
        return Ok(false);
    }
    let binds = Binds {
        list: Items::new(alloc),
    };
    let mut files = MemFiles::new(Vec::new(alloc), Vec::new(alloc));
    match session.step(
        rt,
        alloc,
        Task::Run { kernel },
        &binds,
        &mut files,
        workers,
        &EveryWorker,
    ) {
        Ok(_text) => Ok(refusal == None),
        Err(Stop::Refused(why)) => Ok(refusal == Some(why)),
        Err(Stop::Memory) => Err(Memory),
    }
}

/// Adds the grid text of each field of a store.
fn push_store(alloc: Global, text: &mut Vec<u8>, store: &Store) -> Result<(), Memory> {
    for place in 0..store.layout().shape().fields.len() {
        let field = dump(alloc, store, place as u32)?;
        text.extend_from_slice(field.bytes.as_slice())?;
    }
    Ok(())
}

/// Whether the grid texts of all fields of these stores, one after the other, are this one.
fn hold(alloc: Global, stores: &[Store], want: &str) -> Result<bool, Memory> {
    let mut text = Vec::new(alloc);
    for store in stores {
        push_store(alloc, &mut text, store)?;
    }
    Ok(text.as_slice() == want.as_bytes())
}

/// Whether a session goes through these steps so, on so many workers.
fn goes<R: Threads + Sync>(
    rt: &R,
    alloc: Global,
    session: &mut Session,
    steps: &[Step],
    workers: u32,
) -> Result<bool, Memory>
    requires some { 1 ≤ workers }
    requires few { workers ≤ 16 }
{
    for Step(kernel, end, from, grids) in steps {
        let refusal = refusal_of(*kernel, *end);
        if !ends(rt, alloc, session, *kernel, refusal, workers)? {
            return Ok(false);
        }
        match session.stores.list.as_slice().get(*from..) {
            Some(stores) => {
                if !hold(alloc, stores, *grids)? {
                    return Ok(false);
                }
            }
            None => {
                return Ok(false);
            }
        }
    }
    Ok(true)
}

/// The same of a file, from its start.
fn tells_on<R: Threads + Sync>(
    rt: &R,
    alloc: Global,
    file: &str,
    steps: &[Step],
    workers: u32,
) -> Result<bool, Memory>
    requires some { 1 ≤ workers }
    requires few { workers ≤ 16 }
{
    if file.len() > 65_536 {
        return Err(Memory);
    }
    match compile(alloc, file.as_bytes()) {
        Ok(compiled) => match Session::open(alloc, compiled) {
            Ok(mut session) => goes(rt, alloc, &mut session, steps, workers),
            Err(Memory) => Err(Memory),
        },
        Err(Stop::Refused(_refusal)) => Ok(false),
        Err(Stop::Memory) => Err(Memory),
    }
}

#[test]
fn kernels_run_over_stores(rt: HostRuntime) -> Result<(), Fail> {
    let alloc = rt.alloc();
    for (file, steps) in STORIES {
        assert!(rt; tells_on(&rt, alloc, file, steps, 3)?, "{file}");
    }
    Ok(())
}

/// Files whose last kernel asks what is active in the first layout, and writes 1 where it is, after runs that were refused with a part of what they
/// want activated.
static ASKED: &[(&str, &[Step])] = &[
    // the first block is there, a second one fits, and all four are wanted; then one more is wanted and a write is outside
    (
        "layout A(i) { pointer(i: 4) cap 2; dense(i: 2); field x: i32; } layout C(i) { dense(i: 8); field y: i32; } \
         kernel one { for i in 0..1 { x[i] = 1; } } kernel all { for i in 0..8 { x[i] = 2; } } kernel past { for i in 6..9 { x[i] = 3; } } \
         kernel ask { for i in 0..8 { if active(x[i]) { y[i] = 1; } } }",
        &[
            Step(
                0,
                End::Done,
                1,
                "grid 1 8\n0 0\n1 0\n2 0\n3 0\n4 0\n5 0\n6 0\n7 0\n",
            ),
            Step(
                1,
                End::Full(0, 2),
                1,
                "grid 1 8\n0 0\n1 0\n2 0\n3 0\n4 0\n5 0\n6 0\n7 0\n",
            ),
            Step(
                2,
                End::Outside(1, 8),
                1,
                "grid 1 8\n0 0\n1 0\n2 0\n3 0\n4 0\n5 0\n6 0\n7 0\n",
            ),
            Step(
                3,
                End::Done,
                1,
                "grid 1 8\n0 1\n1 1\n2 0\n3 0\n4 0\n5 0\n6 0\n7 0\n",
            ),
        ],
    ),
    // bits in a block that is there and keys that are new: both are wanted, and there is room for one key more
    (
        "layout A(i) { hash(i: 8) cap 2; bitmasked(i: 2); field x: i32; } layout C(i) { dense(i: 16); field y: i32; } \
         kernel one { for i in 5..6 { x[i] = 1; } } kernel all { for i in 4..12 { x[i] = 2; } } \
         kernel ask { for i in 0..12 { if active(x[i]) { y[i] = 1; } } }",
        &[
            Step(
                0,
                End::Done,
                0,
                "grid 1 1\n5 1\ngrid 1 16\n0 0\n1 0\n2 0\n3 0\n4 0\n5 0\n6 0\n7 0\n8 0\n9 0\n10 0\n11 0\n12 0\n13 0\n14 0\n15 0\n",
            ),
            Step(
                1,
                End::Full(0, 2),
                0,
                "grid 1 1\n5 1\ngrid 1 16\n0 0\n1 0\n2 0\n3 0\n4 0\n5 0\n6 0\n7 0\n8 0\n9 0\n10 0\n11 0\n12 0\n13 0\n14 0\n15 0\n",
            ),
            Step(
                2,
                End::Done,
                0,
                "grid 1 1\n5 1\ngrid 1 16\n0 0\n1 0\n2 0\n3 0\n4 0\n5 1\n6 0\n7 0\n8 0\n9 0\n10 0\n11 0\n12 0\n13 0\n14 0\n15 0\n",
            ),
        ],
    ),
];

/// A refused run leaves active what was active before it, and nothing else.
#[test]
fn a_refused_run_leaves_what_is_active(rt: HostRuntime) -> Result<(), Fail> {
    let alloc = rt.alloc();
    for (file, steps) in ASKED {
        assert!(rt; tells_on(&rt, alloc, file, steps, 1)?, "{file}");
        assert!(rt; tells_on(&rt, alloc, file, steps, 2)?, "{file}");
        assert!(rt; tells_on(&rt, alloc, file, steps, 16)?, "{file}");
    }
    Ok(())
}
