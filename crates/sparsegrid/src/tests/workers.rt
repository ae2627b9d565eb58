//! Runs on one worker, on two and on sixteen, and gates that see workers beside each other.

ghost use Rattle.std.specs.Prelude.{◌≤◌};

use super::setting::{EveryWorker, Setting, named, owned, run_over};
use sg_outside::{FreeGate, MemFiles, MemSink, OrderGate};
use std::alloc::Global;
use std::process::Abort;
use std::test::Fail;
use std::thread::Threads;

/// The second run has no room for its block.
const BLOCKS: &str =
    "layout A(i) { pointer(i: 4) cap 1; dense(i: 4); field x: i32; } kernel one { for i in 0..1 { x[i] = 1; } } \
     kernel two { for i in 4..5 { x[i] = 2; } } run one; dump x; run two; dump x;";

/// A program and its words on so many workers.
fn on<'a>(words: &'a [&'a str], source: &'a str) -> Setting<'a> {
    Setting {
        words,
        ..Setting::of(source)
    }
}

/// A write outside after others that are inside.
const OUTSIDE: &str =
    "layout A(i) { pointer(i: 4) cap 4; field x: i32; } kernel k { for i in 0..4 { x[i + 1] += 1; } } run k;";

/// The status of a run on so many workers, and how many of the coordinates from 0 to 3 and from 0 to 15 are active after it.
fn active_after<R: Threads + Sync>(
    rt: &R,
    alloc: Global,
    count: &'static str,
    source: &'static str,
) -> Result<(u8, Option<(u32, u32)>), Fail> {
    let words = ["--workers", count, "p.sg"];
    let mut out = MemSink::new(alloc, Vec::new(alloc), 0);
    let seen = on(&words, source).gated(rt, alloc, &mut out, &EveryWorker)?;
    Ok((seen.status, seen.active))
}

#[test]
fn a_refused_run_leaves_the_session(rt: HostRuntime) -> Result<(), Fail> {
    for count in ["1", "2", "16"] {
        let blocks = active_after(&rt, rt.alloc(), count, BLOCKS)?;
        assert_eq!(rt; blocks, (7, Some((4, 4))));
        let outside = active_after(&rt, rt.alloc(), count, OUTSIDE)?;
        assert_eq!(rt; outside, (7, Some((0, 0))));
    }
    Ok(())
}

/// A thousand runs at sixteen points, for sixteen workers: each on one, since the gate holds nobody. Threads for each would take a minute.
#[test]
fn few_points_take_one_worker(rt: HostRuntime) -> Result<(), Fail> {
    let setting = on(
        &["--workers", "16", "p.sg"],
        "layout A(i) { dense(i: 1); field x: i32; } kernel k { for p in 0..16 { x[0] += 1; } } times 1000 { run k; } dump x;",
    );
    let alloc = rt.alloc();
    let mut out = MemSink::new(alloc, Vec::new(alloc), 0);
    let seen = setting.gated(&rt, alloc, &mut out, &FreeGate)?;
    assert_eq!(rt; seen.status, 0);
    assert_eq!(rt; out.bytes(), b"grid 1 1\n0 16000\n".as_slice());
    Ok(())
}

/// More looks than another worker needs to come.
const LOOKS: u32 = 100_000_000;

/// The numbers of the first two containers after the run in which a worker comes first; none if the other one didn't see it first.
fn containers<R: Threads + Sync + Abort>(
    rt: &R,
    alloc: Global,
    first: u32,
) -> Result<Option<(u32, u32)>, Fail>
    requires { first ≤ 1 }
{
    let setting = on(
        &["--workers", "2", "p.sg"],
        "layout A(i) { pointer(i: 2) cap 2; field x: i32; } kernel k { for p in 0..4 { x[p >> 1] += 1; } } run k; dump x;",
    );
    let gate = OrderGate::new(first, LOOKS);
    let mut out = MemSink::new(alloc, Vec::new(alloc), 0);
    let seen = setting.gated(rt, alloc, &mut out, &gate)?;
    assert_eq!(rt; out.bytes(), b"grid 1 2\n0 2\n1 2\n".as_slice());
    Ok(if gate.kept() { seen.containers } else { None })
}

/// The worker that comes first draws the first number of the stock.
#[test]
fn order_decides(rt: HostRuntime) -> Result<(), Fail> {
    match (
        containers(&rt, rt.alloc(), 0)?,
        containers(&rt, rt.alloc(), 1)?,
    ) {
        (Some((zero, one)), Some(other)) => {
            assert!(rt; zero != one);
            assert_eq!(rt; other, (one, zero));
        }
        _ => assert!(rt; false),
    }
    Ok(())
}

/// Two levels of containers, in which the four points want the coordinates 0, 0, 2 and 2.
const TWO_LEVELS: &str =
    "layout A(i) { pointer(i: 2) cap 2; pointer(i: 2) cap 2; field x: i32; } kernel k { for p in 0..4 { x[(p >> 1) * 2] += 1; } } run k; dump x;";

/// The numbers of the first two containers at each of two levels; at the lower one a container is a cell.
type Numbers = ((u32, u32), (u32, u32));

/// Those after the run in which a worker comes first; none if the other one didn't see it first.
fn levels<R: Threads + Sync + Abort>(
    rt: &R,
    alloc: Global,
    first: u32,
) -> Result<Option<Numbers>, Fail>
    requires { first ≤ 1 }
{
    let setting = on(&["--workers", "2", "p.sg"], TWO_LEVELS);
    let gate = OrderGate::new(first, LOOKS);
    let mut out = MemSink::new(alloc, Vec::new(alloc), 0);
    let seen = setting.gated(rt, alloc, &mut out, &gate)?;
    assert_eq!(rt; out.bytes(), b"grid 1 2\n0 2\n2 2\n".as_slice());
    if !gate.kept() {
        return Ok(None);
    }
    Ok(match (seen.containers, seen.cells) {
        (Some(upper), Some(lower)) => Some((upper, lower)),
        _ => None,
    })
}

/// The worker that comes first draws the first number of the stock at each level.
#[test]
fn order_decides_below(rt: HostRuntime) -> Result<(), Fail> {
    for _turn in 0..10 {
        match (levels(&rt, rt.alloc(), 0)?, levels(&rt, rt.alloc(), 1)?) {
            (Some(((zero, one), (low, high))), Some((upper, lower))) => {
                assert!(rt; zero != one && low != high);
                assert_eq!(rt; upper, (one, zero));
                assert_eq!(rt; lower, (high, low));
            }
            _ => assert!(rt; false),
        }
    }
    Ok(())
}

/// Particles that are scattered into the cells of a grid under keys, pointers and bits.
const SCATTER: &str = "layout P(p) { dense(p: 1024); field px: i32; field py: i32; field m: i32; } \
     layout G(i, j) { hash(i: 4, j: 4) cap 16; pointer(i: 2, j: 2) cap 64; bitmasked(i: 8, j: 8); field g: i32; } \
     kernel scatter { for p in P { g[px[p] >> 4, py[p] >> 4] += m[p]; } } \
     load px; load py; load m; run scatter; dump g;";

/// A grid text of 1,024 rows: the numbers up, down, or 1 in each row.
fn rows(alloc: Global, kind: u32) -> Result<String, Fail> {
    let mut text = String::new(alloc);
    text.push_str("grid 1 1024\n")?;
    for p in 0..1024_u32 {
        let value = match kind {
            0 => p,
            1 => 1023 - p,
            _ => 1,
        };
        text.push_str(format!(in alloc; "{p} {value}\n")?.as_str())?;
    }
    Ok(text)
}

/// Sixteen particles in each cell of a diagonal.
fn diagonal(alloc: Global) -> Result<String, Fail> {
    let mut text = String::new(alloc);
    text.push_str("grid 2 64\n")?;
    for i in 0..64_u32 {
        let j = 63 - i;
        text.push_str(format!(in alloc; "{i} {j} 16\n")?.as_str())?;
    }
    Ok(text)
}

/// The program, and a grid of 1,024 rows for each of its fields.
fn particle_files(alloc: Global) -> Result<MemFiles, Fail> {
    let up = rows(alloc, 0)?;
    let down = rows(alloc, 1)?;
    let ones = rows(alloc, 2)?;
    let mut list = Vec::new(alloc);
    list.push(named(alloc, "p.sg", SCATTER)?)?;
    list.push(named(alloc, "a", up.as_str())?)?;
    list.push(named(alloc, "b", down.as_str())?)?;
    list.push(named(alloc, "c", ones.as_str())?)?;
    Ok(MemFiles::new(list, Vec::new(alloc)))
}

/// The status of the run with these words.
fn scatter<R: Threads + Sync>(
    rt: &R,
    alloc: Global,
    words: &[&str],
    out: &mut MemSink,
) -> Result<u8, Fail> {
    let words = owned(alloc, words)?;
    let mut files = particle_files(alloc)?;
    let seen = run_over(rt, alloc, words.as_slice(), &mut files, out, &EveryWorker);
    Ok(seen.status)
}

/// The words on one worker, on two and on sixteen.
static SCATTER_WORDS: &[&[&str]] = &[
    &["--workers", "1", "p.sg", "px=a", "py=b", "m=c"],
    &["--workers", "2", "p.sg", "px=a", "py=b", "m=c"],
    &["--workers", "16", "p.sg", "px=a", "py=b", "m=c"],
];

#[test]
fn many_particles_are_scattered(rt: HostRuntime) -> Result<(), Fail> {
    let alloc = rt.alloc();
    let cells = diagonal(alloc)?;
    for words in SCATTER_WORDS {
        let mut out = MemSink::new(alloc, Vec::new(alloc), 0);
        let status = scatter(&rt, alloc, words, &mut out)?;
        assert_eq!(rt; status, 0);
        assert_eq!(rt; out.bytes(), cells.as_str().as_bytes());
    }
    Ok(())
}
