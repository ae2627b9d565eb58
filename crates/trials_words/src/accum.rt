ghost use Rattle.std.specs.Prelude.{◌≡◌, ◌≤◌, length};
ghost use Rattle.sg_words.specs.declared.operators.AccOp.TheVariants as acc;
ghost use Rattle.sg_accum.specs.Folding.{old_values, operator_of, share_of, handed_of, IsSeatOf};

use sg_accum::{AccPass, AccSeat};
use sg_words::{AccOp, Items, Memory, Ty};
use std::alloc::Global;
use std::test::Fail;
use std::thread::Threads;

// The cells of all parts in one list.
fn joined(alloc: Global, parts: Vec<Items<u32>>) -> Result<Vec<u32>, Memory> {
    let mut cells = Vec::new(alloc);
    for part in &parts {
        cells.extend_from_slice(part.as_slice())?;
    }
    Ok(cells)
}

// A cell of 5, lowered to a word.
fn lowered(alloc: Global, word: u32) -> Result<Vec<u32>, Memory> {
    let (pass, mut seat) = AccPass::start(alloc, &[5], AccOp::Min, Ty::I32)?;
    pass.least(&mut seat, 0, word);
    joined(alloc, pass.finish(alloc, seat)?)
}

// A cell of 5, raised to a word.
fn raised(alloc: Global, word: u32) -> Result<Vec<u32>, Memory> {
    let (pass, mut seat) = AccPass::start(alloc, &[5], AccOp::Max, Ty::U32)?;
    pass.most(&mut seat, 0, word);
    joined(alloc, pass.finish(alloc, seat)?)
}

#[test]
fn the_least_and_the_greatest_are_kept(rt: HostRuntime) -> Result<(), Fail> {
    let least = lowered(rt.alloc(), 4294967293)?;
    assert!(rt; least.as_slice() == [4294967293].as_slice());
    let most = raised(rt.alloc(), 4294967293)?;
    assert!(rt; most.as_slice() == [4294967293].as_slice());
    Ok(())
}

// A cell of 2^31 + 12, of which bits are set, kept or flipped.
fn bits_set(alloc: Global, word: u32) -> Result<Vec<u32>, Memory> {
    let (pass, mut seat) = AccPass::start(alloc, &[2147483660], AccOp::Or, Ty::I32)?;
    pass.set_bits(&mut seat, 0, word);
    joined(alloc, pass.finish(alloc, seat)?)
}

fn bits_kept(alloc: Global, word: u32) -> Result<Vec<u32>, Memory> {
    let (pass, mut seat) = AccPass::start(alloc, &[2147483660], AccOp::And, Ty::I32)?;
    pass.keep_bits(&mut seat, 0, word);
    joined(alloc, pass.finish(alloc, seat)?)
}

fn bits_flipped(alloc: Global, word: u32) -> Result<Vec<u32>, Memory> {
    let (pass, mut seat) = AccPass::start(alloc, &[2147483660], AccOp::Xor, Ty::I32)?;
    pass.flip_bits(&mut seat, 0, word);
    joined(alloc, pass.finish(alloc, seat)?)
}

#[test]
fn bits_are_set_kept_and_flipped(rt: HostRuntime) -> Result<(), Fail> {
    let set = bits_set(rt.alloc(), 10)?;
    assert!(rt; set.as_slice() == [2147483662].as_slice());
    let kept = bits_kept(rt.alloc(), 10)?;
    assert!(rt; kept.as_slice() == [8].as_slice());
    let flipped = bits_flipped(rt.alloc(), 2147483658)?;
    assert!(rt; flipped.as_slice() == [6].as_slice());
    Ok(())
}

// Contributions on both sides of a border of parts.
fn give(pass: &AccPass, seat: &mut AccSeat, word: u32)
    requires own { IsSeatOf pass.now seat.old }
    requires cells { 65540 ≤ length (old_values pass.now) }
    requires operator { operator_of pass.now ≡ acc.Add }
    ensures own { IsSeatOf pass.now seat.new }
    ensures share { share_of seat.new ≡ share_of seat.old }
    ensures handed { handed_of seat.new ≡ handed_of seat.old }
{
    pass.add(seat, 0, word);
    pass.add(seat, 65_535, word);
    pass.add(seat, 65_536, word);
    pass.add(seat, 65_539, word);
}

// Cells of two parts, all 7 at the start, to which two seats give, made and ended by so many workers.
fn two_parts<R: Threads + Sync>(rt: &R, alloc: Global, workers: u32) -> Result<Vec<u32>, Memory> {
    let values = Vec::from_elem(alloc, 7, 65_540)?;
    let (pass, mut seat) = AccPass::start_by_workers(
        rt,
        alloc,
        values.as_slice(),
        AccOp::Add,
        Ty::U32,
        workers,
    )?;
    let mut other = pass.split(&mut seat);
    give(&pass, &mut seat, 10);
    give(&pass, &mut other, 100);
    pass.add(&mut other, 65_536, 1000);
    pass.join(&mut seat, other);
    joined(alloc, pass.finish_by_workers(rt, alloc, seat, workers)?)
}

// The same cells, to which one seat gives, without workers.
fn two_parts_alone(alloc: Global) -> Result<Vec<u32>, Memory> {
    let values = Vec::from_elem(alloc, 7, 65_540)?;
    let (pass, mut seat) = AccPass::start(alloc, values.as_slice(), AccOp::Add, Ty::U32)?;
    give(&pass, &mut seat, 10);
    joined(alloc, pass.finish(alloc, seat)?)
}

fn at(cells: &[u32], place: usize) -> u32 {
    match cells.get(place) {
        Some(word) => *word,
        None => 0,
    }
}

#[test]
fn parts_are_made_and_ended_by_workers(rt: HostRuntime) -> Result<(), Fail> {
    for workers in [1, 2, 16] {
        let all = two_parts(&rt, rt.alloc(), workers)?;
        let cells = all.as_slice();
        assert_eq!(rt; cells.len(), 65_540);
        assert_eq!(rt; [at(cells, 0), at(cells, 1)], [117, 7]);
        assert_eq!(rt; [at(cells, 65_534), at(cells, 65_535)], [7, 117]);
        assert_eq!(rt; [at(cells, 65_536), at(cells, 65_537)], [1117, 7]);
        assert_eq!(rt; [at(cells, 65_538), at(cells, 65_539)], [7, 117]);
    }
    Ok(())
}

#[test]
fn parts_are_made_and_ended_alone(rt: HostRuntime) -> Result<(), Fail> {
    let all = two_parts_alone(rt.alloc())?;
    let cells = all.as_slice();
    assert_eq!(rt; cells.len(), 65_540);
    assert_eq!(rt; [at(cells, 0), at(cells, 1)], [17, 7]);
    assert_eq!(rt; [at(cells, 65_535), at(cells, 65_536)], [17, 17]);
    Ok(())
}
