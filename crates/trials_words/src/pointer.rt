ghost use Rattle.std.specs.Prelude.{◌≡◌, ◌-◌, ◌<◌, ◌≤◌, [], ◌∷◌, length, replicate, IfOk};
ghost use Rattle.std.specs.List.{range_with_len};
ghost use Rattle.std.specs.Thread.{IsSync};
ghost use Rattle.sg_words.specs.RaceMachine.{newcomer};
ghost use Rattle.sg_words.specs.RaceInvariant.{handed_share};
ghost use Rattle.sg_pointer.specs.Seats.{old_links, worker_of, IsSeatOf};

use sg_pointer::{Ask, AskSeat, Linked, PointerPass};
use sg_words::{Items, Memory};
use std::alloc::Global;
use std::test::Fail;
use std::thread::{Threads, join};

// Four slots, of which the second holds 4, and a stock of three numbers.
fn pass_of_four(alloc: Global) -> Result<(PointerPass, AskSeat), Memory>
    ensures seat { IfOk result (λ r. IsSeatOf r.0 r.1) }
    ensures slots { IfOk result (λ r. length (old_links r.0) ≡ 4) }
    ensures worker { IfOk result (λ r. worker_of r.1 ≡ newcomer (3 ∷ []) 16) }
{
    let links = Items::from_slice(alloc, &[0, 5, 0, 0])?;
    let stock = Items::from_slice(alloc, &[7, 8, 9])?;
    PointerPass::start(alloc, links, stock)
}

fn ask_two(
    pass: &PointerPass,
    mut seat: AskSeat,
    first: usize,
    second: usize,
) -> (AskSeat, Ask, Ask)
    requires own { IsSeatOf pass.now seat }
    requires inside { (first < length (old_links pass.now)) × (second < length (old_links pass.now)) }
    ensures own { IsSeatOf pass.now result.0 }
    ensures share { ((worker_of result.0).share ≡ (worker_of seat).share) × ((worker_of result.0).back ≡ (worker_of seat).back) }
{
    let one = pass.ask(&mut seat, first);
    let two = pass.ask(&mut seat, second);
    (seat, one, two)
}

#[test]
fn a_stock_is_handed_out(rt: HostRuntime) -> Result<(), Fail> {
    let (pass, seat) = pass_of_four(rt.alloc())?;
    let (seat, old, new) = ask_two(&pass, seat, 1, 0);
    let linked = pass.finish(rt.alloc(), seat)?;
    assert_eq!(rt; [old, new], [Ask::Node(4), Ask::Node(7)]);
    assert!(rt; linked.links.as_slice() == [8, 5, 0, 0].as_slice());
    assert!(rt; linked.taken.as_slice() == [7].as_slice());
    Ok(())
}

// A hundred empty slots.
fn hundred_slots(alloc: Global) -> Result<Items<u64>, Memory>
    ensures { IfOk result (λ links. links ≡ replicate 100 0) }
{
    let links = Items::from_slice(alloc, &[0; 100])?;
    Ok(links)
}

// The numbers from 1000 on.
fn numbers(alloc: Global, count: u32) -> Result<Items<u32>, Memory>
    requires few { count ≤ 108 }
    ensures { IfOk result (λ stock. stock ≡ range_with_len 1000 count) }
{
    let mut stock = Items::new(alloc);
    for t in 0..count {
        stock.push(1000 + t)?;
    }
    Ok(stock)
}

fn pass_of_hundred(alloc: Global, count: u32) -> Result<(PointerPass, AskSeat), Memory>
    requires few { count ≤ 108 }
    ensures seat { IfOk result (λ r. IsSeatOf r.0 r.1) }
    ensures slots { IfOk result (λ r. length (old_links r.0) ≡ 100) }
    ensures share { IfOk result (λ r. (worker_of r.1).share ≡ 16) }
    ensures weight { IfOk result (λ r. handed_share (worker_of r.1) ≡ 16) }
{
    let links = hundred_slots(alloc)?;
    let stock = numbers(alloc, count)?;
    PointerPass::start(alloc, links, stock)
}

// One worker asks for as many slots as there is place for answers, from this one on and round the end.
fn ask_round(pass: &PointerPass, mut seat: AskSeat, first: usize, answers: &mut [Ask]) -> AskSeat
    requires own { IsSeatOf pass.now seat }
    requires slots { length (old_links pass.now) ≡ 100 }
    ensures own { IsSeatOf pass.now result }
    ensures weight { handed_share (worker_of result) ≡ handed_share (worker_of seat) }
{
    for i in 0..answers.len() {
        answers[i] = pass.ask(&mut seat, first.wrapping_add(i) % 100);
    }
    seat
}

// Workers in threads ask for slots, each from 12 slots after the one before it, with equal places for their answers.
fn race<R: Threads + Sync>(
    rt: &R,
    pass: &PointerPass,
    mut seat: AskSeat,
    workers: usize,
    first: usize,
    answers: &mut [Ask],
) -> AskSeat
    requires own { IsSeatOf pass.now seat }
    requires slots { length (old_links pass.now) ≡ 100 }
    requires share { workers ≤ (worker_of seat).share }
    ensures own { IsSeatOf pass.now result }
    ensures weight { handed_share (worker_of result) ≡ handed_share (worker_of seat) }
{
    if workers < 2 {
        return ask_round(pass, seat, first, answers);
    }
    let half = workers / 2;
    let other = pass.split(&mut seat);
    let (mine, theirs) = answers.split_at_mut(answers.len() / 2);
    let (mut seat, other) = join(
        rt,
        move || -> AskSeat
            requires { IsSync R.row × IsSeatOf pass.now seat × (length (old_links pass.now) ≡ 100) × (workers - half ≤ (worker_of seat).share) × (half ≤ workers) }
            ensures { IsSeatOf pass.entry.now result × (handed_share (worker_of result) ≡ handed_share (worker_of seat)) }
        { race(rt, pass, seat, workers - half, first, mine) },
        move || -> AskSeat
            requires { IsSync R.row × IsSeatOf pass.now other × (length (old_links pass.now) ≡ 100) × (half ≤ (worker_of other).share) }
            ensures { IsSeatOf pass.entry.now result × (handed_share (worker_of result) ≡ handed_share (worker_of other)) }
        {
            race(
                rt,
                pass,
                other,
                half,
                first.wrapping_add(half.wrapping_mul(12)),
                theirs,
            )
        },
    );
    pass.join(&mut seat, other);
    seat
}

// A pass of eight workers over a hundred slots and a stock of so many numbers.
fn raced<R: Threads + Sync>(
    rt: &R,
    alloc: Global,
    count: u32,
    answers: &mut [Ask],
) -> Result<Linked, Memory>
    requires few { count ≤ 108 }
{
    let (pass, seat) = pass_of_hundred(alloc, count)?;
    let seat = race(rt, &pass, seat, 8, 0, answers);
    pass.finish(alloc, seat)
}

// Each answer is the number that its slot holds at the end, and the pass is dry just when an answer is.
fn answers_agree(linked: &Linked, answers: &[Ask]) -> bool {
    let links = linked.links.as_slice();
    let mut dry = false;
    for (i, answer) in answers.iter().enumerate() {
        let worker = i / 100;
        match answer {
            Ask::Node(number) => {
                let slot = i.wrapping_add(worker.wrapping_mul(12)) % 100;
                if slot >= links.len() || links[slot] != u64::from(*number) + 1 {
                    return false;
                }
            }
            Ask::Dry => dry = true,
        }
    }
    dry == linked.dry
}

// Marks the numbers, each of the stock and not marked before.
fn marked(marks: &mut [bool], numbers: &[u32]) -> bool {
    for number in numbers {
        let ticket = number.wrapping_sub(1000) as usize;
        if ticket >= marks.len() || marks[ticket] {
            return false;
        }
        marks[ticket] = true;
    }
    true
}

// The numbers taken are those of the links, slot after slot.
fn taken_are_linked(links: &[u64], taken: &[u32]) -> bool {
    let mut rest = taken.iter();
    for link in links {
        if *link != 0 {
            match rest.next() {
                Some(number) if u64::from(*number) + 1 == *link => {}
                _ => return false,
            }
        }
    }
    rest.next().is_none()
}

// Numbers taken and spares are distinct numbers of the stock, the spares at most as many as workers; a dry pass leaves no other number.
fn numbers_agree(linked: &Linked, count: usize) -> bool {
    let mut all = [false; 108];
    if count > all.len() {
        return false;
    }
    let marks = &mut all[..count];
    let taken = linked.taken.as_slice();
    let spares = linked.spares.as_slice();
    marked(marks, taken)
        && marked(marks, spares)
        && taken_are_linked(linked.links.as_slice(), taken)
        && spares.len() <= 8
        && (!linked.dry || taken.len().wrapping_add(spares.len()) == count)
}

// So many passes over a stock of so many numbers: a hundred slots are wanted.
static ROUNDS: [(usize, u32); 2] = [(1000, 60), (20, 108)];

#[test]
fn eight_workers_contend(rt: HostRuntime) -> Result<(), Fail> {
    let mut answers = [Ask::Dry; 800];
    for (passes, count) in ROUNDS {
        for pass in 0..passes {
            let linked = raced(&rt, rt.alloc(), count, &mut answers)?;
            assert!(rt; answers_agree(&linked, &answers), "pass {pass}");
            assert!(rt; numbers_agree(&linked, count as usize), "pass {pass}");
            assert_eq!(rt; linked.dry, count < 100);
        }
    }
    Ok(())
}
