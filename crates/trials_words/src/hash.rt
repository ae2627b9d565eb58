ghost use Rattle.std.specs.Prelude.{◌≡◌, ◌<◌, [], ◌∷◌, length, IfOk};
ghost use Rattle.sg_words.specs.RaceMachine.{newcomer};
ghost use Rattle.sg_hash.specs.Seats.{worker_of, IsSeatOf};
ghost use Rattle.sg_hash.specs.Tables.{IsTable, AreBeside};

use sg_hash::{Ask, HashLinked, HashPass, HashSeat, PagedRow, find_in, place_in, put_in};
use sg_words::{Items, Memory};
use std::alloc::Global;
use std::test::Fail;
use std::thread::{Threads, join};

fn ask_two(pass: &HashPass, mut seat: HashSeat, first: u32, second: u32) -> (HashSeat, Ask, Ask)
    requires own { IsSeatOf pass.now seat }
    ensures own { IsSeatOf pass.now result.0 }
    ensures share { ((worker_of result.0).share ≡ (worker_of seat).share) × ((worker_of result.0).back ≡ (worker_of seat).back) }
{
    let one = pass.ask(&mut seat, first);
    let two = pass.ask(&mut seat, second);
    (seat, one, two)
}

// Three empty places, and a stock of three numbers.
fn pass_of_three(alloc: Global) -> Result<(HashPass, HashSeat), Memory>
    ensures seat { IfOk result (λ r. IsSeatOf r.0 r.1) }
    ensures worker { IfOk result (λ r. worker_of r.1 ≡ newcomer (3 ∷ 3 ∷ []) 16) }
{
    let keys = Items::from_slice(alloc, &[0, 0, 0])?;
    let links = Items::from_slice(alloc, &[0, 0, 0])?;
    let stock = Items::from_slice(alloc, &[7, 8, 9])?;
    HashPass::start(alloc, keys, links, stock)
}

#[test]
fn keys_get_places_and_numbers(rt: HostRuntime) -> Result<(), Fail> {
    let (pass, seat) = pass_of_three(rt.alloc())?;
    let (seat, four, one) = ask_two(&pass, seat, 4, 1);
    let linked = pass.finish(rt.alloc(), seat)?;
    assert_eq!(rt; [four, one], [Ask::Node(7), Ask::Node(8)]);
    assert!(rt; linked.keys.as_slice() == [0, 5, 2].as_slice());
    assert!(rt; linked.links.as_slice() == [0, 8, 9].as_slice());
    assert!(rt; linked.taken.as_slice() == [7, 8].as_slice());
    Ok(())
}

// Two workers in threads ask for the same two keys, of one first place, the one in the other's order: their answers, key after key.
fn raced<R: Threads + Sync>(rt: &R, alloc: Global) -> Result<(HashLinked, [Ask; 4]), Memory> {
    let (pass, mut seat) = pass_of_three(alloc)?;
    let other = pass.split(&mut seat);
    let shared = &pass;
    let (mine, theirs) = join(
        rt,
        move || -> (HashSeat, Ask, Ask)
            requires { IsSeatOf shared.now seat }
            ensures { IsSeatOf shared.entry.now result.0 × ((worker_of result.0).share ≡ (worker_of seat).share) × ((worker_of result.0).back ≡ (worker_of seat).back) }
        { ask_two(shared, seat, 4, 1) },
        move || -> (HashSeat, Ask, Ask)
            requires { IsSeatOf shared.now other }
            ensures { IsSeatOf shared.entry.now result.0 × ((worker_of result.0).share ≡ (worker_of other).share) × ((worker_of result.0).back ≡ (worker_of other).back) }
        { ask_two(shared, other, 1, 4) },
    );
    let (mut seat, four, one) = mine;
    let (other, same_one, same_four) = theirs;
    pass.join(&mut seat, other);
    let linked = pass.finish(alloc, seat)?;
    Ok((linked, [four, same_four, one, same_one]))
}

// The number of a link word, if it has one.
fn answer_of(link: u64) -> Ask {
    match u32::try_from(link.wrapping_sub(1)) {
        Ok(number) => Ask::Node(number),
        Err(_) => Ask::Dry,
    }
}

// What stands beside a key word at the end.
fn answer_beside(linked: &HashLinked, word: u64) -> Ask {
    for (key, link) in linked.keys.as_slice().iter().zip(linked.links.as_slice()) {
        if *key == word {
            return answer_of(*link);
        }
    }
    Ask::Dry
}

#[test]
fn two_workers_contend(rt: HostRuntime) -> Result<(), Fail> {
    for pass in 0..500 {
        let (linked, answers) = raced(&rt, rt.alloc())?;
        let (four, one) = (answer_beside(&linked, 5), answer_beside(&linked, 2));
        assert!(rt; answers == [four, four, one, one], "pass {pass}");
        assert!(rt;
            four != Ask::Dry && one != Ask::Dry && four != one,
            "pass {pass}"
        );
        assert!(rt;
            linked.taken.len() == 2 && linked.spares.len() <= 1 && !linked.dry,
            "pass {pass}"
        );
    }
    Ok(())
}

#[test]
fn rows_are_kept_by_pages(rt: HostRuntime) -> Result<(), Fail> {
    let mut row = PagedRow::zeros(rt.alloc(), 200)?;
    assert_eq!(rt; row.next(0), None);
    row.set(130, 7);
    row.set(3, 9);
    row.set(70, 0);
    assert_eq!(rt; (row.get(3), row.get(70), row.get(130)), (9, 0, 7));
    assert_eq!(rt;
        (row.next(0), row.next(4), row.next(131)),
        (Some(3), Some(130), None)
    );
    let mut like = PagedRow::zeros(rt.alloc(), 200)?;
    like.set(70, 1);
    like.become_like(&row);
    assert_eq!(rt;
        (like.get(3), like.get(70), like.next(4)),
        (9, 0, Some(130))
    );
    Ok(())
}

#[test]
fn rows_are_copied(rt: HostRuntime) -> Result<(), Fail> {
    let mut row = PagedRow::zeros(rt.alloc(), 200)?;
    row.set(130, 7);
    let mut copy = row.copy(rt.alloc())?;
    assert_eq!(rt; (copy.len(), copy.next(0)), (row.len(), row.next(0)));
    let words = vec![in rt.alloc(); 5; copy.len()]?;
    copy.overwrite(words.as_slice());
    assert_eq!(rt; copy.whole(rt.alloc())?, words);
    Ok(())
}

// The keys of a table of eight places, all empty, and the links beside them.
fn no_keys(alloc: Global) -> Result<(PagedRow, PagedRow), Memory>
    ensures many { IfOk result (λ table. length table.0 ≡ 8) }
    ensures table { IfOk result (λ table. IsTable table.0) }
    ensures links { IfOk result (λ table. AreBeside table.0 table.1) }
{
    let keys = PagedRow::zeros(alloc, 8)?;
    let links = PagedRow::zeros(alloc, 8)?;
    Ok((keys, links))
}

// Whether a key that isn't in a table is put there with a number.
fn is_put(keys: &mut PagedRow, links: &mut PagedRow, key: u32, number: u32) -> bool
    requires some { 0 < length keys.old }
    requires table { IsTable keys.old }
    requires links { AreBeside keys.old links.old }
    ensures many { length keys.new ≡ length keys.old }
    ensures table { IsTable keys.new }
    ensures links { AreBeside keys.new links.new }
{
    match find_in(keys, links, key) {
        None => put_in(keys, links, key, number),
        Some(_number) => false,
    }
}

// Puts four keys that all begin at the first place, with the numbers from 10 on.
fn four_at_once(keys: &mut PagedRow, links: &mut PagedRow) -> [bool; 4]
    requires some { 0 < length keys.old }
    requires table { IsTable keys.old }
    requires links { AreBeside keys.old links.old }
    ensures many { length keys.new ≡ length keys.old }
    ensures table { IsTable keys.new }
    ensures links { AreBeside keys.new links.new }
{
    let one = is_put(keys, links, 0, 10);
    let two = is_put(keys, links, 5, 11);
    let three = is_put(keys, links, 13, 12);
    let four = is_put(keys, links, 18, 13);
    [one, two, three, four]
}

// Puts a key at its own place, one more that begins at the first place, and two that begin elsewhere, and then one for which no place is left.
fn five_more(keys: &mut PagedRow, links: &mut PagedRow) -> [bool; 5]
    requires some { 0 < length keys.old }
    requires table { IsTable keys.old }
    requires links { AreBeside keys.old links.old }
    ensures many { length keys.new ≡ length keys.old }
    ensures table { IsTable keys.new }
    ensures links { AreBeside keys.new links.new }
{
    let one = is_put(keys, links, 1, 14);
    let two = is_put(keys, links, 26, 15);
    let three = is_put(keys, links, 2, 16);
    let four = is_put(keys, links, 3, 17);
    let five = is_put(keys, links, 34, 18);
    [one, two, three, four, five]
}

// What a table says of a key, by its number and by its place.
fn asked(keys: &PagedRow, links: &PagedRow, key: u32) -> (Option<u32>, Option<usize>)
    requires some { 0 < length keys.now }
    requires table { IsTable keys.now }
    requires links { AreBeside keys.now links.now }
{
    (find_in(keys, links, key), place_in(keys, key))
}

#[test]
fn keys_are_put_and_found(rt: HostRuntime) -> Result<(), Fail> {
    let (mut keys, mut links) = no_keys(rt.alloc())?;
    let put = four_at_once(&mut keys, &mut links);
    assert_eq!(rt; put, [true, true, true, true]);
    assert_eq!(rt; asked(&keys, &links, 0), (Some(10), Some(0)));
    assert_eq!(rt; asked(&keys, &links, 13), (Some(12), Some(2)));
    assert_eq!(rt; asked(&keys, &links, 18), (Some(13), Some(3)));
    // absent: it begins where the four do
    assert_eq!(rt; asked(&keys, &links, 26), (None, None));
    let more = five_more(&mut keys, &mut links);
    assert_eq!(rt; more, [true, true, true, true, false]);
    assert_eq!(rt; asked(&keys, &links, 2), (Some(16), Some(6)));
    assert_eq!(rt; asked(&keys, &links, 34), (None, None));
    assert!(rt; keys.whole(rt.alloc())?.as_slice() == [1, 6, 14, 19, 2, 27, 3, 4].as_slice());
    assert!(rt; links.whole(rt.alloc())?.as_slice() == [11, 12, 13, 14, 15, 16, 17, 18].as_slice());
    Ok(())
}
