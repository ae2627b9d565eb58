use crate::pool::Step::{Back, Draw, Settle};
use sg_pool::Pool;
use sg_words::Memory;
use std::alloc::Global;
use std::test::Fail;

#[test]
fn numbers_are_copied(rt: HostRuntime) -> Result<(), Fail> {
    let mut pool = Pool::make(rt.alloc(), 3)?;
    pool.settle(&[1]);
    let copy = pool.copy(rt.alloc())?;
    let stock = copy.stock(rt.alloc())?;
    assert_eq!(rt; stock.len(), 2);
    assert!(rt; stock.as_slice().contains(&0) && stock.as_slice().contains(&2));
    Ok(())
}

#[test]
fn numbers_are_drawn(rt: HostRuntime) -> Result<(), Fail> {
    let mut pool = Pool::make(rt.alloc(), 1)?;
    let drawn = pool.draw();
    assert_eq!(rt; drawn, Some(0));
    assert_eq!(rt; (pool.places(), pool.live(), pool.is_live(0)), (1, 1, true));
    Ok(())
}

/// A number of the stock is taken, a live one comes back, or the stock's first is drawn.
#[derive(Clone, Copy)]
enum Step {
    Settle(u32),
    Back(u32),
    Draw(Option<u32>),
}

/// Steps with a pool of six, and the stock after each, of which a front has two numbers: what was passed or came back is taken before
/// what was never taken.
static STEPS: [(Step, &[u32]); 14] = [
    (Settle(3), &[0, 1, 2, 4, 5]),
    (Draw(Some(0)), &[1, 2, 4, 5]),
    (Draw(Some(1)), &[2, 4, 5]),
    (Back(0), &[0, 2, 4, 5]),
    (Back(3), &[3, 0, 2, 4, 5]),
    (Settle(2), &[3, 0, 4, 5]),
    (Settle(5), &[3, 0, 4]),
    (Draw(Some(3)), &[0, 4]),
    (Back(5), &[5, 0, 4]),
    (Settle(0), &[5, 4]),
    (Draw(Some(5)), &[4]),
    (Draw(Some(4)), &[]),
    (Draw(None), &[]),
    (Back(1), &[1]),
];

/// Whether the step can be gone, and goes so.
fn goes(pool: &mut Pool, step: Step) -> bool {
    match step {
        Settle(number) => {
            if number >= pool.places() || pool.is_live(number) {
                return false;
            }
            pool.settle(&[number]);
            true
        }
        Back(number) => {
            if number >= pool.places() || !pool.is_live(number) {
                return false;
            }
            pool.give_back(number);
            true
        }
        Draw(number) => pool.draw() == number,
    }
}

/// Whether a pool goes through all steps with these stocks.
fn goes_on(alloc: Global, pool: &mut Pool) -> Result<bool, Memory> {
    for (step, want) in &STEPS {
        if !goes(pool, *step) {
            return Ok(false);
        }
        let stock = pool.stock(alloc)?;
        let front = pool.stock_front(alloc, 2)?;
        if stock.as_slice() != *want || front.as_slice() != &want[..want.len().min(2)] {
            return Ok(false);
        }
    }
    Ok(true)
}

#[test]
fn numbers_come_back(rt: HostRuntime) -> Result<(), Fail> {
    let mut pool = Pool::make(rt.alloc(), 6)?;
    assert!(rt; goes_on(rt.alloc(), &mut pool)?);
    Ok(())
}
