ghost use Rattle.std.specs.Prelude.{◌<◌, length};

use sg_dynamic::{LengthPass, fit_chunks, fit_front};
use sg_links::Links;
use sg_pool::Pool;
use sg_words::Items;
use std::test::Fail;

// As long as a chain may be.
const LONG: u32 = 32_768;

// The sum of the first chain's numbers, asked for place after place, 200 times: by walks along the chain it took minutes.
fn summed(chains: &Links) -> u64
    requires { 0 < length chains.now.lists }
{
    let mut sum = 0u64;
    for _round in 0..200 {
        for place in 0..LONG {
            if let Some(number) = chains.nth(0, place) {
                sum = sum.wrapping_add(u64::from(number));
            }
        }
    }
    sum
}

#[test]
fn a_long_chain_is_arranged(rt: HostRuntime) -> Result<(), Fail> {
    let mut chains = Links::make(rt.alloc(), LONG, 1)?;
    let mut pool = Pool::make(rt.alloc(), LONG)?;
    let fitted = fit_chunks(&mut chains, &mut pool, &[32_768], 1);
    assert_eq!(rt; fitted, Ok(()));
    assert_eq!(rt; (chains.len(0), pool.live()), (LONG, LONG));
    assert_eq!(rt; summed(&chains), 107_370_905_600);
    Ok(())
}

/// Of four chains the first two have lengths, in chunks of two: one of them gets two, and none the others.
#[test]
fn the_first_chains_grow(rt: HostRuntime) -> Result<(), Fail> {
    let mut chains = Links::make(rt.alloc(), 6, 4)?;
    let mut pool = Pool::make(rt.alloc(), 6)?;
    let fitted = fit_front(&mut chains, &mut pool, &[0, 3], 2);
    assert_eq!(rt; fitted, Ok(()));
    assert_eq!(rt; (chains.used(), pool.live()), (2, 2));
    assert_eq!(rt; (chains.len(0), chains.len(1), chains.len(3)), (0, 2, 0));
    Ok(())
}

#[test]
fn lengths_of_two_seats_are_raised(rt: HostRuntime) -> Result<(), Fail> {
    let lengths = Items::from_slice(rt.alloc(), &[1, 0, 7])?;
    let (pass, mut seat) = LengthPass::start(rt.alloc(), lengths)?;
    let mut other = pass.split(&mut seat);
    pass.raise(&mut seat, 0, 4);
    pass.raise(&mut other, 2, 5);
    pass.join(&mut seat, other);
    let lengths = pass.finish(seat)?;
    assert!(rt; lengths.as_slice() == [5, 0, 7].as_slice());
    Ok(())
}
