use sg_mask::MaskPass;
use sg_words::Items;
use std::test::Fail;

#[test]
fn bits_of_two_seats_are_set(rt: HostRuntime) -> Result<(), Fail> {
    let masks = Items::from_slice(rt.alloc(), &[1, 0])?;
    let (pass, mut seat) = MaskPass::start(rt.alloc(), masks)?;
    let mut other = pass.split(&mut seat);
    pass.mark(&mut seat, 127);
    pass.mark(&mut other, 3);
    pass.join(&mut seat, other);
    let masks = pass.finish(seat)?;
    assert!(rt; masks.as_slice() == [9, 1 << 63].as_slice());
    Ok(())
}
