//! Rings between two sides.

use mm_tie::{agree, hand_over, pair};
use std::test::Fail;

/// What is handed over comes out as it went in, up to the ring's room.
#[test]
fn items_are_handed_over(rt: HostRuntime) -> Result<(), Fail> {
    let (mut giver, mut taker) = pair(rt.alloc(), 2)?;
    let first = hand_over(&mut giver, &mut taker, 7u64);
    let second = hand_over(&mut giver, &mut taker, 8u64);
    agree(&mut giver, &mut taker);
    assert_eq!(rt; (first, second), (7, 8));
    Ok(())
}
