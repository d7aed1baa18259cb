use crate::{Tally, add_by_threads};
use std::test::Fail;
use turnstile::Turnstile;

// Eight threads with passes of their own, split from passes and joined in another order, leave a mark each, and each of a number of its own.
#[test]
fn eight_threads_add(rt: HostRuntime) -> Result<(), Fail> {
    let tally = Tally {
        from: 7,
        marks: Vec::new(rt.alloc()),
    };
    let Ok(done) = add_by_threads(&rt, rt.alloc(), tally, 1) else {
        panic!(rt; "no memory")
    };
    assert!(rt; done.from == 7);
    assert!(rt; done.marks.len() == 8);
    let mut sum = 0u64;
    let mut clients = 0u64;
    for mark in &done.marks {
        sum = sum.wrapping_add(mark.amount);
        clients |= 1u64.wrapping_shl((mark.client % 61) as u32);
    }
    assert!(rt; sum == 255);
    assert!(rt; clients.count_ones() == 8);
    Ok(())
}

// While one pass has the turn another is refused, and then it may take it.
#[test]
fn one_turn_at_a_time(rt: HostRuntime) -> Result<(), Fail> {
    let tally = Tally {
        from: 7,
        marks: Vec::new(rt.alloc()),
    };
    let Ok((turnstile, mut pass)) = Turnstile::new(rt.alloc(), tally) else {
        panic!(rt; "no memory")
    };
    let Ok(other) = turnstile.split(&mut pass) else {
        panic!(rt; "no number")
    };
    assert!(rt; pass.number() == 0);
    assert!(rt; other.number() == 1);
    let Ok(held) = turnstile.try_take(pass) else {
        panic!(rt; "the turn is free")
    };
    let (other, refused) = match turnstile.try_take(other) {
        Ok(second) => (second.give(), false),
        Err(other) => (other, true),
    };
    assert!(rt; refused);
    let mut pass = held.give();
    let (other, refused) = match turnstile.try_take(other) {
        Ok(second) => (second.give(), false),
        Err(other) => (other, true),
    };
    assert!(rt; !refused);
    turnstile.join(&mut pass, other);
    let tally = turnstile.close(pass);
    assert!(rt; tally.marks.is_empty());
    Ok(())
}
