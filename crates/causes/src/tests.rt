use super::*;
use std::test::Fail;

#[test]
fn a_count_stands_still_at_its_end(rt: HostRuntime) {
    for (count, want) in [
        (0, 1),
        (7, 8),
        (u64::MAX - 1, u64::MAX),
        (u64::MAX, u64::MAX),
    ] {
        assert_eq!(rt; one_more(count), want, "after {count}");
    }
}

#[test]
fn numbers_are_kept_in_order(rt: HostRuntime) -> Result<(), Fail> {
    let mut numbers = NumberList::new(rt.alloc());
    numbers.push(5)?;
    numbers.push(3)?;
    assert_eq!(rt; numbers.as_slice(), [5, 3].as_slice());
    assert!(rt; numbers.contains(3) && !numbers.contains(4));
    let copy = numbers.copy(rt.alloc())?;
    assert_eq!(rt; copy.as_slice(), [5, 3].as_slice());
    Ok(())
}
