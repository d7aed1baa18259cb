use super::*;
use std::test::Fail;

#[test]
fn a_delete_is_a_record(rt: HostRuntime) -> Result<(), Fail> {
    let alloc = rt.alloc();
    let new = disk_of(created(alloc, None)?);
    assert_eq!(rt; new.bytes(), b"PERSJNL1\x00".as_slice());
    let mut store = created(alloc, None)?;
    assert_eq!(rt; ask(&mut store, &Call::Delete { key: KEY })?, Seen::Deleted);
    let disk = disk_of(store);
    assert_eq!(rt; byte(&disk, 8), Some(1));
    assert_eq!(rt; byte(&disk, 58), Some(0));
    assert_eq!(rt; byte(&disk, 59), None);
    let damaged = with_byte(alloc, &disk, 17, 9)?;
    assert_eq!(rt; look_for(alloc, disk)?, Seen::Nothing);
    assert_eq!(rt; look_for(alloc, damaged)?, Seen::Damaged(8));
    assert_eq!(rt; look_for(alloc, holding(alloc, &[0])?)?, Seen::NotAStore);
    Ok(())
}

#[test]
fn a_crash_leaves_a_prefix(rt: HostRuntime) -> Result<(), Fail> {
    let alloc = rt.alloc();
    let call = Call::Set {
        key: KEY,
        bytes: bytes(alloc, &[7])?,
    };
    let mut store = created(alloc, None)?;
    assert_eq!(rt; ask(&mut store, &call)?, Seen::Stored);
    let disk = disk_of(store);
    assert_eq!(rt; disk.made(), 6);
    assert_eq!(rt; byte(&disk, 60), None);
    for written in 0..52 {
        assert_eq!(rt; look_at_image(alloc, &disk, 3, written)?, Seen::Nothing);
    }
    assert_eq!(rt; look_at_image(alloc, &disk, 4, 0)?, Seen::Nothing);
    assert_eq!(rt; look_at_image(alloc, &disk, 5, 0)?, Seen::Nothing);
    assert_eq!(rt; look_at_image(alloc, &disk, 5, 1)?, Seen::Byte(7));
    assert_eq!(rt; look_at_image(alloc, &disk, 6, 0)?, Seen::Byte(7));
    Ok(())
}

#[test]
fn a_disk_that_fails_shuts_the_store(rt: HostRuntime) -> Result<(), Fail> {
    let alloc = rt.alloc();
    let call = Call::Set {
        key: KEY,
        bytes: bytes(alloc, &[7])?,
    };
    let mut store = created(alloc, Some(3))?;
    assert_eq!(rt; ask(&mut store, &call)?, Seen::Failed);
    assert!(rt; store.shut());
    assert_eq!(rt; get(&mut store)?, Seen::Failed);
    assert_eq!(rt; disk_of(store).made(), 4);
    Ok(())
}

#[test]
fn each_image_of_a_run_has_what_was_answered(rt: HostRuntime) -> Result<(), Fail> {
    let alloc = rt.alloc();
    let mut store = created(alloc, None)?;
    assert_eq!(rt; set_in_turn(alloc, &mut store, 20)?, 20);
    let disk = disk_of(store);
    assert_eq!(rt; disk.made(), 82);
    for written in 0..53 {
        assert!(rt; images_hold(alloc, &disk, written)?, "with {written} bytes");
    }
    Ok(())
}

#[test]
fn each_fault_of_a_disk_leaves_what_was_answered(rt: HostRuntime) -> Result<(), Fail> {
    let alloc = rt.alloc();
    for at in 2..83 {
        assert!(rt; holds_after_fault(alloc, at)?, "a fault at {at}");
    }
    Ok(())
}

#[test]
fn a_file_that_is_no_store_is_left_alone(rt: HostRuntime) -> Result<(), Fail> {
    let alloc = rt.alloc();
    for text in [
        b"\x00".as_slice(),
        b"PERSJNL2\x00".as_slice(),
        b"a letter to a friend".as_slice(),
    ] {
        assert_eq!(rt; calls_of_refusal(alloc, text)?, Some(3));
    }
    Ok(())
}
