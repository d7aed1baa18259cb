use causes::NumberList;
use journal_core::*;
use std::alloc::Global;
use std::test::Fail;

fn begun(alloc: Global) -> Result<MemDisk, Fail> {
    let mut disk = MemDisk::new(alloc, NumberList::new(alloc));
    begin(&mut disk)?;
    Ok(disk)
}

#[test]
fn a_journal_begins_with_nine_bytes(rt: HostRuntime) -> Result<(), Fail> {
    let disk = begun(rt.alloc())?;
    assert_eq!(rt; disk.bytes(), b"PERSJNL1\x00".as_slice());
    assert_eq!(rt; disk.made(), 2);
    Ok(())
}

#[test]
fn an_image_has_what_was_written_in_part(rt: HostRuntime) -> Result<(), Fail> {
    let disk = begun(rt.alloc())?;
    let image = disk.image(1, 4)?;
    assert_eq!(rt; image.bytes(), b"PERS\x00\x00\x00\x00\x00".as_slice());
    let image = disk.image(2, 0)?;
    assert_eq!(rt; image.bytes(), b"PERSJNL1\x00".as_slice());
    Ok(())
}

#[test]
fn a_file_is_a_disk(rt: HostRuntime) -> Result<(), Fail> {
    let path = "journal_core.test.store";
    let _ = std::fs::remove_file(&rt, path);
    let mut disk = FileDisk::open(&rt, path);
    assert_eq!(rt; disk.len()?, 0);
    begin(&mut disk)?;
    disk.write_at(9, b"more")?;
    disk.cut(11)?;
    disk.cut(20)?;
    disk.sync()?;
    assert_eq!(rt; disk.len()?, 11);
    let mut bytes = [0; 11];
    disk.read(0, &mut bytes)?;
    assert_eq!(rt; bytes.as_slice(), b"PERSJNL1\x00mo".as_slice());
    assert!(rt; disk.read(4, &mut bytes).is_err());
    // Nobody else writes in it until it is closed.
    let mut locked = FileDisk::open(&rt, path);
    assert!(rt; locked.len().is_err());
    drop(disk);
    let mut again = FileDisk::open(&rt, path);
    assert_eq!(rt; again.len()?, 11);
    std::fs::remove_file(&rt, path)?;
    let mut none = FileDisk::open(&rt, "/nowhere/at/all");
    assert!(rt; none.len().is_err());
    assert!(rt; none.sync().is_err());
    Ok(())
}
