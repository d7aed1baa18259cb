ghost use Rattle.std.specs.Prelude.{◌<◌};

use part_codec::*;
use std::alloc::Global;
use std::test::Fail;
use update_core::{Datum, Update, UpdateList, consolidate, weight};

// The part with the one row (a, 3, 1).
const PART: [u8; 27] = [
    0x50, 0x41, 0x52, 0x54, 1, 0, 0, 0, 1, 1, 0x61, 0, 0, 0, 0, 0, 0, 0, 3, 0, 0, 0, 0, 0, 0, 0, 1,
];

fn one_row(alloc: Global) -> Result<UpdateList, Fail> {
    let mut rows = UpdateList::new(alloc);
    rows.push(Update {
        datum: Datum::of(alloc, b"a")?,
        time: 3,
        diff: 1,
    })?;
    Ok(rows)
}

#[test]
fn a_row_is_spelled_and_read(rt: HostRuntime) -> Result<(), Fail> {
    let alloc = rt.alloc();
    let rows = one_row(alloc)?;
    assert!(rt; weight(&rows) <= 1 << 62);
    let rows = consolidate(alloc, rows)?;
    assert!(rt; rows.as_slice().len() <= 4096);
    let bytes = encode_part(alloc, rows.as_slice())?;
    assert_eq!(rt; bytes.as_slice(), PART.as_slice());
    let read = decode_part(alloc, bytes.as_slice())?;
    assert_eq!(rt; read.as_slice().len(), 1);
    let row = &read.as_slice()[0];
    assert_eq!(rt; row.datum.bytes(), b"a".as_slice());
    assert!(rt; row.time == 3 && row.diff == 1);
    Ok(())
}

fn refusal(alloc: Global, bytes: &[u8]) -> (&'static str, u64) {
    match decode_part(alloc, bytes) {
        Ok(_) => ("none", 0),
        Err(PartFault::Short { place }) => ("short", place),
        Err(PartFault::Magic { place }) => ("magic", place),
        Err(PartFault::Form { place }) => ("form", place),
        Err(PartFault::Size { place }) => ("size", place),
        Err(PartFault::Order { place }) => ("order", place),
        Err(PartFault::Zero { place }) => ("zero", place),
        Err(PartFault::Trailing { place }) => ("trailing", place),
        Err(PartFault::Memory) => ("memory", 0),
    }
}

fn changed(at: usize, byte: u8) -> [u8; 27]
    requires { at < 27 }
{
    let mut bytes = PART;
    bytes[at] = byte;
    bytes
}

#[test]
fn each_fault_has_its_place(rt: HostRuntime) -> Result<(), Fail> {
    let alloc = rt.alloc();
    let mut twice = changed(8, 2).to_vec(alloc)?;
    twice.extend_from_slice(&PART[9..])?;
    let mut longer = PART.to_vec(alloc)?;
    longer.push(7)?;
    let cases: [(&[u8], &str, u64); 12] = [
        (&PART, "none", 0),
        (&[], "short", 0),
        (&PART[..26], "short", 19),
        (&PART[..10], "short", 10),
        (&changed(0, 0), "magic", 0),
        (&changed(4, 2), "form", 4),
        (&changed(7, 0x10), "size", 5),
        (&changed(8, 0), "trailing", 9),
        (&changed(9, 0), "size", 9),
        (&changed(26, 0), "zero", 19),
        (&twice, "order", 27),
        (&longer, "trailing", 27),
    ];
    for (bytes, name, place) in cases {
        let found = refusal(alloc, bytes);
        assert!(rt; found.0 == name && found.1 == place, "the fault at {place}");
    }
    Ok(())
}
