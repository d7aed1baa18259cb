use state_core::*;
use std::alloc::{AllocError, Global};
use std::test::Fail;
use store_core::ShardId;
use version_codec::*;

const SHARD: ShardId = ShardId(1);

fn refusal(alloc: Global, bytes: &[u8]) -> (&'static str, u64) {
    match decode_version(alloc, SHARD, 2, bytes) {
        Ok(_) => ("none", 0),
        Err(VersionFault::Short { place }) => ("short", place),
        Err(VersionFault::Magic { place }) => ("magic", place),
        Err(VersionFault::Form { place }) => ("form", place),
        Err(VersionFault::Tag { place }) => ("tag", place),
        Err(VersionFault::Rule { place }) => ("rule", place),
        Err(VersionFault::Trailing { place }) => ("trailing", place),
        Err(VersionFault::Memory) => ("memory", 0),
    }
}

fn set(bytes: &mut Vec<u8>, at: usize, byte: u8) {
    if at < bytes.len() {
        bytes[at] = byte;
    }
}

fn all_but_the_last(bytes: &[u8]) -> &[u8] {
    match bytes {
        [] => bytes,
        [front @ .., _] => front,
    }
}

#[test]
fn the_first_version_has_49_bytes(rt: HostRuntime) -> Result<(), Fail> {
    let alloc = rt.alloc();
    let state = State::init(alloc, SHARD);
    let bytes = encode_version(alloc, &state, &Transition::Init)?;
    let bytes = bytes.as_slice();
    assert_eq!(rt; bytes.len(), 49);
    assert_eq!(rt; &bytes[..5], b"PVER\x01".as_slice());
    assert!(rt; bytes[5..].iter().all(|byte| *byte == 0));
    let found = refusal(alloc, bytes);
    assert!(rt; found.0 == "none");
    let found = refusal(alloc, all_but_the_last(bytes));
    assert!(rt; found.0 == "short" && found.1 == 48);
    let mut tagged = bytes.to_vec(alloc)?;
    set(&mut tagged, 48, 9);
    let found = refusal(alloc, &tagged);
    assert!(rt; found.0 == "tag" && found.1 == 48);
    Ok(())
}

fn put(bytes: &mut Vec<u8>, numbers: &[u64]) -> Result<(), AllocError> {
    for number in numbers {
        bytes.extend_from_slice(&number.to_be_bytes())?;
    }
    Ok(())
}

// A writer has joined and has added one row: version 2.
pub(crate) fn one_append(alloc: Global) -> Result<Vec<u8>, AllocError> {
    let mut bytes = Vec::new(alloc);
    bytes.extend_from_slice(b"PVER\x01")?;
    put(&mut bytes, &[1, 0])?;
    bytes.push(0)?;
    put(&mut bytes, &[5, 1])?;
    bytes.extend_from_slice(&[0, 1])?;
    put(&mut bytes, &[0])?;
    bytes.push(0)?;
    put(&mut bytes, &[0, 0, 0, 0, 1, 1, 0])?;
    bytes.push(0)?;
    put(&mut bytes, &[5, 0, 1, 1, 0, 1, 0])?;
    bytes.push(6)?;
    put(&mut bytes, &[0, 1, 0])?;
    bytes.push(0)?;
    put(&mut bytes, &[5, 1, 1, 1, 0, 1, 0])?;
    Ok(bytes)
}

#[test]
fn each_rule_has_its_place(rt: HostRuntime) -> Result<(), Fail> {
    let alloc = rt.alloc();
    let cases: [(usize, u8, &str, u64); 18] = [
        (999, 0, "none", 0),
        (3, 0, "magic", 0),
        (4, 2, "form", 4),
        (12, 3, "rule", 5),
        (21, 2, "tag", 21),
        (47, 1, "rule", 40),
        (48, 3, "tag", 48),
        (56, 1, "rule", 49),
        (88, 0, "rule", 146),
        (104, 1, "rule", 97),
        (113, 6, "rule", 105),
        (121, 1, "rule", 114),
        (129, 2, "rule", 122),
        (137, 2, "rule", 130),
        (145, 1, "rule", 138),
        (162, 8, "tag", 162),
        (186, 5, "rule", 162),
        (162, 0, "trailing", 163),
    ];
    for (at, byte, name, place) in cases {
        let mut bytes = one_append(alloc)?;
        set(&mut bytes, at, byte);
        let found = refusal(alloc, &bytes);
        assert!(rt; found.0 == name && found.1 == place, "the fault at {place}");
    }
    Ok(())
}
