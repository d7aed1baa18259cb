ghost use Rattle.std.specs.Prelude.{◌≡◌, IfOk, length};
ghost use Rattle.load_core.specs.Getting.{IsSound as IsGettable};
ghost use Rattle.load_core.specs.Setting.{IsSound as IsSettable};

use load_core::*;
use part_codec::PartFault;
use spine_core::KeyList;
use std::alloc::Global;
use std::test::Fail;
use store_core::{
    Bytes, BytesList, DirectPort, FaultAt, FaultList, MemStore, PartKey, Port, ShardId, Turn,
};
use update_core::{Datum, Update, UpdateList, consolidate, weight};

// The part with the one row (a, 3, 1).
const LIGHT: [u8; 27] = [
    0x50, 0x41, 0x52, 0x54, 1, 0, 0, 0, 1, 1, 0x61, 0, 0, 0, 0, 0, 0, 0, 3, 0, 0, 0, 0, 0, 0, 0, 1,
];

// The part with the one row (a, 3, 2^62).
const HEAVY: [u8; 27] = [
    0x50, 0x41, 0x52, 0x54, 1, 0, 0, 0, 1, 1, 0x61, 0, 0, 0, 0, 0, 0, 0, 3, 0x40, 0, 0, 0, 0, 0, 0,
    0,
];

fn key(index: u64) -> PartKey {
    PartKey {
        shard: ShardId(1),
        member: 0,
        token: 1,
        index,
    }
}

fn keys(alloc: Global) -> Result<KeyList, Fail>
    ensures { IfOk result (λ keys. length keys ≡ 2) }
{
    let mut keys = KeyList::new(alloc);
    keys.push(key(0))?;
    keys.push(key(1))?;
    Ok(keys)
}

// Two parts with these bytes, of which none is set.
fn two(alloc: Global, first: &[u8], second: &[u8]) -> Result<Setting, Fail>
    ensures { IfOk result IsSettable }
{
    let keys = keys(alloc)?;
    let mut parts = BytesList::new(alloc);
    parts.push(Bytes::of(alloc, first.to_vec(alloc)?)?)?;
    parts.push(Bytes::of(alloc, second.to_vec(alloc)?)?)?;
    Ok(Setting::of(keys, parts))
}

fn set_word(progress: Progress) -> &'static str {
    match progress {
        Progress::More => "more",
        Progress::Done => "done",
        Progress::Fault => "fault",
    }
}

// One call more, unless all parts are set.
fn set_one<P: Port>(port: &mut P, setting: &mut Setting) -> Result<&'static str, Fail>
    requires { IsSettable setting.old }
    ensures { IsSettable setting.new }
{
    if setting.is_done() {
        return Ok("over");
    }
    let call = setting.next_call()?;
    match port.try_call(&call)? {
        Turn::Busy => Ok("busy"),
        Turn::Reply(reply) => Ok(set_word(setting.react(reply))),
    }
}

fn got_word(fetched: Fetched) -> (&'static str, u64) {
    match fetched {
        Fetched::More => ("more", 0),
        Fetched::Done => ("done", 0),
        Fetched::Fault => ("fault", 0),
        Fetched::Missing { key } => ("missing", key.index),
        Fetched::Damaged(Damage::Part { fault, .. }) => match fault {
            PartFault::Short { place } => ("short", place),
            _ => ("another fault", 0),
        },
        Fetched::Damaged(Damage::Weight { key }) => ("weight", key.index),
        Fetched::Damaged(_) => ("another damage", 0),
    }
}

// One call more, unless all parts are got.
fn get_one<P: Port>(
    alloc: Global,
    port: &mut P,
    getting: &mut Getting,
) -> Result<(&'static str, u64), Fail>
    requires { IsGettable getting.old }
    ensures { IsGettable getting.new }
{
    if getting.is_done() {
        return Ok(("over", 0));
    }
    let call = getting.next_call();
    match port.try_call(&call)? {
        Turn::Busy => Ok(("busy", 0)),
        Turn::Reply(reply) => Ok(got_word(getting.react(alloc, reply)?)),
    }
}

#[test]
fn a_failed_set_is_made_again(rt: HostRuntime) -> Result<(), Fail> {
    let alloc = rt.alloc();
    let mut faults = FaultList::new(alloc);
    faults.push(FaultAt {
        number: 1,
        took: false,
    })?;
    let mut store = MemStore::new(alloc, faults);
    let mut port = DirectPort::new(&mut store, 7);
    let mut setting = two(alloc, &LIGHT, &LIGHT)?;
    assert_eq!(rt; set_one(&mut port, &mut setting)?, "more");
    assert_eq!(rt; set_one(&mut port, &mut setting)?, "fault");
    assert_eq!(rt; setting.place, 1);
    assert_eq!(rt; set_one(&mut port, &mut setting)?, "done");
    assert_eq!(rt; set_one(&mut port, &mut setting)?, "over");
    let mut getting = Getting::of(alloc, keys(alloc)?);
    assert_eq!(rt; get_one(alloc, &mut port, &mut getting)?, ("more", 0));
    assert_eq!(rt; get_one(alloc, &mut port, &mut getting)?, ("done", 0));
    assert_eq!(rt; getting.weight, 2);
    assert_eq!(rt; getting.into_rows().as_slice().len(), 2);
    Ok(())
}

// What getting two parts with these bytes comes to, the second after the first.
fn got_second(alloc: Global, first: &[u8], second: &[u8]) -> Result<(&'static str, u64), Fail> {
    let mut store = MemStore::new(alloc, FaultList::new(alloc));
    let mut port = DirectPort::new(&mut store, 7);
    let mut setting = two(alloc, first, second)?;
    set_one(&mut port, &mut setting)?;
    set_one(&mut port, &mut setting)?;
    let mut getting = Getting::of(alloc, keys(alloc)?);
    get_one(alloc, &mut port, &mut getting)?;
    get_one(alloc, &mut port, &mut getting)
}

#[test]
fn what_is_wrong_with_parts_is_told(rt: HostRuntime) -> Result<(), Fail> {
    let alloc = rt.alloc();
    assert_eq!(rt; got_second(alloc, &LIGHT, &LIGHT)?, ("done", 0));
    assert_eq!(rt; got_second(alloc, &LIGHT, &LIGHT[..26])?, ("short", 19));
    assert_eq!(rt; got_second(alloc, &LIGHT, &HEAVY)?, ("weight", 1));
    assert_eq!(rt; got_second(alloc, &LIGHT, &[])?, ("short", 0));
    let mut store = MemStore::new(alloc, FaultList::new(alloc));
    let mut port = DirectPort::new(&mut store, 7);
    let mut getting = Getting::of(alloc, keys(alloc)?);
    assert_eq!(rt; get_one(alloc, &mut port, &mut getting)?, ("missing", 0));
    assert_eq!(rt; getting.place, 0);
    Ok(())
}

#[test]
fn rows_are_cut_into_parts(rt: HostRuntime) -> Result<(), Fail> {
    let alloc = rt.alloc();
    let mut rows = UpdateList::new(alloc);
    rows.push(Update {
        datum: Datum::of(alloc, b"a")?,
        time: 3,
        diff: 1,
    })?;
    assert!(rt; weight(&rows) <= 1 << 62);
    let rows = consolidate(alloc, rows)?;
    let setting = cut_parts(alloc, ShardId(1), 0, 1, rows.as_slice())?;
    assert_eq!(rt; setting.parts.as_slice().len(), 1);
    assert_eq!(rt; setting.parts.as_slice()[0].as_slice(), LIGHT.as_slice());
    assert!(rt; setting.keys.as_slice()[0] == key(0));
    Ok(())
}
