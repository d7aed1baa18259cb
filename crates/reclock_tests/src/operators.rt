// Operators that reclock one source.
ghost use Rattle.reclock_client.specs.Operators.{IsSound};
ghost use Rattle.reclock_client.specs.Asking.{InTurn};

use crate::answers::Word;
use crate::knowledge::{are_three, knows};
use crate::scenes::{close, joined, mint, publish, source, store_failing, sync};
use crate::shards::data_rows;
use reclock_client::Operator;
use remap_core::unbound;
use std::alloc::Global;
use std::test::Fail;
use test_stores::UntoldStore;

// Two operators that have seen different offsets mint at 10, 12 and 20. A mint at 12 that raises nothing moves the upper and makes no
// binding; one at 15 is then lost. Whether all of this is so.
fn mint_in_turn(
    alloc: Global,
    one: &mut Operator,
    other: &mut Operator,
    store: &mut UntoldStore,
) -> Result<bool, Fail>
    requires first { IsSound one.old }
    requires first_turn { InTurn one.old }
    requires second { IsSound other.old }
    requires second_turn { InTurn other.old }
    ensures first { IsSound one.new }
    ensures first_turn { InTurn one.new }
    ensures second { IsSound other.new }
    ensures second_turn { InTurn other.new }
{
    let first = mint(alloc, one, store, 0, 10, &[(0, 3)])?;
    let nothing = mint(alloc, one, store, 0, 12, &[(0, 1)])?;
    let second = mint(alloc, other, store, 1, 20, &[(0, 5), (1, 2)])?;
    let late = mint(alloc, one, store, 0, 15, &[(0, 4)])?;
    Ok(
        first == ("minted", 10)
            && nothing == ("minted", 12)
            && second == ("minted", 20)
            && late == ("lost", 21),
    )
}

// Whether the operator reads up to 21, and then knows the two bindings.
fn sync_knows(
    alloc: Global,
    operator: &mut Operator,
    store: &mut UntoldStore,
    client: u64,
) -> Result<bool, Fail>
    requires sound { IsSound operator.old }
    requires turn { InTurn operator.old }
    ensures sound { IsSound operator.new }
    ensures turn { InTurn operator.new }
{
    let word = sync(alloc, operator, store, client)?;
    let known = knows(alloc, operator)?;
    Ok(word == ("synced", 21) && known)
}

// Three operators mint, read and publish, and one of them leaves. Whether each knows the two bindings, publishes up to 21, and the data
// shard has its rows.
fn agree(alloc: Global, store: &mut UntoldStore) -> Result<bool, Fail> {
    let (mut one, _) = joined(alloc, store, 0)?;
    let (mut other, _) = joined(alloc, store, 1)?;
    let (mut third, opened) = joined(alloc, store, 2)?;
    let minted = mint_in_turn(alloc, &mut one, &mut other, store)?;
    let known = knows(alloc, &one)?;
    let shared = sync_knows(alloc, &mut other, store, 1)?;
    let shared_too = sync_knows(alloc, &mut third, store, 2)?;
    let published = publish(alloc, &mut other, store, 1)?;
    let after = publish(alloc, &mut one, store, 0)?;
    let left = close(alloc, &mut one, store, 0)?;
    let rows = data_rows(alloc, store)?;
    Ok(
        opened == ("opened", 0)
            && minted
            && known
            && shared
            && shared_too
            && published == ("published", 21)
            && after == ("published", 21)
            && left == ("closed", 0)
            && are_three(rows.as_slice(), [10, 20, 20]),
    )
}

#[test]
fn operators_agree(rt: HostRuntime) -> Result<(), Fail> {
    let mut store = store_failing(rt.alloc(), None)?;
    assert!(rt; agree(rt.alloc(), &mut store)?);
    Ok(())
}

// Whether they agree though this call fails.
fn agree_beside(alloc: Global, number: u64, took: bool) -> Result<bool, Fail> {
    let mut store = store_failing(alloc, Some((number, took)))?;
    agree(alloc, &mut store)
}

#[test]
fn operators_agree_whichever_call_fails(rt: HostRuntime) -> Result<(), Fail> {
    for number in 0..60 {
        assert!(rt; agree_beside(rt.alloc(), number, true)?);
        assert!(rt; agree_beside(rt.alloc(), number, false)?);
    }
    Ok(())
}

// The operator mints at 10 and at 20, and reads what it has minted.
fn mint_alone(alloc: Global, one: &mut Operator, store: &mut UntoldStore) -> Result<(), Fail>
    requires sound { IsSound one.old }
    requires turn { InTurn one.old }
    ensures sound { IsSound one.new }
    ensures turn { InTurn one.new }
{
    mint(alloc, one, store, 0, 10, &[(0, 3)])?;
    mint(alloc, one, store, 0, 20, &[(0, 5), (1, 2)])?;
    sync(alloc, one, store, 0)?;
    Ok(())
}

// What one operator knows, what its publish comes to, and what the data shard then has.
fn publish_alone(alloc: Global, store: &mut UntoldStore) -> Result<(bool, usize, Word), Fail> {
    let (mut one, _) = joined(alloc, store, 0)?;
    mint_alone(alloc, &mut one, store)?;
    let known = knows(alloc, &one)?;
    let left = unbound(&source(alloc)?, one.bindings());
    let word = publish(alloc, &mut one, store, 0)?;
    Ok((known, left, word))
}

#[test]
fn one_operator_publishes(rt: HostRuntime) -> Result<(), Fail> {
    let alloc = rt.alloc();
    let mut store = store_failing(alloc, None)?;
    let (known, left, word) = publish_alone(alloc, &mut store)?;
    assert!(rt; known);
    assert_eq!(rt; left, 1);
    assert_eq!(rt; word, ("published", 21));
    assert!(rt; are_three(data_rows(alloc, &mut store)?.as_slice(), [10, 20, 20]));
    Ok(())
}
