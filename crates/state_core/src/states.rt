// State: the state of a shard.
ghost use Rattle.std.specs.Prelude.{◌≡◌, IfOk, option_copied};
ghost use Rattle.std.specs.List.{list_any};
ghost use Rattle.state_core.specs.Drafts.{drafted};
ghost use Rattle.state_core.specs.Refusals.{member_of};
ghost use Rattle.state_core.specs.States.{IsState, floor};
ghost use Rattle.state_core.specs.Steps.{init, is_out};

use crate::drafts::Draft;
use crate::member_lists::MemberList;
use crate::members::Member;
use spine_core::Spine;
use std::alloc::{AllocError, Global};
use std::marker::Model;
use store_core::ShardId;
use update_core::Frontier;

/// The state of a shard: its members, and the batches of its collection. Each state keeps the rules of states.
#[derive(Drop)]
pub struct State {
    pub(crate) shard: ShardId,
    pub(crate) number: u64,
    pub(crate) next_member: u64,
    pub(crate) since: u64,
    pub(crate) upper: Frontier,
    pub(crate) weight: u64,
    pub(crate) members: MemberList,
    pub(crate) spine: Spine,
}

impl Model for State {
    ghost use Rattle.state_core.specs.States.{ShardState, IsState};

    ghost Value = { ShardState };

    ghost view = { λ s. record { shard = s.shard; number = s.number; next_member = s.next_member; since = s.since; upper = s.upper; weight = s.weight; members = s.members; batches = s.spine } };

    ghost invariant = { λ s. IsState (record { shard = s.shard; number = s.number; next_member = s.next_member; since = s.since; upper = s.upper; weight = s.weight; members = s.members; batches = s.spine }) };
}

impl State {
    /// The first state of a shard, with number 0, no member and no batch. It takes no memory.
    pub fn init(alloc: Global, shard: ShardId) -> State
        ensures { result ≡ init shard }
    {
        State {
            shard,
            number: 0,
            next_member: 0,
            since: 0,
            upper: Frontier::at(0),
            weight: 0,
            members: MemberList::new(alloc),
            spine: Spine::new(alloc),
        }
    }

    /// The state with these fields, which keep the rules of states.
    pub fn of(fields: Draft) -> State
        requires { IsState (drafted fields) }
        ensures { result ≡ drafted fields }
    {
        State {
            shard: fields.shard,
            number: fields.number,
            next_member: fields.next_member,
            since: fields.since,
            upper: fields.upper,
            weight: fields.weight,
            members: fields.members,
            spine: fields.spine,
        }
    }

    /// The shard's name.
    pub fn shard(&self) -> ShardId
        ensures { result ≡ self.now.shard }
    {
        self.shard
    }

    /// The number of the version of which this is the state.
    pub fn number(&self) -> u64
        ensures { result ≡ self.now.number }
    {
        self.number
    }

    /// The number that the next member gets.
    pub fn next_member(&self) -> u64
        ensures { result ≡ self.now.next_member }
    {
        self.next_member
    }

    /// The time from which on contents are known.
    pub fn since(&self) -> u64
        ensures { result ≡ self.now.since }
    {
        self.since
    }

    /// The frontier up to which contents are known.
    pub fn upper(&self) -> Frontier
        ensures { result ≡ self.now.upper }
    {
        self.upper
    }

    /// The sum of the absolute differences that were handed in.
    pub fn weight(&self) -> u64
        ensures { result ≡ self.now.weight }
    {
        self.weight
    }

    /// The members, their numbers rising.
    pub fn members(&self) -> &[Member]
        ensures members { result.now ≡ self.now.members }
        ensures state { IsState self.now }
    {
        self.members.as_slice()
    }

    /// The member with a number, where it stands.
    pub fn member(&self, number: u64) -> Option<&Member>
        ensures { option_copied result ≡ member_of number self.now.members }
    {
        self.members.find(number)
    }

    /// The least hold of the readers and keepers, or the state's number where none stands: the first version that
    /// someone may still need.
    pub fn floor(&self) -> u64
        ensures { result ≡ floor self.now }
    {
        self.members.least_hold(self.number)
    }

    /// Whether the lease of some member has run out at the moment `now`.
    pub fn is_due(&self, now: u64) -> bool
        ensures { result ≡ list_any (is_out now) self.now.members }
    {
        self.members.is_due(now)
    }

    /// The batches.
    pub fn spine(&self) -> &Spine
        ensures { result.now ≡ self.now.batches }
    {
        &self.spine
    }

    /// An equal state. It fails only for want of memory.
    pub fn copy(&self, alloc: Global) -> Result<State, AllocError>
        ensures { IfOk result (λ copy. copy ≡ self.now) }
    {
        let members = self.members.copy(alloc)?;
        let spine = self.spine.copy(alloc)?;
        Ok(State {
            shard: self.shard,
            number: self.number,
            next_member: self.next_member,
            since: self.since,
            upper: self.upper,
            weight: self.weight,
            members,
            spine,
        })
    }
}
