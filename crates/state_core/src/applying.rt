// What each transition makes of a state. Memory is taken before anything changes.
ghost use Rattle.std.specs.Prelude.{◌≡◌, ◌∷◌, ◌++◌, [], true, None, OnOk, OnErr, IfErr};
ghost use Rattle.update_core.specs.Frontiers.{covers, is_at};
ghost use Rattle.spine_core.specs.Spines.{spine_upper};
ghost use Rattle.state_core.specs.Applying.{IsRefusal, takes_memory};
ghost use Rattle.state_core.specs.Refusals.{refusal_of};
ghost use Rattle.state_core.specs.States.{greater_of};
ghost use Rattle.state_core.specs.Steps.{Applies, beat_of, since_of};

use crate::kinds::Kind;
use crate::members::Member;
use crate::refusals::Refusal;
use crate::states::State;
use crate::transitions::Transition;
use spine_core::{Batch, Desc, Spine, SpineFault};
use std::alloc::{AllocError, Global};

// 0 for a writer.
fn beat_of(kind: Kind, n: u64) -> u64
    ensures { result ≡ beat_of kind n }
{
    match kind {
        Kind::Writer => 0,
        _ => n,
    }
}

// 0 but for a reader.
fn since_of(kind: Kind, n: u64) -> u64
    ensures { result ≡ since_of kind n }
{
    match kind {
        Kind::Reader => n,
        _ => 0,
    }
}

// The greater of a number and another, where there is another.
fn greater_of(since: u64, least: Option<u64>) -> u64
    ensures { result ≡ greater_of since least }
{
    match least {
        None => since,
        Some(least) => since.max(least),
    }
}

// Adds the batch that follows the last one.
fn add_batch(spine: &mut Spine, batch: Batch) -> Result<(), AllocError>
    requires forward { covers batch.desc.upper batch.desc.lower ≡ true }
    requires next { is_at (spine_upper spine.old) batch.desc.lower ≡ true }
    ensures ok { OnOk result (spine.new ≡ spine.old ++ batch ∷ []) }
    ensures err { OnErr result (spine.new ≡ spine.old) }
{
    match spine.push(batch) {
        Ok(()) => Ok(()),
        Err(SpineFault::Memory) => Err(AllocError),
        Err(_) => unreachable!(),
    }
}

impl State {
    fn join(&mut self, kind: Kind, now: u64, lease: u64) -> Result<(), AllocError>
        requires { refusal_of self.old (Transition.Join kind now lease) ≡ None }
        ensures ok { OnOk result (Applies self.old (Transition.Join kind now lease) self.new) }
        ensures err { OnErr result (self.new ≡ self.old) }
    {
        let next = self.number + 1;
        let member = Member {
            number: self.next_member,
            kind,
            since: since_of(kind, self.since),
            hold: beat_of(kind, next),
            beat: beat_of(kind, now),
            lease: beat_of(kind, lease),
            token: 0,
        };
        self.members.push(member)?;
        self.next_member += 1;
        self.number = next;
        Ok(())
    }

    fn leave(&mut self, member: u64)
        requires { refusal_of self.old (Transition.Leave member) ≡ None }
        ensures { Applies self.old (Transition.Leave member) self.new }
    {
        let next = self.number + 1;
        self.members.remove(member);
        self.since = greater_of(self.since, self.members.least_since());
        self.number = next;
    }

    fn renew(&mut self, member: u64, now: u64)
        requires { refusal_of self.old (Transition.Renew member now) ≡ None }
        ensures { Applies self.old (Transition.Renew member now) self.new }
    {
        let next = self.number + 1;
        self.members.renew(member, now, next);
        self.number = next;
    }

    fn advance(&mut self, member: u64, to: u64)
        requires { refusal_of self.old (Transition.Advance member to) ≡ None }
        ensures { Applies self.old (Transition.Advance member to) self.new }
    {
        let next = self.number + 1;
        self.members.advance(member, to);
        self.since = greater_of(self.since, self.members.least_since());
        self.number = next;
    }

    fn expire(&mut self, now: u64)
        requires { refusal_of self.old (Transition.Expire now) ≡ None }
        ensures { Applies self.old (Transition.Expire now) self.new }
    {
        let next = self.number + 1;
        self.members.expire(now);
        self.since = greater_of(self.since, self.members.least_since());
        self.number = next;
    }

    fn append(
        &mut self,
        member: u64,
        token: u64,
        batch: Batch,
        weight: u64,
    ) -> Result<(), AllocError>
        requires fresh { batch.desc.since ≡ 0 }
        requires unrefused { let step = Transition.Append member token batch.desc.lower batch.desc.upper batch.parts batch.rows weight in
            refusal_of self.old step ≡ None }
        ensures ok { let step = Transition.Append member token batch.desc.lower batch.desc.upper batch.parts batch.rows weight in
            OnOk result (Applies self.old step self.new) }
        ensures err { OnErr result (self.new ≡ self.old) }
    {
        let next = self.number + 1;
        add_batch(&mut self.spine, batch)?;
        self.members.spend(member, token);
        self.upper = self.spine.upper();
        self.weight += weight;
        self.number = next;
        Ok(())
    }

    fn merge(&mut self, member: u64, token: u64, left: &Batch, right: &Batch, merged: Batch)
        requires { refusal_of self.old (Transition.Merge member token left.now right.now merged) ≡ None }
        ensures { Applies self.old (Transition.Merge member token left.now right.now merged) self.new }
    {
        let next = self.number + 1;
        let Ok(()) = self.spine.replace(left, right, merged) else {
            unreachable!();
        };
        self.members.spend_and_hold(member, token, next);
        self.number = next;
    }

    // Makes what the transition makes. Only a member or a batch that it brings takes memory.
    fn make(&mut self, alloc: Global, step: &Transition) -> Result<(), AllocError>
        requires { refusal_of self.old step.now ≡ None }
        ensures ok { OnOk result (Applies self.old step.now self.new) }
        ensures memory { OnErr result (takes_memory step.now ≡ true) }
        ensures unchanged { OnErr result (self.new ≡ self.old) }
    {
        match step {
            Transition::Init => unreachable!(),
            Transition::Join { kind, now, lease } => {
                self.join(*kind, *now, *lease)?;
            }
            Transition::Leave { member } => self.leave(*member),
            Transition::Renew { member, now } => self.renew(*member, *now),
            Transition::Advance { member, to } => self.advance(*member, *to),
            Transition::Expire { now } => self.expire(*now),
            Transition::Append {
                member,
                token,
                expected,
                new,
                parts,
                rows,
                weight,
            } => {
                let desc = Desc {
                    lower: *expected,
                    upper: *new,
                    since: 0,
                };
                let parts = parts.copy(alloc)?;
                let rows = *rows;
                self.append(*member, *token, Batch { desc, parts, rows }, *weight)?;
            }
            Transition::Merge {
                member,
                token,
                left,
                right,
                merged,
            } => {
                let merged = merged.copy(alloc)?;
                self.merge(*member, *token, left, right, merged);
            }
        }
        Ok(())
    }

    /// Makes the next state, whose number is one more. Where the transition meets a refusal that is the answer; else
    /// `Memory` where memory for the member or the batch that it brings is refused, so never for `Leave`, `Renew`,
    /// `Advance` and `Expire`. A refusal leaves the state as it was.
    pub fn apply(&mut self, alloc: Global, step: &Transition) -> Result<(), Refusal>
        ensures ok { OnOk result (Applies self.old step.now self.new) }
        ensures refused { IfErr result (λ refusal. IsRefusal self.old step.now refusal) }
        ensures unchanged { OnErr result (self.new ≡ self.old) }
    {
        match self.refusal_of(step) {
            Some(refusal) => Err(refusal),
            None => {
                self.make(alloc, step)?;
                Ok(())
            }
        }
    }
}
