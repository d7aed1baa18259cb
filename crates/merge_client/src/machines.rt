// A compactor as a machine that is polled.
ghost use Rattle.std.specs.Prelude.{◌≡◌, OnErr, OnOk};
ghost use Rattle.load_core.specs.Setting as setting;
ghost use Rattle.token_machine.specs.Storings as storing;
ghost use Rattle.token_machine.specs.Storings.{resumed};
ghost use Rattle.merge_client.specs.Machining.{machine};
ghost use Rattle.merge_client.specs.Merging.{IsIdle, IsSound, PreparesPair, PreparesTry, owner};

use crate::compactors::Compactor;
use history_core::MergeAnswer;
use load_core::{Poll, Setting};
use machine_core::Machine;
use merge_core::{MergeDraft, Owner};
use spine_core::KeyList;
use state_core::Transition;
use std::alloc::{AllocError, Global};
use store_core::{BytesList, Call, Reply};

impl Machine for Compactor {
    type Answer = MergeAnswer;

    ghost words = { machine };

    fn prepare(&mut self, alloc: Global) -> Result<(), AllocError> {
        if self.reading.asked.is_none() {
            self.prepare_try(alloc)?;
        }
        Ok(())
    }

    fn next_call(&self) -> Result<Call, AllocError> {
        if self.reading.asked.is_some() {
            return self.reading.next_call();
        }
        self.storing.next_call()
    }

    fn react(&mut self, alloc: Global, reply: Reply) -> Result<Poll<MergeAnswer>, AllocError> {
        let poll = self.reaction(alloc, reply)?;
        self.settle(&poll);
        Ok(poll)
    }
}

impl Compactor {
    // Makes ready for the next call where nothing is read: a pair that is got is drafted before.
    fn prepare_try(&mut self, alloc: Global) -> Result<(), AllocError>
        requires sound { IsSound self.old }
        ensures prepares { OnOk result (PreparesPair self.old self.old.pair self.new) }
        ensures sound { storing.IsSound self.new.storing }
        ensures memory { OnErr result (self.new ≡ self.old) }
    {
        match &self.pair {
            Some(pair) => {
                let draft = pair.draft(alloc, self.owner())?;
                self.resume(alloc, draft)
            }
            None => {
                self.storing.prepare(alloc)?;
                Ok(())
            }
        }
    }

    // Whose its merge is.
    fn owner(&self) -> Owner
        ensures { result ≡ owner self.now }
    {
        Owner {
            shard: self.storing.trying.loader.shard(),
            member: self.own_member(),
            token: self.token,
        }
    }

    // A draft takes its place, if there is memory to try it.
    fn resume(&mut self, alloc: Global, draft: MergeDraft) -> Result<(), AllocError>
        requires idle { IsIdle self.old.storing }
        requires parts { setting.IsSound draft.setting }
        requires sound { storing.IsSound self.old.storing }
        ensures prepares { OnOk result (PreparesTry self.old (resumed self.old.storing draft.step draft.setting) self.new) }
        ensures sound { storing.IsSound self.new.storing }
        ensures memory { OnErr result (self.new ≡ self.old) }
    {
        self.storing.resume(draft.step, draft.setting);
        match self.storing.prepare(alloc) {
            Ok(_) => {
                self.pair = None;
                Ok(())
            }
            Err(fault) => {
                let none = Setting::of(KeyList::new(alloc), BytesList::new(alloc));
                self.storing.resume(Transition::Init, none);
                Err(fault)
            }
        }
    }
}
