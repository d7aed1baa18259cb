// Compactor: a client that merges batches of a shard.
ghost use Rattle.std.specs.Prelude.{◌≡◌, Some, is_some};
ghost use Rattle.std.specs.Option.{option_copied};
ghost use Rattle.state_core.specs.declared.transitions.Transition.TheVariants.{Leave, Renew};
ghost use Rattle.merge_client.specs.Beginning.{Begins, Changing, MayAsk, Merging, member_fault, merge_fault};
ghost use Rattle.token_machine.specs.Storings.{begun, no_parts};
ghost use Rattle.merge_client.specs.Merging.{IsSound, opened};

use crate::dues::Due;
use crate::pairs::Pair;
use crate::taking::taken;
use history_core::Asked;
use load_core::{BeginFault, Loader, Setting};
use read_machine::Reading;
use spine_core::KeyList;
use state_core::{Kind, Transition};
use std::alloc::Global;
use store_core::{BytesList, ShardId};
use token_machine::Storing;

/// A compactor of one shard. It joins as a member with a lease when it is opened, merges the pair of batches that is due each
/// time it is asked to, under a token of its own, and leaves when it is closed. A command is begun and then polled until it
/// ends; each poll makes at most one call of the store. See docs/DEFINITIONS.md, "Compactors".
#[derive(Drop)]
pub struct Compactor {
    /// The transition and the parts of the open or the last command, the newest state that was seen while nothing is read,
    /// and the count of calls.
    pub(crate) storing: Storing,
    /// The member that it joined as, until it has left or was found to be gone.
    pub(crate) member: Option<u64>,
    /// The last token that was drawn.
    pub(crate) token: u64,
    /// The open command.
    pub(crate) asked: Option<Asked>,
    /// The open or the last reading of the pair that is due, which has the newest state while it is open.
    pub(crate) reading: Reading<Due>,
    /// The pair that is got, until its merge is drafted.
    pub(crate) pair: Option<Pair>,
    /// How many rows the left batch's parts hold, once a part of the right one is got.
    pub(crate) left_rows: usize,
}

impl Compactor {
    /// A compactor of the shard whose open has begun: it is to be polled until it has joined. Its lease begins at the moment
    /// `now` and runs out at `now + lease`, unless it is renewed. It takes no memory.
    pub fn open(alloc: Global, shard: ShardId, now: u64, lease: u64) -> Compactor
        ensures opened { result ≡ opened shard now lease }
        ensures sound { IsSound result }
    {
        let step = Transition::Join {
            kind: Kind::Keeper,
            now,
            lease,
        };
        Compactor {
            storing: Storing::new(alloc, Loader::new(shard), step),
            member: None,
            token: 0,
            asked: Some(Asked::OpenCompactor { shard, now, lease }),
            reading: Reading::new(alloc, shard),
            pair: None,
            left_rows: 0,
        }
    }

    /// Whether a command is open.
    pub fn busy(&self) -> bool
        ensures { result ≡ is_some self.now.asked }
    {
        self.asked.is_some()
    }

    /// The open command.
    pub fn asked(&self) -> Option<&Asked>
        ensures { option_copied result ≡ self.now.asked }
    {
        self.asked.as_ref()
    }

    /// How many calls of the store the polls of the open command have made, or else those of the last one. It stands still at
    /// 2^64 - 1.
    pub fn calls(&self) -> u64
        ensures { result ≡ self.now.storing.trying.calls }
    {
        self.storing.trying.calls
    }

    // The member for which a command may be begun.
    fn member_to_ask(&self) -> Result<u64, BeginFault>
        ensures { MayAsk self.now result }
    {
        if self.asked.is_some() {
            return Err(BeginFault::Open);
        }
        match self.member {
            Some(member) => Ok(member),
            None => Err(BeginFault::Gone),
        }
    }

    // A command that changes the member begins.
    fn begin_change(&mut self, alloc: Global, asked: Asked, step: Transition)
        ensures { self.new ≡ record self.old { asked = Some asked; storing = begun self.old.storing.trying.loader step no_parts } }
    {
        let none = Setting::of(KeyList::new(alloc), BytesList::new(alloc));
        self.storing.begin(step, none);
        self.asked = Some(asked);
    }

    /// Begins to merge the pair that is due in the state that a first scan will show, under the next token. The fault is the
    /// first of Gone (the open ended without Opened, the close is done, or the compactor has answered Expired), Open (a
    /// command is open) or TokensSpent; the compactor is then as it was. It takes no memory, as the other beginnings.
    pub fn begin_merge(&mut self, alloc: Global) -> Result<(), BeginFault>
        requires { IsSound self.old }
        ensures begins { Begins (merge_fault self.old) self.old self.new (Merging self.old) result }
        ensures sound { IsSound self.new }
    {
        let member = self.member_to_ask()?;
        if self.token == u64::MAX {
            return Err(BeginFault::TokensSpent);
        }
        self.token = self.token.saturating_add(1);
        let loader = taken(&mut self.storing.trying.loader);
        self.begin_change(alloc, Asked::Merge, Transition::Init);
        self.reading.begin(loader, member, Some(Due));
        Ok(())
    }

    /// Begins to renew the lease at the moment `now`. The faults are Gone and Open, as of `begin_merge`.
    pub fn begin_renew(&mut self, alloc: Global, now: u64) -> Result<(), BeginFault>
        requires { IsSound self.old }
        ensures begins { Begins (member_fault self.old.asked self.old.member) self.old self.new (Changing self.old (Asked.RenewCompactor now) (λ member. Renew member now)) result }
        ensures sound { IsSound self.new }
    {
        let member = self.member_to_ask()?;
        self.begin_change(
            alloc,
            Asked::RenewCompactor { now },
            Transition::Renew { member, now },
        );
        Ok(())
    }

    /// Begins to leave. The faults are Gone and Open, as of `begin_merge`.
    pub fn begin_close(&mut self, alloc: Global) -> Result<(), BeginFault>
        requires { IsSound self.old }
        ensures begins { Begins (member_fault self.old.asked self.old.member) self.old self.new (Changing self.old Asked.CloseCompactor (λ member. Leave member)) result }
        ensures sound { IsSound self.new }
    {
        let member = self.member_to_ask()?;
        self.begin_change(alloc, Asked::CloseCompactor, Transition::Leave { member });
        Ok(())
    }
}
