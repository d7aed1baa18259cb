// Reader: a client that reads a shard.
ghost use Rattle.std.specs.Prelude.{◌≡◌, ◌<◌, ◌≤◌, ℕ, None, Some, Ok, Option, IfOk, OnErr, OnOk, is_some};
ghost use Rattle.std.specs.Option.{option_copied};
ghost use Rattle.causes.specs.Causes.{Rose};
ghost use Rattle.update_core.specs.Frontiers.{after};
ghost use Rattle.store_core.specs.Histories.{History};
ghost use Rattle.load_core.specs.declared.polls.Poll.TheVariants as polls;
ghost use Rattle.load_core.specs.Fronts.{Backwards, WhereLawful};
ghost use Rattle.load_core.specs.Trying as trying;
ghost use Rattle.machine_core.specs.Polling as machines;
ghost use Rattle.machine_core.specs.Polling.{CostGoesOn, LegalWhere, Polled, Unpolled};
ghost use Rattle.read_client.specs.Beginning.{Begins, BeginsRead, Changing, MayAsk, member_fault, next_fault};
ghost use Rattle.read_client.specs.Following.{FollowsWhere};
ghost use Rattle.read_client.specs.Machining.{machine};
ghost use Rattle.read_client.specs.Polling.{CostAt};
ghost use Rattle.read_client.specs.Reading.{IsOpen, IsSound, opened, shard_of};

use crate::questions::{Question, question_of};
use crate::taking::taken;
use history_core::{Asked, ReadAnswer};
use load_core::{BeginFault, Loader, Poll, Trying};
use read_machine::Reading;
use state_core::{Kind, Transition};
use std::alloc::{AllocError, Global};
use store_core::{Port, ShardId};
use update_core::Frontier;

/// A reader of one shard. It joins as a member with a lease when it is opened, and what it reads is kept for it while the lease
/// lasts; it leaves when it is closed. A command is begun and then polled until it ends; each poll makes at most one call of the
/// store. See docs/DEFINITIONS.md, "Writers and readers".
#[derive(Drop)]
pub struct Reader {
    /// The transition of the open or the last change, the newest state that was seen while nothing is read, and the count of calls.
    pub(crate) trying: Trying,
    /// The member that it joined as, until it has left or was found to be gone.
    pub(crate) member: Option<u64>,
    /// The open command.
    pub(crate) asked: Option<Asked>,
    /// The frontier of the listen that stands.
    pub(crate) listen: Option<Frontier>,
    /// The open or the last snapshot or listen, which has the newest state while it is open.
    pub(crate) reading: Reading<Question>,
}

impl Reader {
    /// A reader of the shard whose open has begun: it is to be polled until it has joined. Its lease begins at the moment `now` and
    /// runs out at `now + lease`, unless it is renewed. It takes no memory.
    pub fn open(alloc: Global, shard: ShardId, now: u64, lease: u64) -> Reader
        ensures opened { result ≡ opened shard now lease }
        ensures sound { IsSound result }
        // Over each front it follows, and is within the bound on the calls.
        ensures follows { (client : ℕ) (front : Option History) → FollowsWhere client front result }
        ensures cost { (base client : ℕ) (front : Option History) → 3 ≤ base → WhereLawful (shard_of result) front (Backwards (CostAt base client result)) }
    {
        let step = Transition::Join {
            kind: Kind::Reader,
            now,
            lease,
        };
        Reader {
            trying: Trying::new(Loader::new(shard), step),
            member: None,
            asked: Some(Asked::OpenReader { shard, now, lease }),
            listen: None,
            reading: Reading::new(alloc, shard),
        }
    }

    /// Whether a command is open.
    pub fn busy(&self) -> bool
        ensures { result ≡ is_some self.now.asked }
    {
        self.asked.is_some()
    }

    /// The open command.
    pub fn asked(&self) -> Option<&Asked>
        ensures { option_copied result ≡ self.now.asked }
    {
        self.asked.as_ref()
    }

    /// How many calls of the store the polls of the open command have made, or else those of the last one. It stands still at
    /// 2^64 - 1.
    pub fn calls(&self) -> u64
        ensures { result ≡ self.now.trying.calls }
    {
        self.trying.calls
    }

    /// The frontier of the listen, None where no listen stands: its next step begins there.
    pub fn frontier(&self) -> Option<Frontier>
        ensures { result ≡ self.now.listen }
    {
        self.listen
    }

    // The member for which a command may be begun.
    fn member_to_ask(&self) -> Result<u64, BeginFault>
        ensures { MayAsk self.now result }
    {
        if self.asked.is_some() {
            return Err(BeginFault::Open);
        }
        match self.member {
            Some(member) => Ok(member),
            None => Err(BeginFault::Gone),
        }
    }

    // A command that changes the member begins.
    fn begin_change(&mut self, asked: Asked, step: Transition)
        ensures { self.new ≡ record self.old { asked = Some asked; trying = trying.begun self.old.trying.loader step } }
    {
        self.trying.begin(step);
        self.asked = Some(asked);
    }

    // A command that reads begins, from the newest state that was seen.
    fn begin_read(&mut self, member: u64, asked: Asked)
        requires { self.old.member ≡ Some member }
        ensures { BeginsRead self.old asked self.old.listen self.new }
    {
        let question = question_of(&asked, self.listen);
        let loader = taken(&mut self.trying.loader);
        self.trying.calls = 0;
        self.reading.begin(loader, member, question);
        self.asked = Some(asked);
    }

    /// Begins to read the content at the time `t`. The fault is Gone (the open ended without Opened, the close is done, or the
    /// reader has answered Expired) or Open (a command is open); the reader is then as it was. It takes no memory, as the other
    /// beginnings.
    pub fn begin_snapshot(&mut self, t: u64) -> Result<(), BeginFault>
        requires { IsSound self.old }
        ensures begins { Begins (member_fault self.old.asked self.old.member) self.old self.new (BeginsRead self.old (Asked.Snapshot t) self.old.listen) result }
        ensures sound { IsSound self.new }
        ensures follows { (client : ℕ) (front : Option History) → FollowsWhere client front self.old → FollowsWhere client front self.new }
        ensures cost { OnOk result ((base client : ℕ) (front : Option History) → 3 ≤ base → WhereLawful (shard_of self.new) front (Backwards (CostAt base client self.new))) }
    {
        let member = self.member_to_ask()?;
        self.begin_read(member, Asked::Snapshot { t });
        Ok(())
    }

    /// Begins a listen from the frontier after `as_of`, with its first step. It takes the place of an older listen. The faults are
    /// those of `begin_snapshot`.
    pub fn begin_listen(&mut self, as_of: u64) -> Result<(), BeginFault>
        requires { IsSound self.old }
        ensures begins { Begins (member_fault self.old.asked self.old.member) self.old self.new (BeginsRead self.old (Asked.Listen as_of) (Some (after as_of))) result }
        ensures sound { IsSound self.new }
        ensures follows { (client : ℕ) (front : Option History) → FollowsWhere client front self.old → FollowsWhere client front self.new }
        ensures cost { OnOk result ((base client : ℕ) (front : Option History) → 3 ≤ base → WhereLawful (shard_of self.new) front (Backwards (CostAt base client self.new))) }
    {
        let member = self.member_to_ask()?;
        self.listen = Some(Frontier::after(as_of));
        self.begin_read(member, Asked::Listen { as_of });
        Ok(())
    }

    /// Begins the next step of the listen. Beside the faults of `begin_snapshot` it is NoListen exactly where no listen stands.
    pub fn begin_next(&mut self) -> Result<(), BeginFault>
        requires { IsSound self.old }
        ensures begins { Begins (next_fault self.old) self.old self.new (BeginsRead self.old Asked.Next self.old.listen) result }
        ensures sound { IsSound self.new }
        ensures follows { (client : ℕ) (front : Option History) → FollowsWhere client front self.old → FollowsWhere client front self.new }
        ensures cost { OnOk result ((base client : ℕ) (front : Option History) → 3 ≤ base → WhereLawful (shard_of self.new) front (Backwards (CostAt base client self.new))) }
    {
        let member = self.member_to_ask()?;
        if self.listen.is_none() {
            return Err(BeginFault::NoListen);
        }
        self.begin_read(member, Asked::Next);
        Ok(())
    }

    /// Begins to raise the reader's since to `to`. The faults are those of `begin_snapshot`.
    pub fn begin_advance(&mut self, to: u64) -> Result<(), BeginFault>
        requires { IsSound self.old }
        ensures begins { Begins (member_fault self.old.asked self.old.member) self.old self.new (Changing self.old (Asked.Advance to) (λ member. Transition.Advance member to)) result }
        ensures sound { IsSound self.new }
        ensures follows { (client : ℕ) (front : Option History) → FollowsWhere client front self.old → FollowsWhere client front self.new }
        ensures cost { OnOk result ((base client : ℕ) (front : Option History) → 3 ≤ base → WhereLawful (shard_of self.new) front (Backwards (CostAt base client self.new))) }
    {
        let member = self.member_to_ask()?;
        self.begin_change(Asked::Advance { to }, Transition::Advance { member, to });
        Ok(())
    }

    /// Begins to renew the lease at the moment `now`. The faults are those of `begin_snapshot`.
    pub fn begin_renew(&mut self, now: u64) -> Result<(), BeginFault>
        requires { IsSound self.old }
        ensures begins { Begins (member_fault self.old.asked self.old.member) self.old self.new (Changing self.old (Asked.RenewReader now) (λ member. Transition.Renew member now)) result }
        ensures sound { IsSound self.new }
        ensures follows { (client : ℕ) (front : Option History) → FollowsWhere client front self.old → FollowsWhere client front self.new }
        ensures cost { OnOk result ((base client : ℕ) (front : Option History) → 3 ≤ base → WhereLawful (shard_of self.new) front (Backwards (CostAt base client self.new))) }
    {
        let member = self.member_to_ask()?;
        self.begin_change(
            Asked::RenewReader { now },
            Transition::Renew { member, now },
        );
        Ok(())
    }

    /// Begins to leave. The faults are those of `begin_snapshot`.
    pub fn begin_close(&mut self) -> Result<(), BeginFault>
        requires { IsSound self.old }
        ensures begins { Begins (member_fault self.old.asked self.old.member) self.old self.new (Changing self.old Asked.CloseReader (λ member. Transition.Leave member)) result }
        ensures sound { IsSound self.new }
        ensures follows { (client : ℕ) (front : Option History) → FollowsWhere client front self.old → FollowsWhere client front self.new }
        ensures cost { OnOk result ((base client : ℕ) (front : Option History) → 3 ≤ base → WhereLawful (shard_of self.new) front (Backwards (CostAt base client self.new))) }
    {
        let member = self.member_to_ask()?;
        self.begin_change(Asked::CloseReader, Transition::Leave { member });
        Ok(())
    }

    /// Goes on with the open command by one call of the store, through this port, unless the port finds the store taken.
    /// See docs/DEFINITIONS.md, "Polls". It fails only for want of memory: the command stays open, nothing was changed in the
    /// store, and the next poll makes the same call again.
    pub fn poll<P: Port>(
        &mut self,
        alloc: Global,
        port: &mut P,
    ) -> Result<Poll<ReadAnswer>, AllocError>
        requires open { IsOpen self.old }
        requires sound { IsSound self.old }
        // Over each told front that is lawful and starts as a collection, the reader follows from the client's own entries.
        requires follows { machines.FollowsWhere machine (P.client port.old) (P.front port.old) self.old }
        // At most one call is made, one that the client may make, and its reply comes to this.
        ensures polled { IfOk result (λ poll. Polled machine (P.client port.old) (P.front port.old) (P.front port.new) self.old self.new poll) }
        ensures memory { OnErr result (Unpolled machine (P.client port.old) (P.front port.old) (P.front port.new) self.old self.new) }
        ensures sound { IsSound self.new }
        ensures follows { machines.FollowsWhere machine (P.client port.old) (P.front port.new) self.new }
        // Each answer is legal at the end of the front, and nothing is damaged there.
        ensures legal { IfOk result (λ poll. LegalWhere machine (P.client port.old) (P.front port.new) self.old self.new poll) }
        // The bound on the calls is kept.
        ensures cost { IfOk result (λ poll. CostGoesOn machine (P.client port.old) (P.front port.old) (P.front port.new) self.old self.new poll) }
        ensures busy { result ≡ Ok polls.Busy → P.misses port.old < P.misses port.new }
        ensures fault { result ≡ Ok polls.Fault → Rose (P.faults port.old) (P.faults port.new) }
        ensures faults { P.faults port.old ≤ P.faults port.new }
        ensures misses { P.misses port.old ≤ P.misses port.new }
        ensures client { P.client port.new ≡ P.client port.old }
        ensures kept { P.kept port.new ≡ P.kept port.old }
    {
        machine_core::poll(self, alloc, port)
    }
}
