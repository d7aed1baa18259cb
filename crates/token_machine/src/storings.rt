// Storing: parts that are set, and then a transition that is tried.
ghost use Rattle.std.specs.Prelude.{◌≡◌, true, Some, IfOk, IfSome, OnErr, OnOk};
ghost use Rattle.store_core.specs.Histories.{IsReplyTo};
ghost use Rattle.load_core.specs.Setting as setting;
ghost use Rattle.load_core.specs.Trying as trying;
ghost use Rattle.token_machine.specs.Storings.{IsSound, Moves, MovesAfterSet, Prepares, begun, call_of, called, no_parts, resumed, sets};

use load_core::{Loader, Next, Progress, Setting, Tried, Trying};
use spine_core::KeyList;
use state_core::Transition;
use std::alloc::{AllocError, Global};
use store_core::{BytesList, Call, Reply};

/// A transition that is tried, and parts that are set before it. No compare-and-set is made before all of them are set.
#[derive(Drop)]
pub struct Storing {
    /// The transition, the newest state that was seen, and the count of calls, the sets among them.
    pub trying: Trying,
    /// The parts.
    pub setting: Setting,
}

impl Storing {
    /// The transition hasn't been tried, and has no part. No call was made.
    pub fn new(alloc: Global, loader: Loader, step: Transition) -> Storing
        ensures begun { result ≡ begun loader step no_parts }
        ensures sound { IsSound result }
    {
        Storing {
            trying: Trying::new(loader, step),
            setting: Setting::of(KeyList::new(alloc), BytesList::new(alloc)),
        }
    }

    /// Another transition and its parts take the place of these, whose command has ended. No call was made.
    pub fn begin(&mut self, step: Transition, parts: Setting)
        requires { setting.IsSound parts }
        ensures begun { self.new ≡ begun self.old.trying.loader step parts }
        ensures sound { IsSound self.new }
    {
        self.trying.begin(step);
        self.setting = parts;
    }

    /// Another transition and its parts take the place of these in the same command, whose calls count on.
    pub fn resume(&mut self, step: Transition, parts: Setting)
        requires { setting.IsSound parts }
        ensures resumed { self.new ≡ resumed self.old step parts }
        ensures sound { IsSound self.new }
    {
        self.trying.resume(step);
        self.setting = parts;
    }

    /// Tries the transition on the state that is known, where that comes next. It fails only for want of memory.
    pub fn prepare(&mut self, alloc: Global) -> Result<(), AllocError>
        requires { IsSound self.old }
        ensures prepares { OnOk result (Prepares self.old self.new) }
        ensures sound { IsSound self.new }
        ensures memory { OnErr result (self.new ≡ self.old) }
    {
        self.trying.prepare(alloc)?;
        Ok(())
    }

    // Whether a part is set next.
    fn sets(&self) -> bool
        requires { IsSound self.now }
        ensures { result ≡ sets self.now }
    {
        match &self.trying.next {
            Next::Cas(_) => !self.setting.is_done(),
            _ => false,
        }
    }

    /// The call that comes next: the set of a part where a compare-and-set comes next and a part is left. It takes no memory, and
    /// fails only where its bytes have 2^63 - 1 owners.
    pub fn next_call(&self) -> Result<Call, AllocError>
        requires { IsSound self.now }
        ensures { IfOk result (λ call. call_of self.now ≡ Some call) }
    {
        if self.sets() {
            self.setting.next_call()
        } else {
            self.trying.next_call()
        }
    }

    /// What a reply to that call comes to. Only what a scan shows takes memory; where it is refused, the same scan is to be made
    /// again.
    pub fn react(&mut self, alloc: Global, reply: Reply) -> Result<Tried, AllocError>
        requires sound { IsSound self.old }
        requires row { IfSome (call_of self.old) (λ call. IsReplyTo call reply) }
        ensures moves { IfOk result (λ tried. Moves self.old reply self.new tried) }
        ensures sound { IsSound self.new }
        ensures memory { OnErr result (trying.IsScanning self.old.trying.next × (self.new ≡ called self.old)) }
    {
        if self.sets() {
            return Ok(self.after_set(reply));
        }
        match self.trying.react(alloc, reply) {
            Ok(tried) => Ok(tried),
            Err(fault) => Err(fault),
        }
    }

    fn after_set(&mut self, reply: Reply) -> Tried
        requires sound { IsSound self.old }
        requires row { setting.IsAnswered self.old.setting reply }
        requires set { sets self.old ≡ true }
        ensures moves { MovesAfterSet self.old reply self.new result }
        ensures sound { IsSound self.new }
    {
        self.trying.calls = self.trying.calls.saturating_add(1);
        match self.setting.react(reply) {
            Progress::Fault => Tried::Fault,
            _ => Tried::Goes,
        }
    }
}
