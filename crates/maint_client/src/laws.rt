// Laws of what an expirer and a collector follow by, each the contract of a function that does nothing.
ghost use Rattle.std.specs.Prelude.{◌≡◌, None, Option, ℕ};
ghost use Rattle.store_core.specs.declared.calls.Call.{Call};
ghost use Rattle.store_core.specs.declared.replies.Reply.{Reply};
ghost use Rattle.store_core.specs.Histories.{History};
ghost use Rattle.store_core.specs.Ports.{GainsWhereTold, GrowsByOthers};
ghost use Rattle.machine_core.specs.Polling.{FollowsWhere};
ghost use Rattle.maint_client.specs.declared.collectors.Collector.{Collector};
ghost use Rattle.maint_client.specs.declared.expirers.Expirer.{Expirer};
ghost use Rattle.maint_client.specs.Collecting.{collecting};
ghost use Rattle.maint_client.specs.Expiring.{machine};

/// An expirer follows also past calls of other clients.
pub fn follows_past_others()
    ensures { (client : ℕ) (front now : Option History) (x : Expirer) → FollowsWhere machine client front x.tryer
        → GrowsByOthers client front now → FollowsWhere machine client now x.tryer }
{}

/// An expirer with no open expiry follows also past each call of another machine of the same client.
pub fn follows_past_others_machines()
    ensures { (client : ℕ) (front now : Option History) (call : Call) (reply : Reply) (x : Expirer) → x.tryer.asked ≡ None
        → FollowsWhere machine client front x.tryer → GainsWhereTold client front now call reply → FollowsWhere machine client now x.tryer }
{}

/// A collector follows also past calls of other clients.
pub fn collector_follows_past_others()
    ensures { (client : ℕ) (front now : Option History) (c : Collector) → FollowsWhere collecting client front c
        → GrowsByOthers client front now → FollowsWhere collecting client now c }
{}

/// A collector with no open collection follows also past each call of another machine of the same client.
pub fn collector_follows_past_others_machines()
    ensures { (client : ℕ) (front now : Option History) (call : Call) (reply : Reply) (c : Collector) → c.asked ≡ None
        → FollowsWhere collecting client front c → GainsWhereTold client front now call reply → FollowsWhere collecting client now c }
{}
