// A law of tokens, the contract of a function that does nothing.
ghost use Rattle.state_core.specs.declared.members.Member.{Member};
ghost use Rattle.state_core.specs.declared.transitions.Transition.{Transition};
ghost use Rattle.std.specs.Prelude.{◌≡◌};
ghost use Rattle.state_core.specs.Lists.{Among};
ghost use Rattle.state_core.specs.States.{ShardState, IsState};
ghost use Rattle.state_core.specs.Steps.{Applies};
ghost use Rattle.state_core.specs.Tokens.{TokenAfter};

/// A member's token stays, or the transition spends a higher one. Who joins has token 0.
pub fn tokens_rise()
    ensures { (s next : ShardState) (x : Transition) (v : Member) → IsState s → Applies s x next → Among (λ u. u ≡ v) next.members → TokenAfter s x v }
{}
