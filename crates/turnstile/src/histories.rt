// A value with a history that only grows.
ghost use Rattle.std.specs.Prelude.{◌≡◌, ℕ, List, Option};
ghost use Rattle.turnstile.specs.History.{CountsTo};

/// A value that tells a beginning and a list of entries, both or neither. Each entry is of a client.
pub trait Growing {
    /// What the value began with.
    type Begin;

    /// An entry of its history.
    type Item;

    /// The beginning and the entries, where the value tells them.
    ghost told: { Self → Option (Self.Begin × List Self.Item) };

    /// The client that an entry is of.
    ghost client: { Self.Item → ℕ };

    /// How many entries there are, as far as 2^64 - 1. It takes no memory.
    fn entries(&self) -> u64
        ensures { CountsTo (told self.now) result };
}
