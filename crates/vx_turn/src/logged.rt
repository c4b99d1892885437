//! Which histories a value stands for.

/// A value that stands for lists of items, each of which one seat added. It has no calls: its members are seen by contracts
/// alone. Where the value is a state that events change, its items are events, and it stands for those that lead to it.
pub trait Logged {
    /// An item of the history. No value of it need ever be made.
    type Item;

    ghost use Rattle.std.specs.Prelude.{List, ℕ};

    /// For which lists a value stands.
    ghost stands: { Self → List Self.Item → Type 0 };

    /// The number of the seat that added an item.
    ghost seat: { Self.Item → ℕ };
}
