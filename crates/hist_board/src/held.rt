//! An object with a history.
ghost use Rattle.std.specs.Prelude.{◌≡◌, ℕ, List, length};

/// An object that a board lends. Its history is a list of entries, and no turn takes one away.
pub trait Held {
    /// An entry of the history.
    type Item;

    /// What all objects of one board have in common, where contracts speak of it. No value of it is made.
    type Frame;

    ghost history: { Self → List Self.Item };

    /// No work changes it.
    ghost frame: { Self → Self.Frame };

    /// No work changes it.
    ghost kind: { Self → ℕ };

    /// The errands of an entry: a pass that holds them all may add it, and no other.
    ghost errands: { Self.Frame → Self.Item → List ℕ };

    /// Whether the histories of all objects, in order, fit together.
    ghost fits: { Self.Frame → List (List Self.Item) → Type 0 };

    /// The length of the history.
    fn length(&self) -> u64
        ensures { result ≡ length (history self.now) };
}
