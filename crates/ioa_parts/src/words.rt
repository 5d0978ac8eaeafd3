//! Where choices come from that an automaton leaves open.

ghost use Rattle.std.specs.Prelude.{◌≡◌, ◌+◌, ℕ};

/// A source of words, which never ends.
pub trait Words {
    /// The words that are to come, by number from 0.
    ghost stream: { Self → ℕ → ℕ };

    /// The next word.
    fn next(&mut self) -> u32
        ensures word { result ≡ stream self.old 0 }
        ensures rest { (k : ℕ) → stream self.new k ≡ stream self.old (k + 1) };
}
