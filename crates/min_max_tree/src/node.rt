//! Nodes of the tree, as what they say and as words.

/// What some bits sum to, and the least that a front of them sums to, both plus 2 ^ 31,
/// where a one counts +1 and a zero -1.
#[derive(Clone, Copy)]
pub(crate) struct Node {
    pub(crate) total: u64,
    pub(crate) least: u64,
}

impl Node {
    ghost use Rattle.std.specs.Prelude.{◌≡◌, ◌<◌, ◌≤◌, ◌+◌, ◌*◌, ◌/◌, ◌%◌};
    ghost use Rattle.min_max_tree.specs.Node.{no_bits, joined, AreJoinable, of_word, word_of};

    /// No bits.
    pub(crate) fn empty() -> Node
        ensures { result ≡ no_bits }
    {
        Node {
            total: 2147483648,
            least: 2147483648,
        }
    }

    /// These bits and those of `next`.
    pub(crate) fn joined(self, next: Node) -> Node
        requires { AreJoinable self next }
        ensures { result ≡ joined self next }
    {
        Node {
            total: self.total + next.total - 2147483648,
            least: self.least.min(self.total + next.least - 2147483648),
        }
    }

    /// What a word of the tree says.
    pub(crate) fn of_word(word: u64) -> Node
        ensures { result ≡ of_word word }
    {
        Node {
            total: (word % 4294967296 + 2147483648) % 4294967296,
            least: (word / 4294967296 + 2147483648) % 4294967296,
        }
    }

    /// The word of the tree that says this.
    pub(crate) fn word(self) -> u64
        requires total { self.total < 4294967296 }
        requires least { self.least < 4294967296 }
        ensures { result ≡ word_of self }
    {
        (self.total + 2147483648) % 4294967296
            + 4294967296 * ((self.least + 2147483648) % 4294967296)
    }
}
