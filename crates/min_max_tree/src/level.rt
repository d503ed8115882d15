//! Levels of the tree: their heights, and where their nodes stand. Spans are powers of two, so that sizes are shifts.

/// The nodes of one height.
#[derive(Clone, Copy)]
pub(crate) struct Level {
    pub(crate) height: u32,
    pub(crate) span: usize,
    pub(crate) start: usize,
}

impl Level {
    ghost use Rattle.std.specs.Prelude.{◌≡◌, ℕ, ◌<◌, ◌≤◌, ◌+◌};
    ghost use Rattle.min_max_tree.specs.Tree.{size_at};
    ghost use Rattle.min_max_tree.specs.Level.{IsLevel};

    /// The lowest level, of one node for each block.
    #[tactic(auto, using(crate::proofs::Levels::level_laws))]
    pub(crate) fn lowest() -> Level
        ensures level { (len : ℕ) → IsLevel len result }
        ensures height { result.height ≡ 0 }
    {
        Level {
            height: 0,
            span: 512,
            start: 0,
        }
    }

    #[tactic(auto, using(crate::proofs::Levels::level_laws))]
    pub(crate) fn size(&self, len: usize) -> usize
        requires level { IsLevel len self.now }
        requires few { len ≤ 2147483647 }
        ensures { result ≡ size_at len self.now.height }
    {
        (len + (self.span - 1)) >> (9 + self.height)
    }

    #[tactic(auto, using(crate::proofs::Levels::level_laws))]
    pub(crate) fn above(&self, len: usize) -> Level
        requires level { IsLevel len self.now }
        requires few { len ≤ 2147483647 }
        requires more { 1 < size_at len self.now.height }
        ensures level { IsLevel len result }
        ensures height { result.height ≡ self.now.height + 1 }
    {
        Level {
            height: self.height + 1,
            span: 2 * self.span,
            start: self.start + self.size(len),
        }
    }

    #[tactic(auto, using(crate::proofs::Levels::level_laws))]
    pub(crate) fn below(&self, len: usize) -> Level
        requires level { IsLevel len self.now }
        requires few { len ≤ 2147483647 }
        requires more { 0 < self.now.height }
        ensures level { IsLevel len result }
        ensures height { result.height + 1 ≡ self.now.height }
    {
        let span = self.span / 2;
        Level {
            height: self.height - 1,
            span,
            start: self.start - ((len + (span - 1)) >> (8 + self.height)),
        }
    }
}
