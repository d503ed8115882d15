//! The directions in which the edges of a grid leave its nodes.

/// A direction from a node of the grid, in the order in which they go round it.
#[derive(Clone, Copy, Debug, PartialEq, Eq)]
pub enum Direction {
    North,
    East,
    South,
    West,
}

impl Direction {
    ghost use Rattle.std.specs.Prelude.{◌≡◌};
    ghost use Rattle.map_maker.specs.Grid.{after, opposite};

    /// The direction after this one, round a node.
    pub fn after(self) -> Direction
        ensures { result ≡ after self }
    {
        match self {
            Direction::North => Direction::East,
            Direction::East => Direction::South,
            Direction::South => Direction::West,
            Direction::West => Direction::North,
        }
    }

    /// The direction back.
    pub fn opposite(self) -> Direction
        ensures { result ≡ opposite self }
    {
        match self {
            Direction::North => Direction::South,
            Direction::East => Direction::West,
            Direction::South => Direction::North,
            Direction::West => Direction::East,
        }
    }
}
