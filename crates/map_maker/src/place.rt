//! The nodes of a grid by row and column.

use crate::direction::Direction;
use topo_base::{IdNumber, SignedNumber};

/// A node of a grid. Rows grow to the north and columns to the east, each from 0.
#[derive(Clone, Copy, Debug, PartialEq, Eq)]
pub struct Place {
    pub row: u32,
    pub column: u32,
}

impl Place {
    ghost use Rattle.std.specs.Prelude.{◌≡◌, ◌≤◌, ◌<◌, IsTrue};
    ghost use Rattle.map_maker.specs.Grid.{place_of, north_of, east_of, south_of, west_of, has_edge, node_id, east_id, north_id, cell_id, leaving, first_after, following, opposite};

    /// Place `i` of a list that goes row by row through so many columns.
    pub(crate) fn numbered(columns: u32, i: u32) -> Place
        requires { 1 ≤ columns }
        ensures { result ≡ place_of columns i }
    {
        Place {
            row: i / columns,
            column: i % columns,
        }
    }

    /// The place to the north.
    pub(crate) fn north(self) -> Place
        requires { self.row ≤ 1000 }
        ensures { result ≡ north_of self }
    {
        Place {
            row: self.row + 1,
            column: self.column,
        }
    }

    /// The place to the east.
    pub(crate) fn east(self) -> Place
        requires { self.column ≤ 1000 }
        ensures { result ≡ east_of self }
    {
        Place {
            row: self.row,
            column: self.column + 1,
        }
    }

    /// The place to the south.
    pub(crate) fn south(self) -> Place
        requires { 1 ≤ self.row }
        ensures { result ≡ south_of self }
    {
        Place {
            row: self.row - 1,
            column: self.column,
        }
    }

    /// The place to the west.
    pub(crate) fn west(self) -> Place
        requires { 1 ≤ self.column }
        ensures { result ≡ west_of self }
    {
        Place {
            row: self.row,
            column: self.column - 1,
        }
    }

    /// Whether an edge of the grid of size `n` leaves the node in a direction.
    pub(crate) fn has_edge(self, n: u32, direction: Direction) -> bool
        ensures { result ≡ has_edge n self direction }
    {
        match direction {
            Direction::North => self.row < n,
            Direction::East => self.column < n,
            Direction::South => 0 < self.row,
            Direction::West => 0 < self.column,
        }
    }

    /// The id of the node.
    pub(crate) fn node_id(self, n: u32) -> IdNumber
        requires size { n ≤ 1000 }
        requires row { self.row ≤ 1000 }
        requires column { self.column ≤ 1000 }
        ensures { result ≡ node_id n self }
    {
        IdNumber::from(1 + self.row * (n + 1) + self.column)
    }

    /// The id of the edge to the east.
    pub(crate) fn east_id(self, n: u32) -> IdNumber
        requires size { n ≤ 1000 }
        requires row { self.row ≤ 1000 }
        requires column { self.column ≤ 1000 }
        ensures { result ≡ east_id n self }
    {
        IdNumber::from(1 + self.row * n + self.column)
    }

    /// The id of the edge to the north.
    pub(crate) fn north_id(self, n: u32) -> IdNumber
        requires size { n ≤ 1000 }
        requires row { self.row ≤ 1000 }
        requires column { self.column ≤ 1000 }
        ensures { result ≡ north_id n self }
    {
        IdNumber::from(1 + n * (n + 1) + self.row * (n + 1) + self.column)
    }

    /// The id of the face between the edges to the north and to the east.
    pub(crate) fn cell_id(self, n: u32) -> IdNumber
        requires size { n ≤ 1000 }
        requires row { self.row ≤ 1000 }
        requires column { self.column ≤ 1000 }
        ensures { result ≡ cell_id n self }
    {
        IdNumber::from(1 + self.row * n + self.column)
    }

    /// The signed edge that leaves the node in a direction in which it has an edge.
    pub(crate) fn leaving(self, n: u32, direction: Direction) -> SignedNumber
        requires size { n ≤ 1000 }
        requires row { self.row ≤ 1000 }
        requires column { self.column ≤ 1000 }
        requires there { IsTrue (has_edge n self direction) }
        ensures { result ≡ leaving n self direction }
    {
        match direction {
            Direction::North => self.north_id(n) as SignedNumber,
            Direction::East => self.east_id(n) as SignedNumber,
            Direction::South => -(self.south().north_id(n) as SignedNumber),
            Direction::West => -(self.west().east_id(n) as SignedNumber),
        }
    }

    /// The first direction after one, round the node and that one last, in which the node has an edge.
    pub(crate) fn first_after(self, n: u32, direction: Direction) -> Direction
        ensures { result ≡ first_after n self direction }
    {
        let first = direction.after();
        let second = first.after();
        let third = second.after();
        if self.has_edge(n, first) {
            first
        } else if self.has_edge(n, second) {
            second
        } else if self.has_edge(n, third) {
            third
        } else {
            direction
        }
    }

    /// The signed edge that follows one that comes to the node in a direction.
    pub(crate) fn following(self, n: u32, direction: Direction) -> SignedNumber
        requires size { n ≤ 1000 }
        requires row { self.row ≤ 1000 }
        requires column { self.column ≤ 1000 }
        requires from { IsTrue (has_edge n self (opposite direction)) }
        ensures { result ≡ following n self direction }
    {
        let next = self.first_after(n, direction.opposite());
        self.leaving(n, next)
    }
}
