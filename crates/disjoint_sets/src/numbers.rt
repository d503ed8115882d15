//! Numbers of sets.

use std::marker::Model;

/// A number of each member, from 0: members of one set have one number, and sets are numbered by their least members.
#[derive(Drop)]
pub struct SetNumbers {
    count: u32,
    of_members: Vec<u32>,
}

impl Model for SetNumbers {
    ghost use Rattle.disjoint_sets.specs.Sets.{SetNumbers as Numbers};

    ghost Value = { Numbers };

    ghost view = { λ n. record { count = n.count; of_members = n.of_members.items } };
}

impl SetNumbers {
    ghost use Rattle.std.specs.Prelude.{◌≡◌, ◌<◌, length, slice_index};

    /// The numbers of so many sets, with the number of each member.
    pub(crate) fn new(count: u32, of_members: Vec<u32>) -> Self
        ensures count { result.count ≡ count }
        ensures of_members { result.of_members ≡ of_members.items }
    {
        SetNumbers { count, of_members }
    }

    /// How many sets there are.
    pub fn count(&self) -> u32
        ensures { result ≡ self.now.count }
    {
        self.count
    }

    /// The number of a member's set.
    pub fn number(&self, member: u32) -> u32
        requires { member < length self.now.of_members }
        ensures { result ≡ slice_index self.now.of_members member }
    {
        self.of_members[member as usize]
    }
}
