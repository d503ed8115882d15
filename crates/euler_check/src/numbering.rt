//! Numbers of darts.

use std::marker::Model;

/// A number of each dart, from 0: darts of one part have one number, and parts are numbered by their first darts.
#[derive(Drop)]
pub struct PartNumbering {
    count: u32,
    of_darts: Vec<u32>,
}

impl Model for PartNumbering {
    ghost use Rattle.std.specs.Prelude.{length};
    ghost use Rattle.euler_check.specs.Numbers.{Numbers};

    ghost Value = { Numbers };

    ghost view = { λ n. record { count = n.count; of_darts = n.of_darts.items } };
}

impl PartNumbering {
    ghost use Rattle.std.specs.Prelude.{◌≡◌, ◌<◌, length, slice_index};

    /// The numbering of so many parts, with the number of each dart.
    pub(crate) fn new(count: u32, of_darts: Vec<u32>) -> Self
        ensures count { result.count ≡ count }
        ensures of_darts { result.of_darts ≡ of_darts.items }
    {
        PartNumbering { count, of_darts }
    }

    /// How many parts there are.
    pub fn count(&self) -> u32
        ensures { result ≡ self.now.count }
    {
        self.count
    }

    /// The number of a dart.
    pub fn number(&self, dart: u32) -> u32
        requires { dart < length self.now.of_darts }
        ensures { result ≡ slice_index self.now.of_darts dart }
    {
        self.of_darts[dart as usize]
    }

    /// The numbers of all darts, in order.
    pub(crate) fn of_darts(&self) -> &[u32]
        ensures { result.now ≡ self.now.of_darts }
    {
        &self.of_darts
    }
}
