//! Ids with a direction.

ghost use Rattle.std.specs.Prelude.{◌≡◌, ◌+◌, IsTrue, if◌then◌else◌, pos, neg_ℤ};
ghost use Rattle.topo_base.specs.declared.id.TheConstants.{LARGEST_ID};
ghost use Rattle.id_names.specs.Names.{is_id};

use topo_base::{IdNumber, Signed, SignedNumber};

/// The number of an edge's id with a direction: below zero backward.
pub fn number_with(id: IdNumber, forward: bool) -> SignedNumber
    requires { IsTrue (is_id (LARGEST_ID + 1) id) }
    ensures { result ≡ (if forward then pos id else neg_ℤ (pos id)) }
{
    let Ok(number) = SignedNumber::try_from(id) else {
        unreachable!()
    };
    if forward { number } else { -number }
}

/// An edge's id as a signed edge, forward or backward.
pub fn with_direction(id: IdNumber, forward: bool) -> Signed
    requires { IsTrue (is_id (LARGEST_ID + 1) id) }
    ensures { result ≡ (if forward then pos id else neg_ℤ (pos id)) }
{
    let number = number_with(id, forward);
    match Signed::new(number) {
        Some(edge) => edge,
        None => unreachable!(),
    }
}
