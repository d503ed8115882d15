//! Links that lead to the least numbers of sets, changed in place.

ghost use Rattle.std.specs.Prelude.{◌≡◌, ◌<◌, IfOk, length, max, min, slice_index, slice_set};
ghost use Rattle.std.specs.List.{range_with_len};
ghost use Rattle.disjoint_sets.specs.Links.{AreLinks, leasts};
ghost use Rattle.disjoint_sets.specs.Sets.{joined, numbered};

use std::alloc::{AllocError, Global};

/// A link from each number below a count to itself.
pub(crate) fn own_links(alloc: Global, count: u32) -> Result<Vec<u32>, AllocError>
    ensures { IfOk result (λ links. links.items ≡ range_with_len 0 count) }
{
    (0..count).collect(alloc)
}

/// The least number of a member's set. Each second link on the way is led past the one above it.
fn least(links: &mut [u32], member: u32) -> u32
    requires links { AreLinks links.old }
    requires member { member < length links.old }
    ensures within { result < length links.old }
    ensures least { result ≡ slice_index (leasts links.old) member }
    ensures kept { leasts links.new ≡ leasts links.old }
    ensures links { AreLinks links.new }
{
    let mut place = member;
    while links[place as usize] != place {
        let up = links[links[place as usize] as usize];
        links[place as usize] = up;
        place = up;
    }
    place
}

/// Links the greater of two members to the lesser.
fn link(links: &mut [u32], a: u32, b: u32)
    requires a { a < length links.old }
    requires b { b < length links.old }
    ensures { links.new ≡ slice_set links.old (max a b) (min a b) }
{
    links[a.max(b) as usize] = a.min(b);
}

/// Joins the sets of two members.
pub(crate) fn join_sets(links: &mut [u32], a: u32, b: u32)
    requires links { AreLinks links.old }
    requires a { a < length links.old }
    requires b { b < length links.old }
    ensures joined { leasts links.new ≡ joined (leasts links.old) a b }
    ensures links { AreLinks links.new }
{
    let least_a = least(links, a);
    let least_b = least(links, b);
    link(links, least_a, least_b);
}

/// Puts the number of its set in the place of each member's link, and counts the sets. The number at a link stands
/// there already, since links lead to lesser members.
pub(crate) fn number_sets(links: &mut [u32]) -> u32
    requires links { AreLinks links.old }
    requires fits { length links.old < 4294967296 }
    ensures count { result ≡ (numbered (leasts links.old)).count }
    ensures of_members { links.new ≡ (numbered (leasts links.old)).of_members }
{
    let mut count = 0;
    for member in 0..links.len() {
        let lesser = links[member] as usize;
        if lesser == member {
            links[member] = count;
            count += 1;
        } else {
            links[member] = links[lesser];
        }
    }
    count
}
