//! Numbers that were looked for before.

ghost use Rattle.std.specs.Prelude.{ℕ, ◌≡◌, List, map, Some, IfSome, IsNone};
ghost use Rattle.id_names.specs.Known.{IsKnown, AreKnown, IsNew, asked};

use topo_base::IdNumber;

/// The number of an id, or None where no number has it. With no id it says nothing.
#[derive(Clone, Copy)]
pub(crate) struct KnownNumber {
    pub(crate) id: Option<IdNumber>,
    pub(crate) number: Option<usize>,
}

/// As many as are looked for side by side.
pub(crate) type KnownNumbers = [KnownNumber; 4];

/// Nothing is known yet.
pub(crate) fn none_known() -> KnownNumbers
    ensures { (ids : List ℕ) → AreKnown ids result }
{
    [KnownNumber {
        id: None,
        number: None,
    }; 4]
}

/// What is known of this id.
#[inline]
pub(crate) fn known_of(known: &KnownNumbers, id: IdNumber) -> Option<KnownNumber>
    ensures this { IfSome result (λ found. found.id ≡ Some id) }
    ensures right { (ids : List ℕ) → AreKnown ids known.now → IfSome result (IsKnown ids) }
    ensures none { IsNone result → IsNew id known.now }
{
    for found in known {
        if found.id == Some(id) {
            return Some(*found);
        }
    }
    None
}

/// The numbers that were found for these ids.
pub(crate) fn known_numbers(ids: [Option<IdNumber>; 4], numbers: [Option<usize>; 4]) -> KnownNumbers
    ensures asked { asked result ≡ ids }
    ensures numbers { map (λ k. k.number) result ≡ numbers }
{
    [
        KnownNumber {
            id: ids[0],
            number: numbers[0],
        },
        KnownNumber {
            id: ids[1],
            number: numbers[1],
        },
        KnownNumber {
            id: ids[2],
            number: numbers[2],
        },
        KnownNumber {
            id: ids[3],
            number: numbers[3],
        },
    ]
}
