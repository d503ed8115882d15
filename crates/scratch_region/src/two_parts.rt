//! Two parts of one region, used in turn.

ghost use Rattle.std.specs.Prelude.{◌≡◌, ◌≢◌, ◌<◌, ◌==◌, ◌||◌, ◌*◌, ◌+◌, ◌↔◌, ℕ, IsErr, IfOk};
ghost use Rattle.scratch_region.specs.Marks.{room_of, is_marked};
ghost use Rattle.scratch_region.specs.Region.{words_left};

use crate::marks::Marks;
use crate::region::{Region, Short};

/// Carves two parts and changes them in turn: each holds what was marked in it, whatever was done to the other.
///
/// In the end the first part holds both numbers and the second part `second` alone.
pub fn use_in_turn<'r>(
    region: Region<'r>,
    words: usize,
    first: usize,
    second: usize,
) -> Result<(Marks<'r>, Marks<'r>, Region<'r>), Short<'r>>
    requires first { first < 64 * words }
    requires second { second < 64 * words }
    requires apart { first ≢ second }
    ensures short { IsErr result ↔ (words_left region.entry < 2 * words) }
    ensures left { IfOk result (λ parts. words_left parts.2 + 2 * words ≡ words_left region.entry) }
    ensures room { IfOk result (λ parts. (room_of parts.0 ≡ 64 * words) × (room_of parts.1 ≡ 64 * words)) }
    ensures in_first { IfOk result (λ parts. (j : ℕ) → is_marked parts.0 j ≡ (j == first || j == second)) }
    ensures in_second { IfOk result (λ parts. (j : ℕ) → is_marked parts.1 j ≡ (j == second)) }
{
    let (mut front, region) = region.carve(words)?;
    let (mut back, region) = region.carve(words)?;
    front.set(first);
    back.set(first);
    back.set(second);
    front.set(second);
    back.clear(first);
    Ok((front, back, region))
}
