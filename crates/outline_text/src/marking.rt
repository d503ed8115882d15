//! Marks for the signed edges of an opened file.

ghost use Rattle.std.specs.Prelude.{◌≤◌, ◌*◌, IfOk, length};
ghost use Rattle.pemb_file.specs.Served.{contents_of_view};

use pemb_file::Served;
use std::alloc::{AllocError, Global};

/// Words with a bit for each signed edge of a file.
pub fn words_for_marks(alloc: Global, served: &Served<'_>) -> Result<Vec<u64>, AllocError>
    ensures room { IfOk result (λ words. 2 * length (contents_of_view served.now).edges ≤ 64 * length words.items) }
    ensures few { IfOk result (λ words. length words.items ≤ 2147483647) }
{
    vec![in alloc; 0; 2 * served.counts().edges as usize / 64 + 1]
}
