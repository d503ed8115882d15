//! Words as bytes.

ghost use Rattle.std.specs.Prelude.{◌≡◌, ◌/◌, length, IfOk};
ghost use Rattle.bit_words.specs.Words.{words_in};

use std::alloc::{AllocError, Global};

/// The bytes of these words, the lowest byte of each first.
pub fn bytes_of(alloc: Global, words: &[u64]) -> Result<Vec<u8>, AllocError>
    ensures { IfOk result (λ bytes. words_in (length bytes.items / 8) bytes.items ≡ words.now) }
{
    let mut bytes = Vec::new(alloc);
    for word in words {
        bytes.extend_from_slice(&word.to_le_bytes())?;
    }
    Ok(bytes)
}
