//! A draft of a file: its bytes, whose digest is not made.

ghost use Rattle.std.specs.Prelude.{◌≡◌, ◌≤◌, length};
ghost use Rattle.pemb_file.specs.Sealed.{IsDraft, sealed};

use crate::header::digest_of;
use crate::open_file::OpenFile;
use crate::opening::open_unchecked;
use bit_words::Steps;
use std::sync::ledger::Ledger;

/// The bytes of a file that lacks nothing but its digest. It is sealed where the file is written, for those who check
/// it; it is opened where it stays in memory, and nobody does.
#[derive(Drop)]
pub struct Draft {
    pub(crate) bytes: Vec<u8>,
    ghost right: { IsDraft bytes.items },
}

/// Puts the digest of all bytes behind it in its place.
fn seal(image: &mut Vec<u8>)
    requires { 48 ≤ length image.old.items }
    ensures { image.new.items ≡ sealed image.old.items }
{
    let digest = digest_of(&image[48..]);
    image[16..48].copy_from_slice(&digest);
}

impl Draft {
    ghost use Rattle.std.specs.Prelude.{◌≡◌, ◌≤◌, ◌+◌, IsTrue};
    ghost use Rattle.file_laws.specs.Lawful.{is_lawful};
    ghost use Rattle.file_laws.specs.Layout.{words_of};
    ghost use Rattle.file_laws.specs.Held.{contents_of};
    ghost use Rattle.pemb_file.specs.OpenFile.{contents_of_file};
    ghost use Rattle.pemb_file.specs.Draft.{file_of_draft};

    /// The file: the draft with the digest in its place.
    pub fn seal(self) -> Vec<u8>
        ensures file { result.items ≡ file_of_draft self }
        ensures lawful { IsTrue (is_lawful result.items) }
    {
        let mut file = self.bytes;
        seal(&mut file);
        file
    }

    /// The views of the file, of which nothing is checked and no digest is made.
    pub fn open<'a, C: Ledger>(&'a self, steps: &mut Steps<C>) -> OpenFile<'a>
        ensures contents { contents_of_file result ≡ contents_of (words_of (file_of_draft self.now)) }
        ensures cost { steps.new ≤ steps.old + 11 }
        ensures grows { steps.old ≤ steps.new }
    {
        open_unchecked(&self.bytes, steps)
    }
}
