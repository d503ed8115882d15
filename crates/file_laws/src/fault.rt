//! Why a file is refused.

use code_laws::SeqFault;

/// Why the bytes of a file are refused.
#[derive(Clone, Copy, Debug, PartialEq, Eq)]
pub enum FileFault {
    NotWords {
        bytes: u64,
    },
    NotPemb {
        words: u64,
    },
    UnknownForm {
        form: u64,
    },
    Length {
        want: u128,
        have: u64,
    },
    Digest {
        at: u64,
    },
    Count {
        word: u64,
        found: u64,
    },
    Sequence(SeqFault),
    Directory {
        section: u64,
        at: u64,
        want: u64,
        found: u64,
    },
    Name {
        section: u64,
        at: u64,
    },
    Place {
        section: u64,
        at: u64,
    },
    Start {
        component: u64,
    },
    RegionPart {
        section: u64,
        at: u64,
    },
    Padding {
        word: u64,
    },
}
