//! Worked files, opened and damaged, and written.

ghost use Rattle.std.specs.Prelude.{◌≡◌, ◌<◌};

use bit_words::Steps;
use code_laws::SeqFault;
use image_words::{bytes_of, old_island, old_triangle, triangle};
use pemb_file::{Counts, FileFault, Served, open};
use sha2::{Digest, Sha256};
use std::alloc::Global;
use std::marker::Brand;
use std::sync::ledger::{Blank, Ledger};
use std::test::Fail;

/// The same with the digest of the bytes from the 48th on in its place.
fn sealed(alloc: Global, words: &[u64]) -> Result<Vec<u8>, Fail> {
    let mut bytes = bytes_of(alloc, words)?;
    if bytes.len() >= 48 {
        let digest = Sha256::digest(&bytes[48..]);
        bytes[16..48].copy_from_slice(&digest);
    }
    Ok(bytes)
}

/// The fault of some bytes.
fn fault_counted<C: Ledger>(alloc: Global, bytes: &[u8], blank: Blank) -> Option<FileFault>
    requires name { blank.name ≡ C.name }
    requires parts { blank.parts ≡ C.parts }
    requires some { 0 < blank.parts }
{
    let mut steps = Steps::<C>::new(alloc, blank);
    open(bytes, &mut steps).err()
}

/// The fault of some bytes.
fn fault(alloc: Global, bytes: &[u8]) -> Option<FileFault> {
    fault_counted::<Brand>(alloc, bytes, Blank::new(1))
}

/// The fault of a file with one word changed and the right digest.
fn fault_with(
    alloc: Global,
    words: &[u64],
    at: usize,
    word: u64,
) -> Result<Option<FileFault>, Fail> {
    let mut changed = Vec::new(alloc);
    changed.extend_from_slice(words)?;
    if at < changed.len() {
        changed[at] = word;
    }
    let bytes = sealed(alloc, &changed)?;
    Ok(fault(alloc, &bytes))
}

/// The fault of the triangle's file with the lowest bit of one word flipped and the digest as it was.
fn fault_flipped(alloc: Global, at: usize) -> Result<Option<FileFault>, Fail> {
    let mut words = old_triangle();
    if at < words.len() {
        words[at] ^= 1;
    }
    let bytes = bytes_of(alloc, &words)?;
    Ok(fault(alloc, &bytes))
}

/// The fault of the first bytes of the triangle's file.
fn fault_cut(alloc: Global, len: usize) -> Result<Option<FileFault>, Fail> {
    let mut bytes = bytes_of(alloc, &old_triangle())?;
    bytes.truncate(len);
    Ok(fault(alloc, &bytes))
}

/// What a file says of itself, and of its first component, edge and isolated node, 0 where it has none, and of places.
#[derive(Clone, Copy, Debug, PartialEq, Eq)]
struct Seen {
    positions: usize,
    counts: Counts,
    place: u32,
    component: u32,
    forward: bool,
    isolated: u32,
    /// Between which components those below place 1 end.
    components_around: (usize, usize),
    /// Between which isolated nodes those below place 2 end.
    isolated_around: (usize, usize),
}

/// The first of some components, in their order by place and by their own number.
fn first_places<C: Ledger>(served: Served<'_>, steps: &mut Steps<C>) -> (u32, u32) {
    let _code = served.code();
    if served.counts().components == 0 {
        return (0, 0);
    }
    (served.place(0, steps), served.place_order(0, steps))
}

/// Whether the first edge is seen forward at its first position.
fn first_forward<C: Ledger>(served: Served<'_>, steps: &mut Steps<C>) -> bool {
    let _code = served.code();
    served.counts().edges > 0 && served.forward(0, steps)
}

/// The place of the first isolated node.
fn first_isolated<C: Ledger>(served: Served<'_>, steps: &mut Steps<C>) -> u32 {
    if served.counts().isolated == 0 {
        return 0;
    }
    served.isolated(0, steps)
}

/// What a lawful file says.
fn examined<C: Ledger>(served: Served<'_>, steps: &mut Steps<C>) -> Seen {
    let (place, component) = first_places(served, steps);
    Seen {
        positions: served.code().len(),
        counts: served.counts(),
        place,
        component,
        forward: first_forward(served, steps),
        isolated: first_isolated(served, steps),
        components_around: served.components_around(1),
        isolated_around: served.isolated_around(2),
    }
}

/// What a file says, if it is lawful.
fn examined_counted<C: Ledger>(alloc: Global, bytes: &[u8], blank: Blank) -> Option<Seen>
    requires name { blank.name ≡ C.name }
    requires parts { blank.parts ≡ C.parts }
    requires some { 0 < blank.parts }
{
    let mut steps = Steps::<C>::new(alloc, blank);
    let file = open(bytes, &mut steps).ok()?;
    Some(examined(Served::of(&file), &mut steps))
}

#[test]
fn the_file_of_a_triangle_is_opened(rt: HostRuntime) -> Result<(), Fail> {
    let alloc = rt.alloc();
    let want = Seen {
        positions: 6,
        counts: Counts {
            nodes: 3,
            edges: 3,
            tree_edges: 2,
            faces: 1,
            components: 1,
            isolated: 0,
            regions: 0,
        },
        place: 0,
        component: 0,
        forward: false,
        isolated: 0,
        components_around: (1, 1),
        isolated_around: (0, 0),
    };
    for image in [
        bytes_of(alloc, &old_triangle())?,
        bytes_of(alloc, &triangle())?,
    ] {
        assert_eq!(rt;
            examined_counted::<Brand>(alloc, &image, Blank::new(1)),
            Some(want)
        );
    }
    Ok(())
}

#[test]
fn the_file_of_an_island_is_opened(rt: HostRuntime) -> Result<(), Fail> {
    let alloc = rt.alloc();
    let image = sealed(alloc, &old_island())?;
    let want = Seen {
        positions: 8,
        counts: Counts {
            nodes: 5,
            edges: 4,
            tree_edges: 2,
            faces: 2,
            components: 2,
            isolated: 1,
            regions: 2,
        },
        place: 0,
        component: 0,
        forward: false,
        isolated: 2,
        components_around: (1, 2),
        isolated_around: (0, 1),
    };
    assert_eq!(rt;
        examined_counted::<Brand>(alloc, &image, Blank::new(1)),
        Some(want)
    );
    Ok(())
}

#[test]
fn a_cut_file_is_refused(rt: HostRuntime) -> Result<(), Fail> {
    let alloc = rt.alloc();
    assert_eq!(rt; fault_cut(alloc, 416)?, None);
    assert_eq!(rt;
        fault_cut(alloc, 279)?,
        Some(FileFault::NotWords { bytes: 279 })
    );
    for words in 0..52 {
        let want = match words {
            0..11 => FileFault::NotPemb { words },
            11..15 => FileFault::Length {
                want: 15,
                have: words,
            },
            _ => FileFault::Length {
                want: 52,
                have: words,
            },
        };
        assert_eq!(rt; fault_cut(alloc, 8 * words as usize)?, Some(want));
    }
    Ok(())
}

/// What is said of the triangle's file with the lowest bit of this word flipped.
fn flipped(word: usize) -> FileFault {
    let want = [46, 47, 49, 53, 57, 53, 53, 53, 53];
    match word {
        0 => FileFault::NotPemb { words: 52 },
        1 => FileFault::UnknownForm { form: 0 },
        2..6 => FileFault::Digest {
            at: 8 * (word as u64 - 2),
        },
        6..15 => FileFault::Length {
            want: want[word - 6],
            have: 52,
        },
        _ => FileFault::Digest { at: 0 },
    }
}

#[test]
fn a_flipped_bit_of_each_word_is_refused(rt: HostRuntime) -> Result<(), Fail> {
    for word in 0..52 {
        assert_eq!(rt; fault_flipped(rt.alloc(), word)?, Some(flipped(word)));
    }
    Ok(())
}

#[test]
fn other_words_of_a_triangle_are_told(rt: HostRuntime) -> Result<(), Fail> {
    let triangle = old_triangle();
    for (at, word, want) in [
        (24, 1, None),
        (1, 3, Some(FileFault::UnknownForm { form: 3 })),
        (1, 2, Some(FileFault::Length { want: 54, have: 52 })),
        (
            6,
            18446744073709551615,
            Some(FileFault::Length {
                want: 50188114247416807456,
                have: 52,
            }),
        ),
        (
            15,
            26,
            Some(FileFault::Sequence(SeqFault::Ones { found: 3 })),
        ),
        (
            17,
            6,
            Some(FileFault::Sequence(SeqFault::Tree { component: 0 })),
        ),
        (25, 5, Some(FileFault::Name { section: 32, at: 1 })),
        (
            27,
            864691129528877056,
            Some(FileFault::Name { section: 33, at: 0 }),
        ),
        (29, 32, Some(FileFault::Name { section: 34, at: 1 })),
        (30, 1, Some(FileFault::Name { section: 36, at: 1 })),
        (36, 27, Some(FileFault::Name { section: 44, at: 0 })),
        (41, 0, Some(FileFault::Name { section: 53, at: 0 })),
        (45, 1, Some(FileFault::Place { section: 17, at: 0 })),
        (46, 1, Some(FileFault::Place { section: 18, at: 0 })),
        (17, 5, Some(FileFault::Start { component: 0 })),
        (47, 2, Some(FileFault::RegionPart { section: 21, at: 0 })),
        (49, 2, Some(FileFault::RegionPart { section: 62, at: 0 })),
        (
            51,
            1 << 32,
            Some(FileFault::RegionPart { section: 25, at: 1 }),
        ),
        (15, 91, Some(FileFault::Padding { word: 15 })),
    ] {
        assert_eq!(rt; fault_with(rt.alloc(), &triangle, at, word)?, want);
    }
    Ok(())
}

#[test]
fn wrong_directories_of_a_triangle_are_told(rt: HostRuntime) -> Result<(), Fail> {
    let triangle = old_triangle();
    for (at, word, section, entry, want, found) in [
        (16, 5 << 32, 2, 1, 4, 5),
        (18, 1 + (2 << 32), 4, 0, 0, 1),
        (19, 7, 5, 0, 0, 7),
        (21, 3 << 32, 7, 1, 1, 3),
        (22, 1, 8, 0, 0, 1),
    ] {
        let fault = FileFault::Directory {
            section,
            at: entry,
            want,
            found,
        };
        assert_eq!(rt; fault_with(rt.alloc(), &triangle, at, word)?, Some(fault));
    }
    Ok(())
}

#[test]
fn other_words_of_an_island_are_told(rt: HostRuntime) -> Result<(), Fail> {
    let island = old_island();
    for (at, word, want) in [
        (23, 0, FileFault::Sequence(SeqFault::Starts { index: 1 })),
        (20, 9, FileFault::Sequence(SeqFault::Dual { component: 1 })),
        (34, 0, FileFault::Name { section: 34, at: 2 }),
        (48, 2, FileFault::Place { section: 17, at: 0 }),
        (49, 1, FileFault::Place { section: 18, at: 1 }),
        (50, 3, FileFault::Place { section: 19, at: 0 }),
        (51, 6, FileFault::RegionPart { section: 20, at: 0 }),
        (53, 1, FileFault::RegionPart { section: 22, at: 0 }),
        (57, 5, FileFault::RegionPart { section: 64, at: 0 }),
        (61, 3, FileFault::RegionPart { section: 25, at: 2 }),
        (61, 1 << 40, FileFault::Padding { word: 61 }),
    ] {
        assert_eq!(rt; fault_with(rt.alloc(), &island, at, word)?, Some(want));
    }
    Ok(())
}
