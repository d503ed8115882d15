//! Walks over the file of a triangle, face 1, with a closed edge in it, face 2.

ghost use Rattle.std.specs.Prelude.{◌≡◌, ◌<◌, ◌≤◌, length};

use crate::{Found, hop_walk};
use bit_words::Steps;
use image_words::{bytes_of, island};
use pemb_file::{Served, open};
use scratch_region::Region;
use std::alloc::Global;
use std::marker::Brand;
use std::sync::ledger::{Blank, Ledger};
use std::test::Fail;
use topo_base::{FaceId, IdNumber};

/// The words of the file of a square grid of four cells by four, with a closed edge in two cells and a node in one.
fn grid_words() -> [u64; 152] {
    [
        5715155150441366864,
        2,
        13822552709251786552,
        9977644675326082704,
        435720979193620427,
        2470740597079514371,
        42,
        24,
        3,
        1,
        0,
        6,
        7,
        3,
        0,
        15398772708889296895,
        13674,
        206158430208,
        25165823,
        103079215104,
        0,
        21474902015,
        77309411328,
        0,
        343597383680,
        360777252946,
        583580680702,
        268435455,
        120259084288,
        576460752303423489,
        13510798882111488,
        281474976710656,
        5497558138880,
        103079215104,
        1879048192,
        33554432,
        589824,
        10240,
        176,
        936748722493063171,
        15762598695796736,
        263882790666240,
        4398046511104,
        73014444032,
        1207959552,
        19922944,
        327680,
        5376,
        8070450532247928920,
        432345564227567617,
        7036874417766400,
        114349209288704,
        1855425871872,
        30064771072,
        0,
        4350149189704903457,
        978513341435814493,
        3505,
        368645,
        25769803776,
        503400880,
        4398046511103,
        0,
        180388626432,
        288230376151711745,
        3377699720527872,
        35184372088832,
        343597383680,
        3221225472,
        29360128,
        262144,
        2304,
        3170534137668829204,
        27021597764222976,
        228698418577408,
        1924145348608,
        16106127360,
        134217728,
        1114112,
        9216,
        11529215046068469836,
        94575592174780416,
        774056185954304,
        6322191859712,
        51539607552,
        419430400,
        3407872,
        27648,
        14987979559889010912,
        270215977642229761,
        2181431069507584,
        17592186044416,
        141733920768,
        1140850688,
        9175040,
        73728,
        13835058055282164304,
        702561541869797380,
        5629499534213120,
        45079976738816,
        360777252864,
        0,
        3013832926484337920,
        5635681561293674614,
        11121934087508535752,
        749990723018584783,
        12952019082,
        30064771072,
        76790211424,
        262143,
        77309411328,
        576460752303423489,
        13510798882111488,
        281474976710656,
        5497558138880,
        103079215104,
        1879048192,
        33554432,
        589824,
        10240,
        176,
        936748722493063171,
        15762598695796736,
        263882790666240,
        4398046511104,
        73014444032,
        1207959552,
        0,
        6993223237509582849,
        36721226,
        772,
        12884901888,
        2344,
        55834574848,
        6,
        8589934592,
        1,
        16,
        0,
        0,
        0,
        0,
        0,
        0,
        0,
        0,
        0,
        0,
        0,
        0,
        0,
        0,
    ]
}

/// What came of looking for a walk, with its first four steps.
#[derive(Clone, Copy, Debug, PartialEq, Eq)]
enum Seen {
    Moves(u32, [Option<FaceId>; 4]),
    Unknown,
    Short(usize, usize),
    NoFile,
}

/// The walk between two faces over lent words.
fn walk_between<C: Ledger>(
    alloc: Global,
    bytes: &[u8],
    blank: Blank,
    from: IdNumber,
    to: IdNumber,
    lent: &mut [u64],
) -> Seen
    requires name { blank.name ≡ C.name }
    requires parts { blank.parts ≡ C.parts }
    requires some { 0 < blank.parts }
    requires few { length lent.old ≤ 64 }
{
    let mut steps = Steps::<C>::new(alloc, blank);
    let Ok(file) = open(bytes, &mut steps) else {
        return Seen::NoFile;
    };
    let served = Served::of(&file);
    let room = Region::new(lent);
    match hop_walk(served, FaceId(from), FaceId(to), room, &mut steps) {
        Found::Walk(mut walk) => Seen::Moves(
            walk.moves(),
            [
                walk.step(&mut steps),
                walk.step(&mut steps),
                walk.step(&mut steps),
                walk.step(&mut steps),
            ],
        ),
        Found::Unknown => Seen::Unknown,
        Found::Short(short) => Seen::Short(short.need, short.left),
    }
}

#[test]
fn walks_over_the_nested_island(rt: HostRuntime) -> Result<(), Fail> {
    let alloc = rt.alloc();
    let bytes = bytes_of(alloc, &island())?;
    let faces = [Some(FaceId(0)), Some(FaceId(1)), Some(FaceId(2)), None];
    assert_eq!(rt;
        walk_between::<Brand>(alloc, &bytes, Blank::new(1), 0, 2, &mut [7; 6]),
        Seen::Moves(2, faces)
    );
    let back = [Some(FaceId(2)), Some(FaceId(1)), Some(FaceId(0)), None];
    assert_eq!(rt;
        walk_between::<Brand>(alloc, &bytes, Blank::new(1), 2, 0, &mut [7; 6]),
        Seen::Moves(2, back)
    );
    let own = [Some(FaceId(1)), None, None, None];
    assert_eq!(rt;
        walk_between::<Brand>(alloc, &bytes, Blank::new(1), 1, 1, &mut [7; 6]),
        Seen::Moves(0, own)
    );
    assert_eq!(rt;
        walk_between::<Brand>(alloc, &bytes, Blank::new(1), 0, 9, &mut [7; 6]),
        Seen::Unknown
    );
    assert_eq!(rt;
        walk_between::<Brand>(alloc, &bytes, Blank::new(1), 0, 2, &mut [7; 5]),
        Seen::Short(6, 5)
    );
    Ok(())
}

#[test]
fn walks_round_the_grid_by_face_0(rt: HostRuntime) -> Result<(), Fail> {
    let alloc = rt.alloc();
    let bytes = bytes_of(alloc, &grid_words())?;
    let faces = [Some(FaceId(1)), Some(FaceId(0)), Some(FaceId(16)), None];
    assert_eq!(rt;
        walk_between::<Brand>(alloc, &bytes, Blank::new(1), 1, 16, &mut [7; 38]),
        Seen::Moves(2, faces)
    );
    Ok(())
}
