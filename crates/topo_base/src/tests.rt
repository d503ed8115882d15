//! Spelled numbers, and signed edges and their order.

use crate::{EdgeId, Signed, read_id, read_positive, read_signed};
use std::test::Fail;

#[test]
fn numbers_are_spelled_in_one_way(rt: HostRuntime) -> Result<(), Fail> {
    let rows = [
        ("0", Some(0), None, None),
        ("1", Some(1), Some(1), Some(1)),
        (
            "9223372036854775807",
            Some(9_223_372_036_854_775_807),
            Some(9_223_372_036_854_775_807),
            Some(9_223_372_036_854_775_807),
        ),
        (
            "2147483648",
            Some(2_147_483_648),
            Some(2_147_483_648),
            Some(2_147_483_648),
        ),
        ("-1", None, None, Some(-1)),
        (
            "-9223372036854775807",
            None,
            None,
            Some(-9_223_372_036_854_775_807),
        ),
        ("9223372036854775808", None, None, None),
        ("-9223372036854775808", None, None, None),
        ("99999999999999999999", None, None, None),
        ("", None, None, None),
        ("-", None, None, None),
        ("-0", None, None, None),
        ("--1", None, None, None),
        ("+1", None, None, None),
        ("00", None, None, None),
        ("01", None, None, None),
        ("-01", None, None, None),
        (" 1", None, None, None),
        ("1 ", None, None, None),
        ("1a", None, None, None),
        ("é", None, None, None),
    ];
    for (text, id, positive, signed) in rows {
        assert_eq!(rt; read_id(text.as_bytes()), id, "id {text}");
        assert_eq!(rt; read_positive(text.as_bytes()), positive, "positive {text}");
        assert_eq!(rt; read_signed(text.as_bytes()), signed, "signed {text}");
    }
    Ok(())
}

#[test]
fn signed_edges_hold_their_numbers(rt: HostRuntime) -> Result<(), Fail> {
    for value in [0, -9_223_372_036_854_775_808] {
        assert!(rt; Signed::new(value).is_none(), "{value}");
    }
    for (value, edge) in [
        (1, 1),
        (-1, 1),
        (7, 7),
        (-9_223_372_036_854_775_807, 9_223_372_036_854_775_807),
    ] {
        let signed = Signed::new(value).ok_or("no signed edge")?;
        assert_eq!(rt; signed.value(), value);
        assert_eq!(rt; signed.edge(), EdgeId(edge));
        assert_eq!(rt; signed.is_forward(), value > 0);
        assert_eq!(rt; signed.reverse().reverse(), signed);
        assert!(rt; signed.reverse() != signed);
    }
    Ok(())
}

#[test]
fn signed_edges_go_by_id_and_forward_first(rt: HostRuntime) -> Result<(), Fail> {
    let rising = [1, -1, 2, -2, 3];
    for (i, a) in rising.iter().enumerate() {
        for (j, b) in rising.iter().enumerate() {
            let (a, b) = (
                Signed::new(*a).ok_or("no signed edge")?,
                Signed::new(*b).ok_or("no signed edge")?,
            );
            assert_eq!(rt; a.key_less(b), i < j, "{a:?} {b:?}");
        }
    }
    Ok(())
}
