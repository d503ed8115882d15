//! The lines of rows, put behind what is gathered: fields joined by commas, none quoted.

ghost use Rattle.std.specs.Prelude.{◌≡◌, ◌+◌, ◌≤◌, ◌++◌, ◌∷◌, [], length, decimal};
ghost use Rattle.std.specs.Fmt.{signed_decimal};
ghost use Rattle.plane_model.specs.Texts.{number_or_empty};
ghost use Rattle.table_dump.specs.Lines.{edge_text, face_text, member_text, node_text, region_text};

use crate::gathered::Gathered;
use itoa::Buffer;
use plane_model::{EdgeRow, FaceRow, MemberRow, NodeRow, RegionRow};
use topo_base::{IdNumber, SignedNumber};

/// No line has more bytes: seven numbers of twenty bytes each, and a byte behind each.
pub(crate) const LONGEST: usize = 160;

/// What stands behind a field that isn't the last.
const COMMA: u8 = b',';

/// What stands behind the last field.
const LINE_FEED: u8 = b'\n';

/// Puts a field and the byte behind it at the end of a line.
fn push_field(text: &mut Gathered, field: &str, mark: u8)
    requires short { length field.now ≤ 20 }
    requires room { length text.old.items ≤ 65515 }
    ensures field { text.new.items ≡ text.old.items ++ (field.now ++ mark ∷ []) }
    ensures few { length text.new.items ≤ length text.old.items + 21 }
{
    text.try_extend_from_slice(field.as_bytes()).unwrap();
    text.push(mark);
}

/// Puts a number and the byte behind it at the end of a line.
fn push_number(text: &mut Gathered, number: IdNumber, mark: u8)
    requires { length text.old.items ≤ 65515 }
    ensures field { text.new.items ≡ text.old.items ++ (decimal number ++ mark ∷ []) }
    ensures few { length text.new.items ≤ length text.old.items + 21 }
{
    push_field(text, Buffer::new().format(number), mark);
}

/// Puts a number with its sign and the byte behind it at the end of a line.
fn push_signed(text: &mut Gathered, number: SignedNumber, mark: u8)
    requires { length text.old.items ≤ 65515 }
    ensures field { text.new.items ≡ text.old.items ++ (signed_decimal number ++ mark ∷ []) }
    ensures few { length text.new.items ≤ length text.old.items + 21 }
{
    push_field(text, Buffer::new().format(number), mark);
}

/// Puts a number, or nothing where there is none, and the byte behind it at the end of a line.
fn push_optional(text: &mut Gathered, number: Option<IdNumber>, mark: u8)
    requires { length text.old.items ≤ 65515 }
    ensures field { text.new.items ≡ text.old.items ++ (number_or_empty number ++ mark ∷ []) }
    ensures few { length text.new.items ≤ length text.old.items + 21 }
{
    match number {
        Some(number) => push_number(text, number, mark),
        None => push_field(text, "", mark),
    }
}

/// Puts the line of a node: its id, and the face that contains it where it is isolated.
pub(crate) fn put_node(text: &mut Gathered, row: NodeRow)
    requires { length text.old.items + 160 ≤ 65536 }
    ensures { text.new.items ≡ text.old.items ++ node_text row }
{
    push_number(text, row.id, COMMA);
    push_optional(text, row.face, LINE_FEED);
}

/// Puts the line of an edge: its id, its nodes, the signed edges that follow it, and its faces.
pub(crate) fn put_edge(text: &mut Gathered, row: EdgeRow)
    requires { length text.old.items + 160 ≤ 65536 }
    ensures { text.new.items ≡ text.old.items ++ edge_text row }
{
    push_number(text, row.id, COMMA);
    push_number(text, row.start, COMMA);
    push_number(text, row.end, COMMA);
    push_signed(text, row.next_left, COMMA);
    push_signed(text, row.next_right, COMMA);
    push_number(text, row.left_face, COMMA);
    push_number(text, row.right_face, LINE_FEED);
}

/// Puts the line of a face: its id.
pub(crate) fn put_face(text: &mut Gathered, row: FaceRow)
    requires { length text.old.items + 160 ≤ 65536 }
    ensures { text.new.items ≡ text.old.items ++ face_text row }
{
    push_number(text, row.id, LINE_FEED);
}

/// Puts the line of a region: its id, and its parent where it has one.
pub(crate) fn put_region(text: &mut Gathered, row: RegionRow)
    requires { length text.old.items + 160 ≤ 65536 }
    ensures { text.new.items ≡ text.old.items ++ region_text row }
{
    push_number(text, row.id, COMMA);
    push_optional(text, row.parent, LINE_FEED);
}

/// Puts the line of a face of a region: the region and the face.
pub(crate) fn put_member(text: &mut Gathered, row: MemberRow)
    requires { length text.old.items + 160 ≤ 65536 }
    ensures { text.new.items ≡ text.old.items ++ member_text row }
{
    push_number(text, row.region, COMMA);
    push_number(text, row.face, LINE_FEED);
}
