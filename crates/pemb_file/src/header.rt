//! The header of a file: its magic word, its form, its length, its digest and its counts.

ghost use Rattle.std.specs.Prelude.{◌≡◌, ◌≤◌, ◌+◌, ◌%◌, ◌==◌, ◌&&◌, ◌||◌, nat_le, nat_lt, length, slice_index, IfOk, IsTrue, OnOk};
ghost use Rattle.bit_words.specs.WordView.{words_of as view_words};
ghost use Rattle.sha2.specs.Sha256.{sha256};
ghost use Rattle.plane_model.specs.Sets.{or_else};
ghost use Rattle.file_laws.specs.Layout.{words_of, counts_in, node_count, face_count, file_words, header_words};
ghost use Rattle.pemb_file.specs.Sealed.{LacksOnlyDigest};
ghost use Rattle.pemb_file.specs.Form.{number_of};
ghost use Rattle.pemb_file.specs.Header.{counts_of_header};
ghost use Rattle.file_laws.specs.Faults.{unless, magic, most, front_fault, digest_fault, count_fault};
ghost use Rattle.pemb_file.specs.Checked.{Finds};

use crate::form::Form;
use crate::image::Image;
use crate::layout::Header;
use bit_words::{Steps, WordView};
use file_laws::FileFault;
use sha2::{Digest, Sha256};
use std::sync::ledger::Ledger;

/// The bytes of PEMBTOPO, the first of them lowest.
pub(crate) const MAGIC: u64 = 0x4f504f54424d4550;

/// The most edges, nodes or regions that a file may have.
const MOST: u64 = 16_777_216;

/// The words of some bytes.
fn whole_words<'a>(bytes: &'a [u8]) -> Result<WordView<'a>, FileFault>
    ensures fault { Finds (unless (length bytes.now % 8 == 0) (FileFault.NotWords (length bytes.now))) result }
    ensures words { IfOk result (λ words. view_words words ≡ words_of bytes.now) }
{
    match WordView::new(bytes) {
        Some(words) => Ok(words),
        None => Err(FileFault::NotWords {
            bytes: bytes.len() as u64,
        }),
    }
}

/// Whether there are the words up to the counts, and the first is that of this kind of file.
fn check_head<C: Ledger>(words: &WordView<'_>, steps: &mut Steps<C>) -> Result<(), FileFault>
    ensures fault { Finds (unless (nat_le 11 (length (view_words words.now))
        && (slice_index (view_words words.now) 0 == magic)) (FileFault.NotPemb (length (view_words words.now))))
        result }
    ensures long { OnOk result (11 ≤ length (view_words words.now)) }
    ensures grows { steps.old ≤ steps.new }
    ensures cost { steps.new ≤ steps.old + 1 }
{
    if words.len() >= 11 && words.word(0, steps) == MAGIC {
        Ok(())
    } else {
        Err(FileFault::NotPemb {
            words: words.len() as u64,
        })
    }
}

/// The form of the file.
fn form<C: Ledger>(words: &WordView<'_>, steps: &mut Steps<C>) -> Result<Form, FileFault>
    requires { 11 ≤ length (view_words words.now) }
    ensures fault { Finds (unless ((slice_index (view_words words.now) 1 == 1)
        || (slice_index (view_words words.now) 1 == 2)) (FileFault.UnknownForm (slice_index (view_words words.now) 1)))
        result }
    ensures form { IfOk result (λ form. number_of form ≡ slice_index (view_words words.now) 1) }
    ensures one_step { steps.new ≡ steps.old + 1 }
{
    let number = words.word(1, steps);
    match Form::from_number(number) {
        Some(form) => Ok(form),
        None => Err(FileFault::UnknownForm { form: number }),
    }
}

/// Whether there is a whole header.
fn check_header(words: &WordView<'_>) -> Result<(), FileFault>
    ensures fault { Finds (unless (nat_le header_words (length (view_words words.now)))
        (FileFault.Length header_words (length (view_words words.now)))) result }
    ensures long { OnOk result (15 ≤ length (view_words words.now)) }
{
    let have = words.len() as u64;
    if have >= 15 {
        Ok(())
    } else {
        Err(FileFault::Length { want: 15, have })
    }
}

/// The counts in the header of a file of this form.
fn header<C: Ledger>(words: &WordView<'_>, form: Form, steps: &mut Steps<C>) -> Header
    requires long { 15 ≤ length (view_words words.now) }
    requires form { number_of form ≡ slice_index (view_words words.now) 1 }
    ensures counts { counts_of_header result ≡ counts_in (view_words words.now) }
    ensures steps { steps.new ≡ steps.old + 9 }
{
    Header {
        form,
        edges: words.word(6, steps),
        tree_edges: words.word(7, steps),
        components: words.word(8, steps),
        isolated: words.word(9, steps),
        regions: words.word(10, steps),
        node_back: words.word(11, steps),
        edge_back: words.word(12, steps),
        face_back: words.word(13, steps),
        region_back: words.word(14, steps),
    }
}

/// Whether there are as many words as the counts ask for.
fn check_length(words: &WordView<'_>, header: Header) -> Result<(), FileFault>
    ensures { Finds (unless (length (view_words words.now) == file_words (counts_of_header header))
        (FileFault.Length (file_words (counts_of_header header)) (length (view_words words.now)))) result }
{
    let want = header.file_words();
    let have = words.len() as u64;
    if u128::from(have) == want {
        Ok(())
    } else {
        Err(FileFault::Length { want, have })
    }
}

/// The digest of bytes.
pub(crate) fn digest_of(bytes: &[u8]) -> [u8; 32]
    ensures { result ≡ sha256 bytes.now }
{
    Sha256::digest(bytes)
}

/// Whether the digest in the header is that of all bytes after it.
fn check_digest(bytes: &[u8]) -> Result<(), FileFault>
    requires { 88 ≤ length bytes.now }
    ensures { Finds (digest_fault bytes.now) result }
{
    let digest = digest_of(&bytes[48..]);
    for at in 0..32 {
        if bytes[16 + at] != digest[at] {
            return Err(FileFault::Digest { at: at as u64 });
        }
    }
    Ok(())
}

/// Whether there are no more components than edges, and some where there are edges.
fn components_fit(header: Header) -> bool
    ensures { result ≡ (nat_le header.components header.edges && ((header.edges == 0) || nat_lt 0 header.components)) }
{
    header.components <= header.edges && (header.edges == 0 || header.components > 0)
}

/// Whether there are few enough nodes.
fn nodes_fit(header: Header) -> bool
    ensures { result ≡ nat_le (node_count (counts_of_header header)) most }
{
    header.nodes() <= u128::from(MOST)
}

/// Whether no more nodes have a back pointer than there are.
fn node_back_fits(header: Header) -> bool
    ensures { result ≡ nat_le header.node_back (node_count (counts_of_header header)) }
{
    u128::from(header.node_back) <= header.nodes()
}

/// Whether no more faces have a back pointer than there are.
fn face_back_fits(header: Header) -> bool
    ensures { result ≡ nat_le header.face_back (face_count (counts_of_header header)) }
{
    header.face_back <= header.faces()
}

/// The fault of a count that stands in this word, where it is out of its range.
fn check_count(fits: bool, word: u64, found: u64) -> Result<(), FileFault>
    ensures { Finds (unless fits (FileFault.Count word found)) result }
{
    if fits {
        Ok(())
    } else {
        Err(FileFault::Count { word, found })
    }
}

/// The first count that is out of its range.
fn check_counts(header: Header) -> Result<(), FileFault>
    ensures { Finds (count_fault (counts_of_header header)) result }
{
    check_count(header.edges <= MOST, 6, header.edges)?;
    check_count(header.tree_edges <= header.edges, 7, header.tree_edges)?;
    check_count(components_fit(header), 8, header.components)?;
    check_count(nodes_fit(header), 9, header.isolated)?;
    check_count(header.regions <= MOST, 10, header.regions)?;
    check_count(node_back_fits(header), 11, header.node_back)?;
    check_count(header.edge_back <= header.edges, 12, header.edge_back)?;
    check_count(face_back_fits(header), 13, header.face_back)?;
    check_count(header.region_back <= header.regions, 14, header.region_back)
}

/// The words and the header of a file of the right length, whose digest and counts may be wrong.
#[derive(Clone, Copy)]
struct Front<'a> {
    words: WordView<'a>,
    header: Header,
    ghost counts: { counts_of_header header ≡ counts_in (view_words words) },
    ghost size: { length (view_words words) ≡ file_words (counts_in (view_words words)) },
    ghost long: { 15 ≤ length (view_words words) },
}

/// The words and the header of a file, or the first fault that is told before its digest is looked at.
fn open_front<'a, C: Ledger>(bytes: &'a [u8], steps: &mut Steps<C>) -> Result<Front<'a>, FileFault>
    ensures fault { Finds (front_fault bytes.now) result }
    ensures words { IfOk result (λ front. view_words front.words ≡ words_of bytes.now) }
    ensures grows { steps.old ≤ steps.new }
    ensures cost { steps.new ≤ steps.old + 11 }
{
    let words = whole_words(bytes)?;
    check_head(&words, steps)?;
    let form = form(&words, steps)?;
    check_header(&words)?;
    let header = header(&words, form, steps);
    check_length(&words, header)?;
    Ok(Front { words, header })
}

/// The words of a file whose header has no fault, or its first fault.
pub(crate) fn open_header<'a, C: Ledger>(
    bytes: &'a [u8],
    steps: &mut Steps<C>,
) -> Result<Image<'a>, FileFault>
    ensures fault { Finds (or_else (front_fault bytes.now) (or_else (digest_fault bytes.now)
        (count_fault (counts_in (words_of bytes.now))))) result }
    ensures words { IfOk result (λ image. view_words image.words ≡ words_of bytes.now) }
    ensures grows { steps.old ≤ steps.new }
    ensures cost { steps.new ≤ steps.old + 11 }
{
    let front = open_front(bytes, steps)?;
    check_digest(bytes)?;
    check_counts(front.header)?;
    Ok(Image {
        words: front.words,
        header: front.header,
    })
}

/// The words of bytes in which nothing is wrong but perhaps their digest, which is not computed.
pub(crate) fn unchecked_image<'a, C: Ledger>(bytes: &'a [u8], steps: &mut Steps<C>) -> Image<'a>
    requires right { LacksOnlyDigest bytes.now }
    ensures words { view_words result.words ≡ words_of bytes.now }
    ensures grows { steps.old ≤ steps.new }
    ensures cost { steps.new ≤ steps.old + 11 }
{
    match open_front(bytes, steps) {
        Ok(front) => Image {
            words: front.words,
            header: front.header,
        },
        Err(_) => unreachable!(),
    }
}
