//! The image of parts: the bytes of a lawful file that holds them.

ghost use Rattle.std.specs.Prelude.{ℕ, ◌≡◌, ◌≤◌, ◌<◌, ◌+◌, ◌*◌, ◌^◌, List, [], ◌∷◌, ◌++◌, length, take, drop, slice_index, IfOk, OnOk, IsTrue};
ghost use Rattle.id_names.specs.Names.{AreDistinctIds};
ghost use Rattle.code_laws.specs.Tour.{code_of};
ghost use Rattle.file_laws.specs.Layout.{words_of, file_words, id_bits};
ghost use Rattle.file_laws.specs.Held.{contents_of};
ghost use Rattle.file_laws.specs.Lawful.{is_lawful, is_whole, has_room_for};
ghost use Rattle.file_laws.specs.Image.{bytes_of, with_bits, with_fields, with_tree, with_names, code_sections, filled, counts_of_contents, image_of};
ghost use Rattle.pemb_file.specs.Draft.{file_of_draft};
ghost use Rattle.pemb_file.specs.Form.{number_of};
ghost use Rattle.pemb_file.specs.Header.{counts_of_header};
ghost use Rattle.pemb_file.specs.Parts.{contents_of_parts};
ghost use Rattle.pemb_file.specs.Written.{Written, blank_header, HoldNames, HoldAllNames};

use crate::draft::Draft;
use crate::form::Form;
use crate::header::MAGIC;
use crate::layout::Header;
use crate::parts::ImageParts;
use bit_words::{Memory, all_bits, packed_numbers};
use id_names::NameWords;
use rank_select::make_counts;
use std::alloc::Global;
use topo_base::IdNumber;

/// The words of the names of each class.
#[derive(Drop)]
pub(crate) struct AllNames {
    pub(crate) nodes: NameWords,
    pub(crate) edges: NameWords,
    pub(crate) faces: NameWords,
    pub(crate) regions: NameWords,
}

/// Puts bytes at the end.
fn push_bytes(image: &mut Vec<u8>, bytes: &[u8]) -> Result<(), Memory>
    ensures { OnOk result (image.new.items ≡ image.old.items ++ bytes.now) }
{
    match image.extend_from_slice(bytes) {
        Ok(()) => Ok(()),
        Err(_) => Err(Memory),
    }
}

/// Puts the bytes of words at the end, the lowest byte of each first.
fn push_words(image: &mut Vec<u8>, words: &[u64]) -> Result<(), Memory>
    ensures bytes { OnOk result (image.new.items ≡ image.old.items ++ bytes_of words.now) }
    ensures below { (k : ℕ) → slice_index words.now k < 2 ^ 64 }
{
    for word in words {
        push_bytes(image, &word.to_le_bytes())?;
    }
    Ok(())
}

/// Puts a section of bits at the end.
fn push_bits(alloc: Global, image: &mut Vec<u8>, bits: &[bool]) -> Result<(), Memory>
    requires { length bits.now ≤ 2147483647 }
    ensures { OnOk result ((number : ℕ) → Written image.old.items image.new.items (with_bits number bits.now ∷ [])) }
{
    let words = all_bits(alloc, bits)?.finish();
    push_words(image, &words)
}

/// Puts a section of fields at the end.
fn push_fields(alloc: Global, image: &mut Vec<u8>, items: &[u32]) -> Result<(), Memory>
    requires { length items.now ≤ 2147483647 }
    ensures { OnOk result ((number : ℕ) → Written image.old.items image.new.items (with_fields number items.now ∷ [])) }
{
    let words = packed_numbers(alloc, items)?.finish();
    push_words(image, &words)
}

/// The words of the names of some ids, in a form that has room for them.
fn names_in(alloc: Global, form: Form, ids: &[IdNumber]) -> Result<NameWords, Memory>
    requires few { length ids.now ≤ 16777216 }
    requires names { AreDistinctIds (2 ^ id_bits (number_of form)) ids.now }
    ensures { IfOk result (λ words. HoldNames (number_of form) ids.now words) }
{
    id_names::make(alloc, ids, form.low_width(ids.len() as u128))
}

/// The words of all names, which are made before the header, since it has the numbers of their back pointers.
fn all_names(alloc: Global, form: Form, parts: &ImageParts) -> Result<AllNames, Memory>
    requires whole { IsTrue (is_whole (contents_of_parts parts.now)) }
    requires room { IsTrue (has_room_for (number_of form) (contents_of_parts parts.now)) }
    ensures { IfOk result (λ names. HoldAllNames (number_of form) (contents_of_parts parts.now) names) }
{
    Ok(AllNames {
        nodes: names_in(alloc, form, &parts.nodes)?,
        edges: names_in(alloc, form, &parts.edges)?,
        faces: names_in(alloc, form, &parts.faces)?,
        regions: names_in(alloc, form, &parts.regions)?,
    })
}

/// Puts the seven sections of names at the end.
fn push_names(image: &mut Vec<u8>, names: NameWords) -> Result<(), Memory>
    ensures { OnOk result ((form number : ℕ) (ids : List ℕ) → HoldNames form ids names
        → Written image.old.items image.new.items (with_names form number ids)) }
{
    push_words(image, &names.high)?;
    push_words(image, &names.high_counts)?;
    push_words(image, &names.lows)?;
    push_words(image, &names.places)?;
    push_words(image, &names.marks)?;
    push_words(image, &names.mark_counts)?;
    push_words(image, &names.back)
}

/// Puts three sections of parentheses at the end: their bits, the counts of these, and their tree.
fn push_parens(alloc: Global, image: &mut Vec<u8>, bits: &[bool]) -> Result<(), Memory>
    requires { length bits.now ≤ 2147483647 }
    ensures { OnOk result ((number : ℕ) → Written image.old.items image.new.items (with_tree number bits.now)) }
{
    let maker = all_bits(alloc, bits)?;
    let counts = make_counts(alloc, &maker)?.finish();
    let nodes = min_max_tree::make(alloc, &maker)?;
    push_words(image, &maker.finish())?;
    push_words(image, &counts)?;
    push_words(image, &nodes)
}

/// Puts the nine sections of a code at the end.
fn push_code(alloc: Global, image: &mut Vec<u8>, parts: &ImageParts) -> Result<(), Memory>
    requires walk { length parts.now.tree.items ≡ length parts.now.first.items }
    requires few { length parts.now.tree.items ≤ 2147483647 }
    requires few_starts { length parts.now.starts.items ≤ 2147483647 }
    ensures { OnOk result (Written image.old.items image.new.items
        (code_sections (code_of parts.now.tree.items parts.now.first.items parts.now.starts.items))) }
{
    let code = turan_code::make(alloc, &parts.tree, &parts.first, &parts.starts)?;
    push_words(image, &code.a)?;
    push_words(image, &code.a_counts)?;
    push_words(image, &code.b)?;
    push_words(image, &code.b_counts)?;
    push_words(image, &code.b_tree)?;
    push_words(image, &code.dual)?;
    push_words(image, &code.dual_counts)?;
    push_words(image, &code.dual_tree)?;
    push_words(image, &code.starts)
}

/// Puts all sections at the end. The words of names are let go one class after another.
fn push_sections(
    alloc: Global,
    image: &mut Vec<u8>,
    parts: &ImageParts,
    names: AllNames,
) -> Result<(), Memory>
    requires walk { length parts.now.tree.items ≡ length parts.now.first.items }
    requires whole { IsTrue (is_whole (contents_of_parts parts.now)) }
    ensures { OnOk result ((form : ℕ) → HoldAllNames form (contents_of_parts parts.now) names
        → Written image.old.items image.new.items (filled form (contents_of_parts parts.now))) }
{
    push_code(alloc, image, parts)?;
    push_bits(alloc, image, &parts.forward)?;
    push_names(image, names.nodes)?;
    push_names(image, names.edges)?;
    push_names(image, names.faces)?;
    push_fields(alloc, image, &parts.places)?;
    push_fields(alloc, image, &parts.place_order)?;
    push_fields(alloc, image, &parts.isolated)?;
    push_parens(alloc, image, &parts.region_bits)?;
    push_names(image, names.regions)?;
    push_fields(alloc, image, &parts.members)
}

/// The header of parts with these names.
fn header_of(form: Form, parts: &ImageParts, names: &AllNames) -> Header
    requires whole { IsTrue (is_whole (contents_of_parts parts.now)) }
    requires names { HoldAllNames (number_of form) (contents_of_parts parts.now) names.now }
    ensures counts { counts_of_header result ≡ counts_of_contents (number_of form) (contents_of_parts parts.now) }
    ensures few { 8 * file_words (counts_of_header result) < 2 ^ 32 }
{
    let edges = parts.edges.len() as u64;
    Header {
        form,
        edges,
        tree_edges: edges - parts.faces.len() as u64,
        components: parts.places.len() as u64,
        isolated: parts.isolated.len() as u64,
        regions: parts.regions.len() as u64,
        node_back: u64::from(names.nodes.marked),
        edge_back: u64::from(names.edges.marked),
        face_back: u64::from(names.faces.marked),
        region_back: u64::from(names.regions.marked),
    }
}

/// The header with 0 in place of the digest, in memory for the whole image.
fn begun(alloc: Global, header: Header) -> Result<Vec<u8>, Memory>
    requires { 8 * file_words (counts_of_header header) < 2 ^ 32 }
    ensures { IfOk result (λ image. image.items ≡ bytes_of (blank_header (counts_of_header header))) }
{
    let Ok(mut image) = Vec::with_capacity(alloc, 8 * header.file_words() as usize) else {
        return Err(Memory);
    };
    push_words(
        &mut image,
        &[
            MAGIC,
            header.form.number(),
            0,
            0,
            0,
            0,
            header.edges,
            header.tree_edges,
            header.components,
            header.isolated,
            header.regions,
            header.node_back,
            header.edge_back,
            header.face_back,
            header.region_back,
        ],
    )?;
    Ok(image)
}

/// A draft of the file of a form that holds these parts.
fn draft_of(alloc: Global, form: Form, parts: &ImageParts) -> Result<Draft, Memory>
    requires walk { length parts.now.tree.items ≡ length parts.now.first.items }
    requires whole { IsTrue (is_whole (contents_of_parts parts.now)) }
    requires room { IsTrue (has_room_for (number_of form) (contents_of_parts parts.now)) }
    ensures lawful { IfOk result (λ draft. IsTrue (is_lawful (file_of_draft draft))) }
    ensures contents { IfOk result (λ draft. contents_of (words_of (file_of_draft draft)) ≡ contents_of_parts parts.now) }
    ensures file { IfOk result (λ draft. file_of_draft draft ≡ image_of (number_of form) (contents_of_parts parts.now)) }
{
    let names = all_names(alloc, form, parts)?;
    let mut bytes = begun(alloc, header_of(form, parts, &names))?;
    push_sections(alloc, &mut bytes, parts, names)?;
    Ok(Draft { bytes })
}

/// A draft of the file of form 2 that holds these parts.
pub fn write_draft(alloc: Global, parts: &ImageParts) -> Result<Draft, Memory>
    requires walk { length parts.now.tree.items ≡ length parts.now.first.items }
    requires whole { IsTrue (is_whole (contents_of_parts parts.now)) }
    ensures lawful { IfOk result (λ draft. IsTrue (is_lawful (file_of_draft draft))) }
    ensures contents { IfOk result (λ draft. contents_of (words_of (file_of_draft draft)) ≡ contents_of_parts parts.now) }
    ensures file { IfOk result (λ draft. file_of_draft draft ≡ image_of 2 (contents_of_parts parts.now)) }
{
    draft_of(alloc, Form::Two, parts)
}

/// The file of form 2 that holds these parts. Its bytes are a function of what the parts hold.
pub fn write_image(alloc: Global, parts: &ImageParts) -> Result<Vec<u8>, Memory>
    requires walk { length parts.now.tree.items ≡ length parts.now.first.items }
    requires whole { IsTrue (is_whole (contents_of_parts parts.now)) }
    ensures lawful { IfOk result (λ image. IsTrue (is_lawful image.items)) }
    ensures contents { IfOk result (λ image. contents_of (words_of image.items) ≡ contents_of_parts parts.now) }
    ensures image { IfOk result (λ image. image.items ≡ image_of 2 (contents_of_parts parts.now)) }
{
    let draft = draft_of(alloc, Form::Two, parts)?;
    Ok(draft.seal())
}

/// The file of form 1 that holds these parts, whose ids are at most 2,147,483,647. Its bytes are a function of what the
/// parts hold.
pub fn write_old_image(alloc: Global, parts: &ImageParts) -> Result<Vec<u8>, Memory>
    requires walk { length parts.now.tree.items ≡ length parts.now.first.items }
    requires whole { IsTrue (is_whole (contents_of_parts parts.now)) }
    requires room { IsTrue (has_room_for 1 (contents_of_parts parts.now)) }
    ensures lawful { IfOk result (λ image. IsTrue (is_lawful image.items)) }
    ensures contents { IfOk result (λ image. contents_of (words_of image.items) ≡ contents_of_parts parts.now) }
    ensures image { IfOk result (λ image. image.items ≡ image_of 1 (contents_of_parts parts.now)) }
{
    let draft = draft_of(alloc, Form::One, parts)?;
    Ok(draft.seal())
}
