//! A lawful file opened as views.

ghost use Rattle.std.specs.Prelude.{◌≡◌, ◌≤◌, ◌+◌, ◌*◌, None, [], ◌∷◌, IfOk, IsTrue, IsSome};
ghost use Rattle.bit_words.specs.Digits.{digits};
ghost use Rattle.bit_words.specs.WordView.{words_of as view_words};
ghost use Rattle.bit_words.specs.Lists.{first_some};
ghost use Rattle.parens.specs.ParenView.{parens_of};
ghost use Rattle.id_names.specs.Views.{ids_of};
ghost use Rattle.turan_code.specs.TuranView.{code_of_view};
ghost use Rattle.code_laws.specs.SeqFault.{is_sound};
ghost use Rattle.file_laws.specs.Layout.{counts_in, words_of, bits_at};
ghost use Rattle.file_laws.specs.Held.{ids_at, contents_of};
ghost use Rattle.pemb_file.specs.Costs.{placed_cost, all_names_cost};
ghost use Rattle.pemb_file.specs.Kinds.{is_named};
ghost use Rattle.pemb_file.specs.Parens.{HasParens};
ghost use Rattle.file_laws.specs.Faults.{front_fault, digest_fault, count_fault, directories_fault, names_fault, all_names_fault, places_fault, start_fault, regions_fault};
ghost use Rattle.plane_model.specs.Sets.{or_else};
ghost use Rattle.file_laws.specs.Lawful.{first_fault, content_fault, is_lawful, is_whole, file_size};
ghost use Rattle.pemb_file.specs.OpenFile.{contents_of_file};
ghost use Rattle.pemb_file.specs.Sealed.{LacksOnlyDigest};
ghost use Rattle.pemb_file.specs.Checked.{Finds};

use crate::header::{open_header, unchecked_image};
use crate::image::Image;
use crate::open_file::OpenFile;
use crate::places::Placed;
use bit_words::Steps;
use file_laws::FileFault;
use id_names::NamesView;
use min_max_tree::MinMaxView;
use parens::ParenView;
use rank_select::RankView;
use std::sync::ledger::Ledger;
use turan_code::{TuranParts, TuranView};

/// Parentheses in a section, with their counts and their tree in the next two.
fn paren_view<'a>(image: &Image<'a>, number: u64) -> ParenView<'a>
    requires { HasParens (view_words image.now.words) number }
    ensures { parens_of result ≡ bits_at (view_words image.now.words) number }
{
    let bits = image.bits(number);
    ParenView::new(
        RankView::new(bits, image.fields(number + 1)),
        MinMaxView::new(bits, image.part(number + 2)),
    )
}

/// The code.
fn code_view<'a>(image: &Image<'a>) -> TuranView<'a>
    requires sound { IsTrue (is_sound (contents_of (view_words image.now.words)).code) }
    requires directories { directories_fault (view_words image.now.words)
        (contents_of (view_words image.now.words)).code ≡ None }
    ensures { code_of_view result ≡ (contents_of (view_words image.now.words)).code }
{
    TuranView::new(TuranParts {
        a: RankView::new(image.bits(1), image.fields(2)),
        tree: paren_view(image, 3),
        dual: paren_view(image, 6),
        starts: image.fields(9),
    })
}

/// The names in the sections behind a number.
fn names_view<'a>(image: &Image<'a>, number: u64) -> NamesView<'a>
    requires named { IsTrue (is_named number) }
    requires right { names_fault (view_words image.now.words) number ≡ None }
    ensures { ids_of result ≡ ids_at (view_words image.now.words) number }
{
    NamesView::new(image.names(number))
}

/// Whether places and starts are right.
fn check_placed<C: Ledger>(
    image: &Image<'_>,
    code: TuranView<'_>,
    steps: &mut Steps<C>,
) -> Result<(), FileFault>
    requires code { code_of_view code ≡ (contents_of (view_words image.now.words)).code }
    requires names { all_names_fault (view_words image.now.words) ≡ None }
    ensures fault { Finds (first_some (places_fault (contents_of (view_words image.now.words))
        ∷ start_fault (contents_of (view_words image.now.words)) ∷ [])) result }
    ensures grows { steps.old ≤ steps.new }
    ensures cost { steps.new ≤ steps.old + placed_cost (counts_in (view_words image.now.words)) }
{
    let placed = Placed {
        code,
        forward: image.bits(10),
        nodes: names_view(image, 30),
        edges: names_view(image, 40),
        places: image.fields(17),
        place_order: image.fields(18),
        isolated: image.fields(19),
        faces: names_view(image, 50),
    };
    placed.check_places(steps)?;
    placed.check_starts(steps)
}

/// The views of an image without fault.
fn open_file<'a>(image: &Image<'a>, code: TuranView<'a>) -> OpenFile<'a>
    requires code { code_of_view code ≡ (contents_of (view_words image.now.words)).code }
    requires names { all_names_fault (view_words image.now.words) ≡ None }
    requires regions { regions_fault (view_words image.now.words) (contents_of (view_words image.now.words)) ≡ None }
    requires whole { IsTrue (is_whole (contents_of (view_words image.now.words))) }
    ensures { contents_of_file result ≡ contents_of (view_words image.now.words) }
{
    OpenFile::new(
        code,
        image.bits(10),
        names_view(image, 30),
        names_view(image, 40),
        names_view(image, 50),
        names_view(image, 60),
        image.fields(17),
        image.fields(18),
        image.fields(19),
        paren_view(image, 20),
        image.fields(25),
    )
}

/// The views of an image, or the first fault in what its sections hold.
fn content<'a, C: Ledger>(
    image: &Image<'a>,
    steps: &mut Steps<C>,
) -> Result<OpenFile<'a>, FileFault>
    ensures fault { Finds (content_fault (view_words image.now.words)) result }
    ensures contents { IfOk result (λ s. contents_of_file s ≡ contents_of (view_words image.now.words)) }
    ensures grows { steps.old ≤ steps.new }
    ensures cost { steps.new ≤ steps.old + placed_cost (counts_in (view_words image.now.words))
        + all_names_cost (counts_in (view_words image.now.words)) + 42 * (counts_in (view_words image.now.words)).edges
        + 12 * (counts_in (view_words image.now.words)).regions + 209 }
{
    image.check_code(steps)?;
    image.check_directories(steps)?;
    image.check_all_names(steps)?;
    let code = code_view(image);
    check_placed(image, code, steps)?;
    image.check_regions(steps)?;
    image.check_padding(steps)?;
    Ok(open_file(image, code))
}

/// The views of a lawful file, or the first fault of one that is not.
pub fn open<'a, C: Ledger>(bytes: &'a [u8], steps: &mut Steps<C>) -> Result<OpenFile<'a>, FileFault>
    ensures fault { Finds (first_fault bytes.now) result }
    ensures contents { IfOk result (λ s. contents_of_file s ≡ contents_of (words_of bytes.now)) }
    ensures cost { steps.new ≤ steps.old + 1024 * digits (file_size (counts_in (words_of bytes.now)))
        * ((file_size (counts_in (words_of bytes.now))) + 2) }
    ensures few_words { IsSome (or_else (front_fault bytes.now) (or_else (digest_fault bytes.now)
        (count_fault (counts_in (words_of bytes.now))))) → steps.new ≤ steps.old + 16 }
    ensures grows { steps.old ≤ steps.new }
{
    let image = open_header(bytes, steps)?;
    let mut file = content(&image, steps)?;
    file.mark_places(steps);
    file.note_gaps(steps);
    Ok(file)
}

/// The views of bytes in which nothing is wrong but perhaps their digest: nothing of them is checked again.
pub(crate) fn open_unchecked<'a, C: Ledger>(bytes: &'a [u8], steps: &mut Steps<C>) -> OpenFile<'a>
    requires right { LacksOnlyDigest bytes.now }
    ensures contents { contents_of_file result ≡ contents_of (words_of bytes.now) }
    ensures cost { steps.new ≤ steps.old + 11 }
    ensures grows { steps.old ≤ steps.new }
{
    let image = unchecked_image(bytes, steps);
    open_file(&image, code_view(&image))
}

/// The views of a file that is known to be lawful, as one that was just written is: nothing of it is checked again.
pub fn open_lawful<'a, C: Ledger>(bytes: &'a [u8], steps: &mut Steps<C>) -> OpenFile<'a>
    requires lawful { IsTrue (is_lawful bytes.now) }
    ensures contents { contents_of_file result ≡ contents_of (words_of bytes.now) }
    ensures cost { steps.new ≤ steps.old + 11 }
    ensures grows { steps.old ≤ steps.new }
{
    open_unchecked(bytes, steps)
}
