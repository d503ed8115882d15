//! The sections of a file whose header is right, and the checks of each.

ghost use Rattle.std.specs.Prelude.{◌≡◌, ◌≤◌, ℕ, length, Option, None, option_map};
ghost use Rattle.bit_words.specs.declared.wrong_entry.WrongEntry.{WrongEntry};
ghost use Rattle.pemb_file.specs.Checked.{Finds};
ghost use Rattle.bit_words.specs.WordView.{words_of};
ghost use Rattle.file_laws.specs.Layout.{counts_in, file_words};
ghost use Rattle.pemb_file.specs.Header.{counts_of_header};
ghost use Rattle.file_laws.specs.Faults.{count_fault, told_in as told};
ghost use Rattle.file_laws.specs.declared.fault.FileFault.{FileFault as Fault};
ghost use Rattle.id_names.specs.declared.fault.NameFault.{NameFault as NamesFault};

use crate::layout::Header;
use crate::section::Section;
use bit_words::{BitView, PackedView, Steps, WordView, WrongEntry};
use file_laws::FileFault;
use id_names::{NameFault, NameParts};
use parens::check_balanced;
use std::sync::ledger::Ledger;

/// The words of a file whose length and counts are right.
#[derive(Clone, Copy)]
pub(crate) struct Image<'a> {
    pub(crate) words: WordView<'a>,
    pub(crate) header: Header,
    ghost counts: { counts_of_header header ≡ counts_in (words_of words) },
    ghost size: { length (words_of words) ≡ file_words (counts_in (words_of words)) },
    ghost few: { count_fault (counts_in (words_of words)) ≡ None },
}

impl<'a> Image<'a> {
    ghost use Rattle.std.specs.Prelude.{◌≡◌, ◌≤◌, ◌+◌, ◌-◌, ◌*◌, ◌/◌, length, drop, option_map, IsTrue, OnOk};
    ghost use Rattle.bit_words.specs.WordView.{words_of};
    ghost use Rattle.bit_words.specs.BitView.{bits_of};
    ghost use Rattle.bit_words.specs.PackedView.{fields_of, width_of};
    ghost use Rattle.bit_words.specs.WrongEntry.{first_wrong};
    ghost use Rattle.rank_select.specs.Counts.{counts_of};
    ghost use Rattle.min_max_tree.specs.Tree.{nodes_of};
    ghost use Rattle.code_laws.specs.SeqFault.{seq_fault, is_sound};
    ghost use Rattle.file_laws.specs.Layout.{counts_in, section, section_from, section_words, section_bits, part, bits_at, fields_at, face_count, node_count};
    ghost use Rattle.file_laws.specs.Held.{names_at, contents_of};
    ghost use Rattle.id_names.specs.Parts.{names_of, fault_of, HasSizes};
    ghost use Rattle.pemb_file.specs.Costs.{names_cost};
    ghost use Rattle.pemb_file.specs.Section.{seen};
    ghost use Rattle.file_laws.specs.Faults.{names_fault, directories_fault, all_names_fault, member_fault, regions_fault, is_padded, padding_fault};
    ghost use Rattle.pemb_file.specs.Checked.{Finds};
    ghost use Rattle.pemb_file.specs.Kinds.{has_bits, has_fields, is_directory, is_tree, is_named};

    /// The word that a section begins at.
    fn first_word(&self, number: u64) -> usize
        ensures from { result ≡ section_from (counts_in (words_of self.now.words)) number }
        ensures within { result + section_words (section (counts_in (words_of self.now.words)) number)
            ≤ length (words_of self.now.words) }
    {
        let _words = self.words.len();
        self.header.first_word(number) as usize
    }

    /// The section of this number, an empty one where none has it.
    fn section(&self, number: u64) -> Section
        ensures section { seen result ≡ section (counts_in (words_of self.now.words)) number }
        ensures few { result.count ≤ 2147483647 }
        ensures narrow { result.width ≤ 64 }
    {
        self.header.section(number)
    }

    /// The words of a section.
    pub(crate) fn part(&self, number: u64) -> WordView<'a>
        ensures words { words_of result ≡ part (words_of self.now.words) number }
        ensures len { length (words_of result) ≡ section_words (section (counts_in (words_of self.now.words)) number) }
    {
        let from = self.first_word(number);
        let _words = self.words.len();
        self.words.part(from, self.section(number).words() as usize)
    }

    /// A section of bits.
    pub(crate) fn bits(&self, number: u64) -> BitView<'a>
        requires { IsTrue (has_bits number) }
        ensures bits { bits_of result ≡ bits_at (words_of self.now.words) number }
        ensures len { length (bits_of result) ≡ (section (counts_in (words_of self.now.words)) number).count }
        ensures few { length (bits_of result) ≤ 2147483647 }
    {
        BitView::new(self.part(number), self.section(number).count as usize)
    }

    /// A section of fields.
    pub(crate) fn fields(&self, number: u64) -> PackedView<'a>
        requires { IsTrue (has_fields number) }
        ensures fields { fields_of result ≡ fields_at (words_of self.now.words) number }
        ensures len { length (fields_of result) ≡ (section (counts_in (words_of self.now.words)) number).count }
        ensures few { length (fields_of result) ≤ 2147483647 }
        ensures width { width_of result ≡ (section (counts_in (words_of self.now.words)) number).width }
    {
        let section = self.section(number);
        PackedView::new(self.part(number), section.count as usize, section.width)
    }

    /// Whether the code is sound.
    pub(crate) fn check_code<C: Ledger>(&self, steps: &mut Steps<C>) -> Result<(), FileFault>
        ensures fault { Finds (option_map FileFault.Sequence (seq_fault (contents_of (words_of self.now.words)).code))
            result }
        ensures sound { OnOk result (IsTrue (is_sound (contents_of (words_of self.now.words)).code)) }
        ensures grows { steps.old ≤ steps.new }
        ensures cost { steps.new ≤ steps.old + 16 * (counts_in (words_of self.now.words)).edges
            + 8 * (counts_in (words_of self.now.words)).components + 72 }
    {
        match turan_code::check(
            self.bits(1),
            self.bits(3),
            self.bits(6),
            self.fields(9),
            steps,
        ) {
            Ok(()) => Ok(()),
            Err(fault) => Err(FileFault::Sequence(fault)),
        }
    }

    /// Whether the counts of the bits before this section are right.
    pub(crate) fn check_counts<C: Ledger>(
        &self,
        number: u64,
        steps: &mut Steps<C>,
    ) -> Result<(), WrongEntry>
        requires { IsTrue (is_directory number) }
        ensures fault { Finds (first_wrong (counts_of (bits_at (words_of self.now.words) (number - 1)))
            (fields_at (words_of self.now.words) number)) result }
        ensures grows { steps.old ≤ steps.new }
        ensures cost { steps.new ≤ steps.old + (section (counts_in (words_of self.now.words)) (number - 1)).count + 8 }
    {
        rank_select::check_counts(self.bits(number - 1), self.fields(number), steps)
    }

    /// Whether the tree of the bits two sections before this one is right.
    pub(crate) fn check_tree<C: Ledger>(
        &self,
        number: u64,
        steps: &mut Steps<C>,
    ) -> Result<(), WrongEntry>
        requires { IsTrue (is_tree number) }
        ensures fault { Finds (first_wrong (nodes_of (bits_at (words_of self.now.words) (number - 2)))
            (part (words_of self.now.words) number)) result }
        ensures grows { steps.old ≤ steps.new }
        ensures cost { steps.new ≤ steps.old + 4 * (section (counts_in (words_of self.now.words)) (number - 2)).count
            + 16 }
    {
        min_max_tree::check(self.bits(number - 2), self.part(number), steps)
    }

    /// The names in the seven sections behind this number.
    pub(crate) fn names(&self, number: u64) -> NameParts<'a>
        requires { IsTrue (is_named number) }
        ensures names { names_of result ≡ names_at (words_of self.now.words) number }
        ensures fault { fault_of result ≡ names_fault (words_of self.now.words) number }
        ensures count { length (fields_of result.places)
            ≡ (section (counts_in (words_of self.now.words)) (number + 4)).count }
        ensures sizes { HasSizes result }
    {
        NameParts {
            high: self.bits(number + 1),
            high_counts: self.fields(number + 2),
            lows: self.fields(number + 3),
            places: self.fields(number + 4),
            marks: self.bits(number + 5),
            mark_counts: self.fields(number + 6),
            back: self.fields(number + 7),
        }
    }

    /// Whether the names in the sections behind this number are right.
    pub(crate) fn check_names<C: Ledger>(
        &self,
        number: u64,
        steps: &mut Steps<C>,
    ) -> Result<(), NameFault>
        requires { IsTrue (is_named number) }
        ensures fault { Finds (names_fault (words_of self.now.words) number) result }
        ensures grows { steps.old ≤ steps.new }
        ensures cost { steps.new ≤ steps.old + names_cost (section (counts_in (words_of self.now.words))
            (number + 4)).count }
    {
        id_names::check(self.names(number), steps)
    }

    /// Whether the counts and trees of the code's sequences are right.
    pub(crate) fn check_directories<C: Ledger>(&self, steps: &mut Steps<C>) -> Result<(), FileFault>
        ensures fault { Finds (directories_fault (words_of self.now.words) (contents_of (words_of self.now.words)).code)
            result }
        ensures grows { steps.old ≤ steps.new }
        ensures cost { steps.new ≤ steps.old + 2 * (counts_in (words_of self.now.words)).edges
            + 10 * (counts_in (words_of self.now.words)).tree_edges
            + 10 * face_count (counts_in (words_of self.now.words)) + 56 }
    {
        directory(2, self.check_counts(2, steps))?;
        directory(4, self.check_counts(4, steps))?;
        directory(5, self.check_tree(5, steps))?;
        directory(7, self.check_counts(7, steps))?;
        directory(8, self.check_tree(8, steps))
    }

    /// Whether the names of nodes, edges and faces are right.
    pub(crate) fn check_all_names<C: Ledger>(&self, steps: &mut Steps<C>) -> Result<(), FileFault>
        ensures fault { Finds (all_names_fault (words_of self.now.words)) result }
        ensures grows { steps.old ≤ steps.new }
        ensures cost { steps.new ≤ steps.old + names_cost (node_count (counts_in (words_of self.now.words)))
            + names_cost (counts_in (words_of self.now.words)).edges
            + names_cost (face_count (counts_in (words_of self.now.words))) }
    {
        name(30, self.check_names(30, steps))?;
        name(40, self.check_names(40, steps))?;
        name(50, self.check_names(50, steps))
    }

    /// Whether each face is in a region that there is, or in none.
    fn check_members<C: Ledger>(&self, steps: &mut Steps<C>) -> Result<(), u64>
        ensures fault { Finds (member_fault (contents_of (words_of self.now.words))) result }
        ensures grows { steps.old ≤ steps.new }
        ensures cost { steps.new ≤ steps.old + 2 * face_count (counts_in (words_of self.now.words)) + 2 }
    {
        let members = self.fields(25);
        for place in 0..members.count() {
            if members.field(place, steps) > self.header.regions {
                return Err(place as u64);
            }
        }
        Ok(())
    }

    /// Whether regions are right.
    pub(crate) fn check_regions<C: Ledger>(&self, steps: &mut Steps<C>) -> Result<(), FileFault>
        ensures fault { Finds (regions_fault (words_of self.now.words) (contents_of (words_of self.now.words))) result }
        ensures grows { steps.old ≤ steps.new }
        ensures cost { steps.new ≤ steps.old + 12 * (counts_in (words_of self.now.words)).regions
            + names_cost (counts_in (words_of self.now.words)).regions
            + 2 * face_count (counts_in (words_of self.now.words)) + 36 }
    {
        let bits = self.bits(20);
        region(20, check_balanced(bits, 0, bits.len(), steps))?;
        region_entry(21, self.check_counts(21, steps))?;
        region_entry(22, self.check_tree(22, steps))?;
        region_name(60, self.check_names(60, steps))?;
        region(25, self.check_members(steps))
    }

    /// The word with the last bits of a section that begins at a word.
    fn last_word(&self, from: usize, section: Section) -> usize
        requires { from + section_words (seen section) ≤ length (words_of self.now.words) }
        ensures word { result ≡ from + section_bits (seen section) / 64 }
        ensures within { result ≤ length (words_of self.now.words) }
    {
        let _words = self.words.len();
        from + (section.bits() / 64) as usize
    }

    /// Whether no bit past the content of a section that begins at a word is 1.
    fn is_padded<C: Ledger>(&self, from: usize, section: Section, steps: &mut Steps<C>) -> bool
        requires { from + section_words (seen section) ≤ length (words_of self.now.words) }
        ensures padded { result ≡ is_padded (drop from (words_of self.now.words)) (section_bits (seen section)) }
        ensures grows { steps.old ≤ steps.new }
        ensures cost { steps.new ≤ steps.old + 1 }
    {
        let left = (section.bits() % 64) as u32;
        left == 0 || self.words.word(self.last_word(from, section), steps) < 1 << left
    }

    /// Whether no bit past the content of any section is 1.
    pub(crate) fn check_padding<C: Ledger>(&self, steps: &mut Steps<C>) -> Result<(), FileFault>
        ensures fault { Finds (padding_fault (words_of self.now.words)) result }
        ensures grows { steps.old ≤ steps.new }
        ensures cost { steps.new ≤ steps.old + 45 }
    {
        let _words = self.words.len();
        let sections = self.header.sections();
        let mut from = 15;
        for section in sections.iter() {
            if !self.is_padded(from, *section, steps) {
                return Err(FileFault::Padding {
                    word: self.last_word(from, *section) as u64,
                });
            }
            from += section.words() as usize;
        }
        Ok(())
    }
}

/// A wrong entry of a directory of the code.
fn directory(section: u64, found: Result<(), WrongEntry>) -> Result<(), FileFault>
    ensures { (o : Option WrongEntry) → Finds o found
        → Finds (option_map (λ w. FileFault.Directory section w.at w.want w.found) o) result }
{
    match found {
        Ok(()) => Ok(()),
        Err(wrong) => Err(FileFault::Directory {
            section,
            at: wrong.at,
            want: wrong.want,
            found: wrong.found,
        }),
    }
}

/// In which section a fault of the names behind a number is, and what it names there.
fn told_in(number: u64, fault: NameFault) -> (u64, u64)
    requires { number ≤ 60 }
    ensures { (told_as : ℕ → ℕ → Fault) → told told_as number fault ≡ told_as result.0 result.1 }
{
    match fault {
        NameFault::HighCounts { at } => (number + 2, at),
        NameFault::Ones { found } => (number + 1, found),
        NameFault::Rising { at } => (number + 3, at),
        NameFault::MarkCounts { at } => (number + 6, at),
        NameFault::MarkOnes { found } => (number + 5, found),
        NameFault::Order { at } => (number + 4, at),
    }
}

/// A fault of the names behind a number.
fn name(number: u64, found: Result<(), NameFault>) -> Result<(), FileFault>
    requires { number ≤ 60 }
    ensures { (o : Option NamesFault) → Finds o found → Finds (option_map (told FileFault.Name number) o) result }
{
    match found {
        Ok(()) => Ok(()),
        Err(fault) => {
            let (section, at) = told_in(number, fault);
            Err(FileFault::Name { section, at })
        }
    }
}

/// A fault of the names of regions behind a number.
fn region_name(number: u64, found: Result<(), NameFault>) -> Result<(), FileFault>
    requires { number ≤ 60 }
    ensures { (o : Option NamesFault) → Finds o found → Finds (option_map (told FileFault.RegionPart number) o) result }
{
    match found {
        Ok(()) => Ok(()),
        Err(fault) => {
            let (section, at) = told_in(number, fault);
            Err(FileFault::RegionPart { section, at })
        }
    }
}

/// A fault of a section of regions.
fn region(section: u64, found: Result<(), u64>) -> Result<(), FileFault>
    ensures { (o : Option ℕ) → Finds o found → Finds (option_map (λ at. FileFault.RegionPart section at) o) result }
{
    match found {
        Ok(()) => Ok(()),
        Err(at) => Err(FileFault::RegionPart { section, at }),
    }
}

/// A wrong entry of a directory of regions.
fn region_entry(section: u64, found: Result<(), WrongEntry>) -> Result<(), FileFault>
    ensures { (o : Option WrongEntry) → Finds o found
        → Finds (option_map (λ w. FileFault.RegionPart section w.at) o) result }
{
    match found {
        Ok(()) => Ok(()),
        Err(wrong) => Err(FileFault::RegionPart {
            section,
            at: wrong.at,
        }),
    }
}
