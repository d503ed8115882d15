//! Where each section of a file stands, by the form and the counts in its header.

ghost use Rattle.std.specs.Prelude.{◌≡◌, ◌<◌, ◌≤◌, ◌+◌, ◌*◌, ◌^◌};
ghost use Rattle.rank_select.specs.Counts.{blocks};
ghost use Rattle.min_max_tree.specs.Tree.{tree_size};
ghost use Rattle.file_laws.specs.Layout.{bits as bits_of_section, fields as fields_of_section, whole_words};
ghost use Rattle.pemb_file.specs.Section.{seen};

use crate::form::Form;
use crate::name_sections::NameSections;
use crate::section::Section;

/// The form of a file and the counts in its header, which may be any numbers.
#[derive(Clone, Copy)]
pub(crate) struct Header {
    pub(crate) form: Form,
    pub(crate) edges: u64,
    pub(crate) tree_edges: u64,
    pub(crate) components: u64,
    pub(crate) isolated: u64,
    pub(crate) regions: u64,
    /// The back pointers of the names of nodes, edges, faces and regions.
    pub(crate) node_back: u64,
    pub(crate) edge_back: u64,
    pub(crate) face_back: u64,
    pub(crate) region_back: u64,
}

/// Twice a number.
fn twice(count: u64) -> u128
    ensures twice { result ≡ 2 * count }
    ensures few { result < 2 ^ 65 }
{
    2 * u128::from(count)
}

/// How many words the tree of so many bits has.
fn tree_words(bits: u128) -> u128
    requires { bits < 2 ^ 66 }
    ensures words { result ≡ tree_size bits }
    ensures few { result < 2 ^ 66 }
{
    let mut nodes = (bits + 511) / 512;
    let mut words = nodes;
    while nodes > 1 {
        nodes = (nodes + 1) / 2;
        words += nodes;
    }
    words
}

/// A section of so many bits.
fn bits(number: u64, count: u64) -> Section
    ensures { seen result ≡ bits_of_section number count }
{
    Section {
        number,
        count: u128::from(count),
        width: 1,
    }
}

/// A section of two bits for each of so many pairs.
fn pairs(number: u64, count: u64) -> Section
    ensures { seen result ≡ bits_of_section number (2 * count) }
{
    Section {
        number,
        count: twice(count),
        width: 1,
    }
}

/// The counts of the bits of so many pairs.
fn pair_counts(number: u64, count: u64) -> Section
    ensures { seen result ≡ fields_of_section number (blocks (2 * count) + 1) }
{
    Section {
        number,
        count: (twice(count) + 511) / 512 + 1,
        width: 32,
    }
}

/// The tree over the bits of so many pairs.
fn pair_tree(number: u64, count: u64) -> Section
    ensures { seen result ≡ whole_words number (tree_size (2 * count)) }
{
    Section {
        number,
        count: tree_words(twice(count)),
        width: 64,
    }
}

/// A section of so many fields.
fn fields(number: u64, count: u64) -> Section
    ensures { seen result ≡ fields_of_section number count }
{
    Section {
        number,
        count: u128::from(count),
        width: 32,
    }
}

/// A section of one field more than so many.
fn fields_and_one(number: u64, count: u64) -> Section
    ensures { seen result ≡ fields_of_section number (count + 1) }
{
    Section {
        number,
        count: u128::from(count) + 1,
        width: 32,
    }
}

impl Header {
    ghost use Rattle.std.specs.Prelude.{◌≡◌, ◌<◌, ◌≤◌, ◌+◌, ◌*◌, ◌^◌};
    ghost use Rattle.file_laws.specs.Layout.{section, sections, section_from, file_words, face_count, node_count};
    ghost use Rattle.pemb_file.specs.Section.{seen, all_seen};
    ghost use Rattle.pemb_file.specs.Header.{counts_of_header};

    /// How many faces there are without face 0.
    pub(crate) fn faces(self) -> u64
        ensures { result ≡ face_count (counts_of_header self) }
    {
        self.edges.saturating_sub(self.tree_edges)
    }

    /// How many nodes there are.
    pub(crate) fn nodes(self) -> u128
        ensures nodes { result ≡ node_count (counts_of_header self) }
        ensures few { result < 2 ^ 66 }
    {
        u128::from(self.components) + u128::from(self.tree_edges) + u128::from(self.isolated)
    }

    /// All sections, in their order.
    pub(crate) fn sections(self) -> [Section; 45]
        ensures { all_seen result ≡ sections (counts_of_header self) }
    {
        let faces = self.faces();
        let node_names = NameSections {
            behind: 30,
            form: self.form,
            count: self.nodes(),
            back: self.node_back,
        };
        let edge_names = NameSections {
            behind: 40,
            form: self.form,
            count: u128::from(self.edges),
            back: self.edge_back,
        };
        let face_names = NameSections {
            behind: 50,
            form: self.form,
            count: u128::from(faces),
            back: self.face_back,
        };
        let region_names = NameSections {
            behind: 60,
            form: self.form,
            count: u128::from(self.regions),
            back: self.region_back,
        };
        [
            pairs(1, self.edges),
            pair_counts(2, self.edges),
            pairs(3, self.tree_edges),
            pair_counts(4, self.tree_edges),
            pair_tree(5, self.tree_edges),
            pairs(6, faces),
            pair_counts(7, faces),
            pair_tree(8, faces),
            fields_and_one(9, self.components),
            bits(10, self.edges),
            node_names.high(),
            node_names.high_counts(),
            node_names.lows(),
            node_names.places(),
            node_names.marks(),
            node_names.mark_counts(),
            node_names.back(),
            edge_names.high(),
            edge_names.high_counts(),
            edge_names.lows(),
            edge_names.places(),
            edge_names.marks(),
            edge_names.mark_counts(),
            edge_names.back(),
            face_names.high(),
            face_names.high_counts(),
            face_names.lows(),
            face_names.places(),
            face_names.marks(),
            face_names.mark_counts(),
            face_names.back(),
            fields(17, self.components),
            fields(18, self.components),
            fields(19, self.isolated),
            pairs(20, self.regions),
            pair_counts(21, self.regions),
            pair_tree(22, self.regions),
            region_names.high(),
            region_names.high_counts(),
            region_names.lows(),
            region_names.places(),
            region_names.marks(),
            region_names.mark_counts(),
            region_names.back(),
            fields_and_one(25, faces),
        ]
    }

    /// The section of this number, an empty one where none has it.
    pub(crate) fn section(self, number: u64) -> Section
        ensures { seen result ≡ section (counts_of_header self) number }
    {
        let sections = self.sections();
        for section in sections.iter() {
            if section.number == number {
                return *section;
            }
        }
        Section {
            number: 0,
            count: 0,
            width: 0,
        }
    }

    /// The word that a section begins at: where the file ends, if none has this number.
    pub(crate) fn first_word(self, number: u64) -> u128
        ensures from { result ≡ section_from (counts_of_header self) number }
        ensures few { result < 2 ^ 80 }
    {
        let sections = self.sections();
        let mut from = 15;
        for section in sections.iter() {
            if section.number == number {
                return from;
            }
            from += section.words();
        }
        from
    }

    /// How many words a file with these counts has.
    pub(crate) fn file_words(self) -> u128
        ensures { result ≡ file_words (counts_of_header self) }
    {
        let sections = self.sections();
        let mut words = 15;
        for section in sections.iter() {
            words += section.words();
        }
        words
    }
}
