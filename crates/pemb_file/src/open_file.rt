//! A lawful file that is open.

ghost use Rattle.std.specs.Prelude.{◌≡◌, IsTrue, length, slice_index};
ghost use Rattle.bit_words.specs.BitView.{bits_of};
ghost use Rattle.bit_words.specs.PackedView.{fields_of, width_of};
ghost use Rattle.parens.specs.ParenView.{parens_of};
ghost use Rattle.turan_code.specs.TuranView.{code_of_view};
ghost use Rattle.id_names.specs.Views.{ids_of};
ghost use Rattle.file_laws.specs.Contents.{contents_with};
ghost use Rattle.file_laws.specs.Lawful.{is_whole};
ghost use Rattle.pemb_file.specs.Milestones.{AreMilestones};

use crate::ahead::IdsAhead;
use crate::marking::{among_components, among_isolated};
use crate::milestones::Milestones;
use crate::served::Served;
use bit_words::{BitView, PackedView, Steps};
use id_names::NamesView;
use parens::ParenView;
use std::sync::ledger::Ledger;
use turan_code::TuranView;

/// A lawful file that is open: views of its sections, whose contents are whole.
#[derive(Clone, Copy)]
pub struct OpenFile<'a> {
    pub(crate) code: TuranView<'a>,
    pub(crate) forward: BitView<'a>,
    pub(crate) nodes: NamesView<'a>,
    pub(crate) edges: NamesView<'a>,
    pub(crate) faces: NamesView<'a>,
    pub(crate) regions: NamesView<'a>,
    pub(crate) places: PackedView<'a>,
    pub(crate) place_order: PackedView<'a>,
    pub(crate) isolated: PackedView<'a>,
    pub(crate) region_tree: ParenView<'a>,
    pub(crate) members: PackedView<'a>,
    pub(crate) component_milestones: Milestones,
    pub(crate) isolated_milestones: Milestones,
    ghost whole: { IsTrue (is_whole (contents_with (code_of_view code) (bits_of forward) (ids_of nodes) (ids_of edges)
        (ids_of faces) (ids_of regions) (fields_of places) (fields_of place_order) (fields_of isolated)
        (parens_of region_tree) (fields_of members))) },
    ghost places_width: { width_of places ≡ 32 },
    ghost order_width: { width_of place_order ≡ 32 },
    ghost isolated_width: { width_of isolated ≡ 32 },
    ghost components_marked: { AreMilestones (λ j. slice_index (fields_of places) (slice_index (fields_of place_order) j))
        (length (fields_of place_order)) component_milestones },
    ghost isolated_marked: { AreMilestones (slice_index (fields_of isolated)) (length (fields_of isolated))
        isolated_milestones },
}

impl<'a> OpenFile<'a> {
    ghost use Rattle.std.specs.Prelude.{◌≡◌, ◌≤◌, ◌+◌, ◌*◌, ◌↔◌, length, IsTrue};
    ghost use Rattle.bit_words.specs.Digits.{digits};
    ghost use Rattle.id_names.specs.Known.{asked};
    ghost use Rattle.turan_code.specs.TuranView.{code_of_view};
    ghost use Rattle.id_names.specs.RisingNames.{HasNoGap};
    ghost use Rattle.id_names.specs.Views.{ids_of, names_in};
    ghost use Rattle.bit_words.specs.BitView.{bits_of};
    ghost use Rattle.bit_words.specs.PackedView.{fields_of, width_of};
    ghost use Rattle.parens.specs.ParenView.{parens_of};
    ghost use Rattle.file_laws.specs.Contents.{contents_with};
    ghost use Rattle.file_laws.specs.Lawful.{is_whole};
    ghost use Rattle.pemb_file.specs.OpenFile.{contents_of_file};

    /// These views, whose contents are whole.
    pub(crate) fn new(
        code: TuranView<'a>,
        forward: BitView<'a>,
        nodes: NamesView<'a>,
        edges: NamesView<'a>,
        faces: NamesView<'a>,
        regions: NamesView<'a>,
        places: PackedView<'a>,
        place_order: PackedView<'a>,
        isolated: PackedView<'a>,
        region_tree: ParenView<'a>,
        members: PackedView<'a>,
    ) -> OpenFile<'a>
        requires whole { IsTrue (is_whole (contents_with (code_of_view code) (bits_of forward) (ids_of nodes)
            (ids_of edges) (ids_of faces) (ids_of regions) (fields_of places) (fields_of place_order)
            (fields_of isolated) (parens_of region_tree) (fields_of members))) }
        requires places_width { width_of places ≡ 32 }
        requires order_width { width_of place_order ≡ 32 }
        requires isolated_width { width_of isolated ≡ 32 }
        ensures { contents_of_file result ≡ contents_with (code_of_view code.entry) (bits_of forward.entry)
            (ids_of nodes.entry) (ids_of edges.entry) (ids_of faces.entry) (ids_of regions.entry)
            (fields_of places.entry) (fields_of place_order.entry) (fields_of isolated.entry)
            (parens_of region_tree.entry) (fields_of members.entry) }
    {
        OpenFile {
            code,
            forward,
            nodes,
            edges,
            faces,
            regions,
            places,
            place_order,
            isolated,
            region_tree,
            members,
            component_milestones: Milestones::none(),
            isolated_milestones: Milestones::none(),
        }
    }

    /// Puts milestones among the places of components and of isolated nodes, between which what lies in a face is found.
    pub(crate) fn mark_places<C: Ledger>(&mut self, steps: &mut Steps<C>)
        ensures contents { contents_of_file self.new ≡ contents_of_file self.old }
        ensures grows { steps.old ≤ steps.new }
        ensures cost { steps.new ≤ steps.old + 2 * length (contents_of_file self.old).place_order
            + length (contents_of_file self.old).isolated + 3072 }
    {
        let served = Served::of(self);
        let components = among_components(served, steps);
        let isolated = among_isolated(served, steps);
        self.component_milestones = components;
        self.isolated_milestones = isolated;
    }

    /// Notes of the names of each kind whether their ids are 1, 2, 3 and so on with no gap among them, so that look-ups
    /// don't read these.
    pub(crate) fn note_gaps<C: Ledger>(&mut self, steps: &mut Steps<C>)
        ensures contents { contents_of_file self.new ≡ contents_of_file self.old }
        ensures nodes { IsTrue (self.new).nodes.is_gapless ↔ HasNoGap (names_in (self.old).nodes) }
        ensures edges { IsTrue (self.new).edges.is_gapless ↔ HasNoGap (names_in (self.old).edges) }
        ensures faces { IsTrue (self.new).faces.is_gapless ↔ HasNoGap (names_in (self.old).faces) }
        ensures regions { IsTrue (self.new).regions.is_gapless ↔ HasNoGap (names_in (self.old).regions) }
        ensures grows { steps.old ≤ steps.new }
        ensures cost { steps.new ≤ steps.old + 372 }
    {
        self.nodes.note_gaps(steps);
        self.edges.note_gaps(steps);
        self.faces.note_gaps(steps);
        self.regions.note_gaps(steps);
    }

    /// Looks up these ids: the names know their numbers then, and read nothing when they are asked for them.
    pub fn look_ahead<C: Ledger>(&mut self, ids: &IdsAhead, steps: &mut Steps<C>)
        ensures contents { contents_of_file self.new ≡ contents_of_file self.old }
        ensures nodes { asked (self.new).nodes.known ≡ ids.now.nodes }
        ensures edges { asked (self.new).edges.known ≡ ids.now.edges }
        ensures faces { asked (self.new).faces.known ≡ ids.now.faces }
        ensures grows { steps.old ≤ steps.new }
        ensures cost { steps.new ≤ steps.old + 4 * (11 * digits (length (ids_of (self.old).nodes) + 2) + 46)
            + 4 * (11 * digits (length (ids_of (self.old).edges) + 2) + 46)
            + 4 * (11 * digits (length (ids_of (self.old).faces) + 2) + 46) }
    {
        self.nodes.look_ahead(ids.nodes, steps);
        self.edges.look_ahead(ids.edges, steps);
        self.faces.look_ahead(ids.faces, steps);
    }
}
