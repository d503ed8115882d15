//! What an open file says.

ghost use Rattle.std.specs.Prelude.{IsTrue};
ghost use Rattle.file_laws.specs.Lawful.{is_whole};
ghost use Rattle.pemb_file.specs.OpenFile.{contents_of_file};

use crate::counts::Counts;
use crate::open_file::OpenFile;
use bit_words::Steps;
use id_names::NamesView;
use region_tree::RegionView;
use std::sync::ledger::Ledger;
use turan_code::TuranView;

/// What an open file says. It is a reference to the file, so handing it on copies nothing.
#[derive(Clone, Copy)]
pub struct Served<'a> {
    file: &'a OpenFile<'a>,
    ghost whole: { IsTrue (is_whole (contents_of_file file.now)) },
}

impl<'a> Served<'a> {
    ghost use Rattle.std.specs.Prelude.{◌≡◌, ◌<◌, ◌≤◌, ◌+◌, length, slice_index, slice_index_or, false, IsTrue};
    ghost use Rattle.turan_code.specs.TuranView.{code_of_view};
    ghost use Rattle.id_names.specs.Views.{ids_of};
    ghost use Rattle.file_laws.specs.Lawful.{is_whole};
    ghost use Rattle.region_tree.specs.RegionView.{regions_of};
    ghost use Rattle.pemb_file.specs.OpenFile.{contents_of_file};
    ghost use Rattle.pemb_file.specs.Milestones.{IsAround, place_at};
    ghost use Rattle.pemb_file.specs.Served.{contents_of_view, regions_in, AreCounts};

    /// What this file says.
    pub fn of(file: &'a OpenFile<'a>) -> Served<'a>
        ensures { contents_of_view result ≡ contents_of_file file.now }
    {
        Served { file }
    }

    /// The file.
    pub fn file(&self) -> &'a OpenFile<'a>
        ensures { contents_of_file result.now ≡ contents_of_view self.now }
    {
        self.file
    }

    /// How many nodes, edges, faces, components and regions there are.
    pub fn counts(&self) -> Counts
        ensures { AreCounts (contents_of_view self.now) result }
    {
        let edges = self.file.edges.count() as u32;
        let faces = self.file.faces.count() as u32;
        Counts {
            nodes: self.file.nodes.count() as u32,
            edges,
            tree_edges: edges - faces,
            faces,
            components: self.file.places.count() as u32,
            isolated: self.file.isolated.count() as u32,
            regions: self.file.regions.count() as u32,
        }
    }

    /// The code: which edge a position has, and the steps between positions.
    pub fn code(&self) -> &'a TuranView<'a>
        ensures code { code_of_view result.now ≡ (contents_of_view self.now).code }
        ensures whole { IsTrue (is_whole (contents_of_view self.now)) }
    {
        &self.file.code
    }

    /// The ids of nodes by number.
    pub fn nodes(&self) -> &'a NamesView<'a>
        ensures { ids_of result.now ≡ (contents_of_view self.now).nodes }
    {
        &self.file.nodes
    }

    /// The ids of edges by number.
    pub fn edges(&self) -> &'a NamesView<'a>
        ensures { ids_of result.now ≡ (contents_of_view self.now).edges }
    {
        &self.file.edges
    }

    /// The ids of faces other than 0, by the number of their shell.
    pub fn faces(&self) -> &'a NamesView<'a>
        ensures { ids_of result.now ≡ (contents_of_view self.now).faces }
    {
        &self.file.faces
    }

    /// Whether the first position of an edge is the forward one.
    pub fn forward<C: Ledger>(&self, edge: usize, steps: &mut Steps<C>) -> bool
        requires { edge < length (contents_of_view self.now).forward }
        ensures forward { result ≡ slice_index_or (contents_of_view self.now).forward edge false }
        ensures one_step { steps.new ≡ steps.old + 1 }
    {
        self.file.forward.bit(edge, steps)
    }

    /// The place of a component: 0 for face 0, and else 1 + the number of the face that contains it.
    pub fn place<C: Ledger>(&self, component: usize, steps: &mut Steps<C>) -> u32
        requires { component < length (contents_of_view self.now).places }
        ensures place { result ≡ slice_index (contents_of_view self.now).places component }
        ensures one_step { steps.new ≡ steps.old + 1 }
    {
        self.file.places.half_word(component, steps) as u32
    }

    /// The component at a place of the order by place and then by the signed edge at the start.
    pub fn place_order<C: Ledger>(&self, j: usize, steps: &mut Steps<C>) -> u32
        requires { j < length (contents_of_view self.now).place_order }
        ensures component { result ≡ slice_index (contents_of_view self.now).place_order j }
        ensures one_step { steps.new ≡ steps.old + 1 }
    {
        self.file.place_order.half_word(j, steps) as u32
    }

    /// The place of an isolated node.
    pub fn isolated<C: Ledger>(&self, j: usize, steps: &mut Steps<C>) -> u32
        requires { j < length (contents_of_view self.now).isolated }
        ensures place { result ≡ slice_index (contents_of_view self.now).isolated j }
        ensures one_step { steps.new ≡ steps.old + 1 }
    {
        self.file.isolated.half_word(j, steps) as u32
    }

    /// Between which entries of the order of places those of components at places below this one end.
    #[inline]
    pub fn components_around(&self, place: usize) -> (usize, usize)
        ensures { IsAround (place_at (contents_of_view self.now)) (length (contents_of_view self.now).place_order) place
            result.0 result.1 }
    {
        let count = self.file.place_order.count();
        self.file.component_milestones.around(place, count)
    }

    /// Between which isolated nodes, in their order, those at places below this one end.
    #[inline]
    pub fn isolated_around(&self, place: usize) -> (usize, usize)
        ensures { IsAround (slice_index (contents_of_view self.now).isolated)
            (length (contents_of_view self.now).isolated) place result.0 result.1 }
    {
        let count = self.file.isolated.count();
        self.file.isolated_milestones.around(place, count)
    }

    /// The regions, and for face 0 and each face by number the one that it is in. No word is read.
    pub fn regions(&self) -> RegionView<'a>
        ensures { regions_of result ≡ regions_in (contents_of_view self.now) }
    {
        RegionView::new(self.file.region_tree, self.file.regions, self.file.members)
    }
}
