//! The walk round the outline of a region, from its beginning.

ghost use Rattle.std.specs.Prelude.{◌≡◌, ◌≤◌, ◌+◌, [], filter, is_some, IfSome, MatchOption};
ghost use Rattle.plane_model.specs.PlaneMap.{signed_edges};
ghost use Rattle.plane_model.specs.Orders.{IsAllOf};
ghost use Rattle.plane_model.specs.Regions.{is_region};
ghost use Rattle.plane_model.specs.Border.{border, is_border};
ghost use Rattle.pemb_file.specs.Served.{contents_of_view};
ghost use Rattle.navigate.specs.Bound.{served_map, most_words};
ghost use Rattle.region_border.specs.Items.{items_of, edges_in};
ghost use Rattle.region_border.specs.BorderWalk.{contents_in, rest, given, allowance};
ghost use Rattle.region_border.specs.Prices.{most_border_words};

use crate::walk::BorderWalk;
use bit_words::Steps;
use pemb_file::Served;
use std::sync::ledger::Ledger;
use topo_base::RegionId;

/// The walk round the outline of a region: the signed edges with the region on their left alone, ring by ring. None
/// where the map has no such region.
pub fn border_walk<'a, C: Ledger>(
    served: Served<'a>,
    region: RegionId,
    steps: &mut Steps<C>,
) -> Option<BorderWalk<'a>>
    ensures known { is_some result ≡ is_region (served_map served.entry) region.0 }
    ensures contents { IfSome result (λ w. contents_in w ≡ contents_of_view served.entry) }
    ensures list { IfSome result (λ w. rest w ≡ items_of (border (served_map served.entry) region.0)) }
    ensures edges { IfSome result (λ w. IsAllOf (filter (is_border (served_map served.entry) region.0)
        (signed_edges (served_map served.entry))) (edges_in (rest w))) }
    ensures given { IfSome result (λ w. given w ≡ []) }
    ensures grows { steps.old ≤ steps.new }
    ensures paid { MatchOption result (steps.new ≤ steps.old + most_words (served_map served.entry) 0 0)
        (λ w. steps.new + allowance w ≤ steps.old + most_border_words (served_map served.entry)) }
{
    let regions = served.regions();
    match regions.number_of(region.0, steps) {
        Some(number) => Some(BorderWalk::begin(served, number)),
        None => None,
    }
}
