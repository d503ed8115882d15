//! Ids of nodes, edges, faces and regions.

/// The number of a node, an edge, a face or a region.
pub type IdNumber = u64;

/// The number of an edge with its direction: above zero forward, below zero backward.
pub type SignedNumber = i64;

/// The greatest number that an id may have.
pub const LARGEST_ID: IdNumber = 9_223_372_036_854_775_807;

/// The id of a node, from 1 to `LARGEST_ID` in tables that are accepted.
#[derive(Clone, Copy, Debug, PartialEq, Eq, PartialOrd, Ord, Hash)]
pub struct NodeId(pub IdNumber);

/// The id of an edge, from 1 to `LARGEST_ID` in tables that are accepted.
#[derive(Clone, Copy, Debug, PartialEq, Eq, PartialOrd, Ord, Hash)]
pub struct EdgeId(pub IdNumber);

/// The id of a face, from 0 to `LARGEST_ID` in tables that are accepted. Face 0 is the universal face.
#[derive(Clone, Copy, Debug, PartialEq, Eq, PartialOrd, Ord, Hash)]
pub struct FaceId(pub IdNumber);

/// The id of a region, from 1 to `LARGEST_ID` in tables that are accepted.
#[derive(Clone, Copy, Debug, PartialEq, Eq, PartialOrd, Ord, Hash)]
pub struct RegionId(pub IdNumber);
