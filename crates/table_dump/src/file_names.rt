//! The names of the five tables.

/// The names that the tables are written under.
#[derive(Clone, Copy)]
pub struct DumpNames<'n> {
    pub node: &'n str,
    pub edge: &'n str,
    pub face: &'n str,
    pub region: &'n str,
    pub member: &'n str,
}
