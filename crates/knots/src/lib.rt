// Knot tables: curves given as measured points, read as straight lines between them.
#![tactic(auto)]

pub mod extents;
pub mod knots;
pub mod tables;
