// Books of curves and tables: the reader that hands out their records, and the families that a book fills.
#![tactic(auto)]

pub mod commands;
pub mod knot_bytes;
pub mod lines;
pub mod loading;
pub mod ops;
pub mod reading;
pub mod records;
pub mod refusals;
