// Enclosures with slopes: what is known of a line over a cell, at its middle, and of the slope between.
#![tactic(auto)]

pub mod entries;
pub mod rules;
mod turning;
