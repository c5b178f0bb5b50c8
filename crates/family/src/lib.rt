// Cells, readings, and families of curves: what a family means, and what it answers.
#![tactic(auto)]

pub mod cells;
pub mod curves;
pub mod families;
pub mod pairs;
pub mod readings;
pub mod rows;
