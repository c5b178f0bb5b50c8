// Lists with room for a fixed number of items, with no memory asked for.
#![tactic(auto)]

pub mod lists;
