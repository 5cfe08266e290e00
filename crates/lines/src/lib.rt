// One line of a node, its neighbour and its marks.
#![tactic(auto)]

pub mod line;
pub mod machine;
pub mod marks;
pub mod telling;
