// The categories as data: what a row of the table gives on a line, its braked mass and its margin.
#![tactic(auto)]

pub mod brake;
pub mod category;
