// A draw list in mixed schemes: what each line names, which lines name a frame again, and how many frames the list rests on.
#![tactic(auto)]

pub mod reader;
pub mod row;
pub mod survey;
