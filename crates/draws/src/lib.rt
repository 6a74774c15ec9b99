// Draw rules: which lists of frames each allows, and how many ways lead on.
#![tactic(auto)]

pub mod entry;
pub mod name;
pub mod rule;
#[cfg(test)]
mod tests;
