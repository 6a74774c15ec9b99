// The slip: what an inspection came to, as bytes.
#![tactic(auto)]

pub mod fault;
mod fields;
mod frames;
mod put;
#[cfg(test)]
mod tests;
pub mod writer;
