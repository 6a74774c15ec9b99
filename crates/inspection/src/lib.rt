// The inspection of a reel: frames pulled, marked by a viewer, and ruled on by a certified plan.
#![tactic(auto)]

pub mod calls;
pub mod fault;
pub mod report;
mod table;
#[cfg(test)]
mod tests;
pub mod ticket;
