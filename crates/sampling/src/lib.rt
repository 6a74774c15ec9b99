// The chance of PASS worked out and enclosed, plans certified by it, and the smallest samples that keep a limit.
#![tactic(auto)]

pub mod certified;
pub mod chance;
mod checks;
mod draw;
pub mod limit;
mod rows;
pub mod smallest;
#[cfg(test)]
mod tests;
