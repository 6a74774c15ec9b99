// Lines in, answers out.
#![tactic(auto)]

pub mod begin;
mod by_scheme;
pub mod fault;
mod hex;
pub mod reader;
pub mod reply;
pub mod request;
pub mod session;
mod state;
#[cfg(test)]
mod tests;
pub mod worked;
