// One address for every frame of a scanned reel, in each scheme that archives write.
#![tactic(auto)]

pub mod address;
pub mod fault;
pub mod lookup;
pub mod name;
pub mod scheme;
pub mod schemes;
#[cfg(test)]
mod tests;
