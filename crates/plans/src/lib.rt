// Sampling plans, why they are refused, and the theory of their risk.
#![tactic(auto)]

ghost use Rattle.plans.specs.Examples.{Examples};

pub mod fault;
pub mod plan;

// The worked plans and samples.
#[tactic(auto, using(crate::proofs::Worked::examples))]
pub fn examples()
    ensures { Examples }
{}
