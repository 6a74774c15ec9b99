// The calls that programs in C, or in any language that can link C, make: numbers and rows in, plain structs out.
#![tactic(auto)]

mod answer;
mod film_calls;
mod risk_calls;
