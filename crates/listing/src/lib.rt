// What the program prints, as a value.
#![tactic(auto)]

mod card;
mod cards;
pub mod output;
mod refused;
