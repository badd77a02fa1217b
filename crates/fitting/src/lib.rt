// Fitting: for each state the cheapest polling tree, by any measure that keeps the law and the bound.
#![tactic(auto)]

mod best;
mod cells;
pub mod fit;
mod measure;
pub mod plan;
mod state;
mod tree;

pub use measure::{Expected, ForkNumbers, Measure, Worst};
