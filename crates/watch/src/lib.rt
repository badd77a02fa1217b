// The watch: armed from a plan, it takes the events of a source by polls of single lines, and shows BREACH, CLEAR or OPEN.
#![tactic(auto)]

pub mod armed;
mod polling;
pub mod run;
mod step;

pub use armed::{Closed, Watch};
