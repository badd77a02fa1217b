// Numbers as bytes, and what can be wrong with them: the layer that rule files and logs are read by.
#![tactic(auto)]

mod display;
pub mod fault;
pub mod reader;
