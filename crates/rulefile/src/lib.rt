// The rule file: its check into lent records, and the draft that is made of it.
#![tactic(auto)]

pub mod card;
pub mod check;
mod display;
pub mod draft;
pub mod fault;
mod outline;
pub mod record;
mod rows;
