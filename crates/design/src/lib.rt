// Acceptance, and the accepted design.
#![tactic(auto)]

mod acceptance;
mod accepted;
mod cells;
mod commands;
mod facts;
mod formed;
mod owned;
mod reaches;
mod sets;
mod states;

pub use acceptance::accept;
pub use accepted::Accepted;
pub use facts::{CommandFacts, StateFacts};
