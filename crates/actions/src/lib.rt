// What one command does: expressions, raises, and the five kinds of commands.
#![tactic(auto)]

mod board;
mod commands;
mod expressions;
mod memory;
mod raises;
mod values;
mod ways;

pub use board::Board;
pub use memory::Memory;
pub use ways::{Reach, Way};
