// The run with levels: starts, steps, and what one cycle does.
#![tactic(auto)]

mod asked;
mod chains;
mod detours;
mod steps;

pub use steps::{start, step};
