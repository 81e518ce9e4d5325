// The run by turns: a cycle is run only by one who holds a turn, and its reports are written out or waived before the next.
#![tactic(auto)]

mod faults;
mod numbers;
mod reports;
mod steps;
mod turns;

pub use faults::SessionFault;
pub use steps::start;
pub use turns::{NotTaken, Owed, Turn, Unwritten};
