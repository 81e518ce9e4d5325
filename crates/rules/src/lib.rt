// The rules that an accepted design keeps, and the first that a design breaks.
#![tactic(auto)]

mod depth;
mod ends;
mod faults;
mod levels;
mod links;
mod numbers;
mod places;
mod ranks;
mod sizes;
mod sweeps;
mod verdict;

pub use faults::{Breach, DesignFault, Kind, Rule};
pub use places::{ChildOf, owners};
pub use ranks::{MOST_RECORDS, Numbers};
pub use sweeps::sweep;
pub use verdict::check;
