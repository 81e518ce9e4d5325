// The records of a design by their numbers, lent as tables.
#![tactic(auto)]

mod fields;
mod reads;
mod tables;

pub use fields::{is_enforced, is_if, is_number};
pub use reads::record_at;
pub use tables::Tables;
