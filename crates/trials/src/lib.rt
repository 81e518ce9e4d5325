// Acceptance, starts and steps at the edges of their rules, and a run by turns, through the code.
#![tactic(auto)]

#[cfg(test)]
mod acceptance;
#[cfg(test)]
mod parts;
#[cfg(test)]
mod running;
