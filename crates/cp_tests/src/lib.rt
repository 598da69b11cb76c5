//! The tests of the crates below the program: what no clause says, which is threads that run, printed texts, and worked values. They stand in a
//! crate of their own, since a crate with tests is proved once more together with them.
#![tactic(auto)]

pub mod answers;
#[cfg(test)]
mod boards;
#[cfg(test)]
mod checks;
#[cfg(test)]
mod cuttings;
#[cfg(test)]
mod naturals;
#[cfg(test)]
mod parses;
#[cfg(test)]
mod programs;
#[cfg(test)]
mod progress_lines;
#[cfg(test)]
mod readings;
#[cfg(test)]
mod refusals;
#[cfg(test)]
mod runs;
#[cfg(test)]
mod scans;
#[cfg(test)]
mod schedules;
#[cfg(test)]
mod steps;
#[cfg(test)]
mod traces;
#[cfg(test)]
mod values;
#[cfg(test)]
mod workers;
