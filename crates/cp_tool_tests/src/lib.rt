//! The tests of the program and of expectations: the worked rows, options, readers and writers that give little or fail.
#![tactic(auto)]

#[cfg(test)]
mod expectations;
#[cfg(test)]
mod fakes;
#[cfg(test)]
mod merged;
#[cfg(test)]
mod rows;
#[cfg(test)]
mod streams;
#[cfg(test)]
mod words;
