//! Examples of programs: their texts, what the range check says of them, a run, and a board over
//! its answer. The rows show that the definitions say what is meant. They stand apart from the
//! crates that they call, since a crate with tests is proved twice.
#![tactic(auto)]

#[cfg(test)]
mod boards;
#[cfg(test)]
mod desks;
#[cfg(test)]
mod ranges;
#[cfg(test)]
mod rank;
#[cfg(test)]
mod runs;
#[cfg(test)]
mod samples;
#[cfg(test)]
mod texts;
