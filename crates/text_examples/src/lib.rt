//! Examples of files in memory and of the texts of graphs and batches: rows that show that the
//! definitions say what is meant. They stand apart from the crates that they call, since a crate
//! with tests is proved twice.
#![tactic(auto)]

#[cfg(test)]
mod files;
#[cfg(test)]
mod texts;
