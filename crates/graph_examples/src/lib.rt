//! Examples of the graph that changes: rows that show that its definitions say what is meant, and
//! random edits beside plain lists. They stand apart from the graph, since a crate with tests is
//! proved twice.
#![tactic(auto)]

#[cfg(test)]
mod batches;
#[cfg(test)]
mod cases;
#[cfg(test)]
mod course;
#[cfg(test)]
mod pages;
#[cfg(test)]
mod plain;
#[cfg(test)]
mod random;
#[cfg(test)]
mod reading;
#[cfg(test)]
mod rows;
