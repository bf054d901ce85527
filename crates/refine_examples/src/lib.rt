//! Examples of refinement: the entries of a changed graph, its answer past the cut, and how many
//! edges were read. They stand apart from the crates that they call, since a crate with tests is
//! proved twice.
#![tactic(auto)]

#[cfg(test)]
mod graphs;
#[cfg(test)]
mod program;
#[cfg(test)]
mod tails;
