//! Examples of what a service is made of: a journal that two threads enter, and the texts of
//! questions and replies. They stand apart from the crates that they call, since a crate with tests
//! is proved twice.
#![tactic(auto)]

#[cfg(test)]
mod journals;
#[cfg(test)]
mod questions;
