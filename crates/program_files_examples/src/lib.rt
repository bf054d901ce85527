//! Examples of programs' texts that are judged, as they stand and as files. They stand apart from
//! the judging, since a crate with tests is proved twice.
#![tactic(auto)]

#[cfg(test)]
mod judged;
